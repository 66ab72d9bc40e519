//! What the parts of a definition are read as that hold no graph of actions.
//!
//! A text is a template, a value has a template for each of its texts (Workflow Definition Language, "Expressions"), the expression of an
//! If or an Until is a condition, `operationOptions` lists words, and an action of a type without graphs does one thing ("Actions and
//! triggers"). Each is said by a function on the value's tree: `specs/Texts`, `specs/Conditions`, `specs/Options`, `specs/Leaves`.
//!
//! These functions are total: what a rule refuses is read as something all the same, which no one asks for, so that there is no
//! fault but want of memory. `wf_reading` reads the whole of a definition by them, and asks first whether it breaks a rule.
#![tactic(auto)]

mod conditions;
mod leaves;
mod options;
mod texts;

pub use conditions::condition_at;
pub use leaves::{leaf_of, nothing};
pub use options::lists_option;
pub use texts::{data_in, members_of, str_in, template_at, template_of};
pub use wf_kinds::{ActionType, limit, repetitions};
