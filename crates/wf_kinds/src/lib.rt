//! The types of actions, and the members that each asks for (Workflow Definition Language, "Actions and triggers").
//!
//! A definition's action is an object whose `type` says what it does, and by its type other members must be there and be of
//! some form: a Query has a `where` that is a text, a Foreach runs at most 50 iterations at once. `ActionType::of` tells the
//! type, and `action_has_members`, `trigger_has_members` and `output_has_members` tell whether all is there. Types compare
//! without the case of ASCII letters, names of members exactly, and a member that is null is there.
//!
//! It looks at one action alone: not at its name, nor at what it comes after, nor at the actions inside it; and not at what
//! texts spell as templates. Nothing here takes memory.
#![tactic(auto)]

mod action_type;
mod condition;
mod containers;
mod data;
mod members;
mod parts;
mod services;
mod variables;

pub use action_type::ActionType;
pub use condition::{comparison_named, is_condition};
pub use containers::{limit, repetitions};
pub use members::{action_has_members, output_has_members, trigger_has_members};
pub use parts::input;
pub use wf_retry::Policy;
pub use wf_schema::pointer;
