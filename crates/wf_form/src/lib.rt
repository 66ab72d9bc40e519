//! Which rule a definition breaks first, and where.
//!
//! A definition is an object (Workflow Definition Language, "Workflow definition structure"). The first eight rules look at it as a
//! value, before anything is made of it: that it has the form, the schema, the limits, the names, the types and the members of a
//! definition, that its expressions are such, and that no action waits for itself. A rule is looked at only where every rule before
//! it holds; of the places that break it the one with the least pointer by bytes is told.
//!
//! All rules share one walk. A value has a role, which the value that holds it gives it by its key, and each rule says of a value in
//! its role which pointers break it there. A member that has no role isn't looked at, such as the `else` of a Scope.
//!
//! It makes nothing of a definition: what one means is another crate's question, as are the rules on what its expressions name.
#![tactic(auto)]

mod actions;
mod fault;
mod form;
mod judge;
mod known;
mod limits;
mod naming;
mod role;
mod rule;
mod schema;
mod types;
mod walk;

pub use actions::actions_of;
pub use fault::{fault_of, first_fault, inner, the_first_fault};
pub use role::{Holder, Role};
pub use rule::Rule;
pub use wf_after::{pointer, write};
