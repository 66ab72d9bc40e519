//! Whether a run can be resubmitted from a set of actions.
//!
//! A run is resubmitted from its record and the names of some of its actions. `chosen` gives the numbers of these actions, or says why the
//! record can't be resubmitted from them: no action has one of the names; one stands in a loop, where it would be many; one has not run; or
//! the record is of another definition (`specs/Refused`). Each question is asked of all names before the next, and the answer names the
//! least of them in byte order.
//!
//! It doesn't ask whether the rows of the record stand where a run leaves some: that fault is told by a crate above this one
//! (`wf_prepare`).
#![tactic(auto)]

mod asked;
mod choice;
mod fault;
mod laws;

pub use choice::chosen;
pub use fault::ResubmitFault;
pub use laws::{the_least_is_named, what_is_chosen_may_be_redone};
