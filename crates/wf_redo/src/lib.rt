//! What is redone where a set of actions is resubmitted, and what is closed again.
//!
//! A run is resubmitted from a set of actions. Redone are the actions of the set, what stands inside them, and what comes after them. A
//! container that isn't redone and holds an action of the set has ended before, and is closed again: it keeps what it decided, and its row
//! is made anew. All other rows are kept. `redo_any` and `again_any` answer by the tables of an order (`wf_order`), by the numbers of
//! actions.
//!
//! `a_set_is_redone` says that the answers are those relations; and where no action of the set stands in a loop, that they are the very
//! sets by which `wf_layers` says what a resubmission means. `a_set_redoes` says it of all sets that a resubmission may have there.
//!
//! It doesn't ask whether an action may be resubmitted: whether it is there, has run, and stands in no loop.
#![tactic(auto)]

mod laws;
mod redo;

pub use laws::{a_set_is_redone, a_set_redoes};
pub use redo::{again_any, redo_any};
