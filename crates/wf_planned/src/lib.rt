//! The plan of a definition that was read.
//!
//! The event machine goes by the plan of a graph (`wf_plan`), and asks two things of it: that it is the graph's, and that no action names
//! another twice in its `runAfter` (`IsPlanned` of `wf_steps`). Both hold of each definition that was read: the entries of a `runAfter` are
//! the members of an object, whose names differ, and each has the number of the action of its name. So `plan` asks for nothing more.
//!
//! It makes nothing beside the plan, and knows of no run.
#![tactic(auto)]

mod laws;
mod planning;

pub use laws::{actions_are_named_once, entries_stand_in_order, plans_are_of_definitions};
pub use planning::plan;
