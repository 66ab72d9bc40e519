//! Which actions of a graph have a `runAfter` that they can't have.
//!
//! A graph is the members of one `actions` object. An action's `runAfter` has an entry for each action that it waits for, with the
//! statuses that let it run. An entry has to name another action of the same graph, its statuses are four, and no action may wait
//! for itself, by however many others. Of a cycle all that are on it offend, and nothing that comes behind it.
//!
//! It judges actions whose `runAfter`, where there is one, is an object of lists of texts: whoever calls has looked at that before.
//! It says nothing of when an action runs.
#![tactic(auto)]

mod entries;
mod graph;
mod laws;

pub use graph::bad_run_after;
pub use laws::who_waits_for_itself;
pub use wf_json::{pointer, write};
