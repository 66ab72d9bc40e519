//! What an engine edits as a container opens, and as an iteration of a loop begins.
//!
//! A Scope and a Choice enter a graph as they open, a loop enters its own once for each iteration. Here stand which graph that is
//! (`opened_graph`, `turned_graph`), the rows of the branches that are passed over (`passed_rows`), the next iteration of an open loop
//! (`begin_iteration`), and the counts and the ready set of a graph that is entered: what takes memory is made before (`opening_edits`,
//! `turning_edits`, `make_room`), so that the edits can't fail (`enter_graph`). A law says that these are the edits for which the laws of
//! counting ask.
#![tactic(auto)]

mod applied;
mod begun;
mod edits;
mod graphs;
mod laws;
mod passed;

pub use applied::{enter_graph, make_room};
pub use begun::begin_iteration;
pub use edits::{Entering, opening_edits, turning_edits};
pub use graphs::{opened_graph, turned_graph};
pub use laws::graphs_are_entered;
pub use passed::passed_rows;
pub use wf_events::{
    Acts, CountAt, Entry, EventAt, Instance, Known, Opens, Plan, Rows, Store, Wait, last_iteration,
    look_at, look_at_open, set_counts, take_event,
};
