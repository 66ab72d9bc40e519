//! Which node of a graph leads to which.
//!
//! A graph is given as a list of nodes, and each node as the list of those that it names: an action is a node, and it names
//! the actions of its `runAfter`. An edge leads from each node that is named to the node that names it, and a node leads to
//! another where a path of edges does. `paths_of` gives the table of that. Graphs may have cycles: a node is on one exactly
//! where it leads to itself, and what only stands behind a cycle isn't on it.
//!
//! `specs/Path` says what a path is, and `specs/Table` what stands in the table; `paths_are_exact` ties the two together.
//!
//! The crate knows nothing of actions, names or statuses. The table takes a byte for each two nodes, and the rounds in which
//! it is made go over each row once a node, so the graphs are those of definitions, of some hundred nodes at most.
#![tactic(auto)]

mod laws;
mod table;

pub use laws::paths_are_exact;
pub use table::paths_of;
