//! What `actions` and `result` give.
//!
//! A reference is looked up by name (`wf_catalog`), and which loops it leaves is told by the two lists of loops round both. A view that
//! leaves a Foreach is put together of a look-up for each of its iterations, as many as the row of the loop tells. A result lists the views
//! of the actions in a container's own graphs, in the order of their names.
//!
//! `specs/Views` says what a name gives from inside given loops, in whatever rows there are. Whether that is what the definition means
//! there depends on which rows these are, and is not said here.
#![tactic(auto)]

mod inner;
mod rows;
mod spots;
mod views;

pub use rows::{indexes, indexes_then, row_of};
pub use views::{result_from, view_from};
pub use wf_asks::{Instance, Known, Opens, Rows, Store};
pub use wf_catalog::{
    Decision, Look, Places, Start, Verdict, actions_have_depths, entries_stay_in_their_graph,
    kind_of, name_of, number_of, numbers_stand_once, value_given, word_of,
};
