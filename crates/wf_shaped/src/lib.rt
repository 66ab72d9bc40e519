//! Where a record hasn't the right shape for a definition.
//!
//! A record is resubmitted only where its rows stand at exactly the addresses that its own rows call for (`wf_shape`). `least_failing`
//! tells the least address at which that isn't so: a row is missing there, isn't such as is called for, or is one too many
//! (`specs/Failing`). It goes over the rows once, and looks inside those alone that are right (`specs/Told`); that it misses none is shown
//! by the laws on ways (`wf_ways`).
//!
//! It doesn't ask whether the record is one of the definition at all.
#![tactic(auto)]

mod judged;
mod least;
mod missing;
mod shape;

pub use shape::least_failing;
pub use wf_catalog::{
    Def, TriggerFault, a_skipped_row_says_nothing, entries_stay_in_their_graph, loops_may_turn,
    names_are_those_named, names_stand_once, numbers_are_below, numbers_stand_once,
    read_actions_have_their_numbers, what_is_given_is_found, what_is_initialized_is_given,
    what_is_written_keeps_its_type,
};
pub use wf_fits::{
    attempts_are_few, numbers_have_the_kinds_of_their_actions, rows_tell_what_was_decided,
};
