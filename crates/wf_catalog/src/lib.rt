//! The actions of a definition by their numbers and by their names.
//!
//! `Places` is made once for a definition, by one walk over its graphs: of each action the loops round it and the numbers of the variables
//! that it writes, by its number; each action by its name; and the number of each variable. The variables that actions write are numbered
//! by the first writing of each, so a number is that of one name.
//!
//! It knows of no run.
#![tactic(auto)]

mod actions;
mod named;
mod places;
mod tables;
mod variables;
mod walk;

pub use actions::{kind_of, name_of, number_of};
pub use named::Named;
pub use places::Places;
pub use tables::by_keys;
pub use wf_known_laws::{
    Def, actions_have_depths, entries_stay_in_their_graph, loops_may_turn, names_stand_once,
    numbers_are_below, numbers_are_had, numbers_are_places, numbers_stand_once,
};
pub use wf_meant::{
    Begun, Decision, Look, Start, TriggerFault, Verdict, a_record_is_of_the_table,
    a_skipped_row_says_nothing, branch_said, fits, is_skipped, items_said, names_are_those_named,
    read_actions_have_their_numbers, rounds_said, value_given, what_is_given_is_found,
    what_is_initialized_is_given, what_is_written_keeps_its_type, word_of,
};
