//! How an instance of an action stands to the rows of a record.
//!
//! The laws on the shape of a record (`wf_ways`) judge an address along the way to its action: the containers round it, outermost first,
//! and how each is entered. `Ways` is made once for a definition, by one walk over its graphs, and tells the way to each action by its
//! number; and the type of the variable that an action writes, which says what its row may tell (`wf_says`). `stands` tells whether a
//! record has to have a row for an instance, by one search for the row of each container on the way.
//!
//! Which of the rows fail, and which are missing, it doesn't say.
#![tactic(auto)]

mod named;
mod sorts;
mod standing;
mod step;
mod walk;
mod ways;

pub use standing::{Standing, may_be, stands};
pub use step::{Into, Step};
pub use ways::Ways;
pub use wf_turns::{
    attempts_are_few, numbers_have_the_kinds_of_their_actions, rows_tell_what_was_decided,
};
