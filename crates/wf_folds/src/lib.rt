//! What is kept of the arguments of a function while they come, so that no more is kept than the rest needs.
//!
//! `Paired` is for a function that can take each argument with what those before it come to: `min`, `max` and `intersection`
//! (Workflow Definition Language, schema 2016-06-01, reference of the functions in expressions). It keeps one value, or the
//! fault. `United` is for `union`, whose size is told even where it doesn't fit: it keeps each distinct item of its lists, or
//! the last member of each name of its objects.
//!
//! `pairs_are_the_row` and `unions_are_the_row` promise that what is made so is what the function gives of all its arguments.
//!
//! This crate knows no expressions: it is given values, from left to right. What a function gives of values is said by
//! `wf_functions`.
#![tactic(auto)]

mod items;
mod laws;
mod members;
mod paired;
mod united;

pub use laws::{pairs_are_the_row, unions_are_the_row};
pub use paired::Paired;
pub use united::United;
