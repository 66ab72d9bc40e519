//! A drill: a definition of a size, the inputs of its run and three schedules, by which the program measures the machine that it is on.
//!
//! A drill of size n has n calls beside each other, a loop over n numbers, and an action that waits for all of them; its inputs have an
//! answer for each attempt of each call. So a run of it has some 2 n rows, and waits often for several actions at a time. What it is, is
//! said in `specs/Drill` as values, by recursion on the size: these are read and checked as the values of files are.
//!
//! This crate reads no definition and makes no run.
#![tactic(auto)]

mod actions;
mod answers;
mod calls;
mod drill;
mod laws;
mod members;
mod schedules;

pub use drill::{Drill, make};
pub use laws::{a_drill_is_in_form, a_drill_is_of_its_size, a_schedule_has_so_many_numbers};
