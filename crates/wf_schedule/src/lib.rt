//! Schedules, read from a file that has a number on each line.
//!
//! A schedule is a list of numbers by which a run takes its turns (`wf_scheduled`). On each line of its file stands a number in one to ten
//! decimal digits, at most 4,294,967,295; `read_schedule` gives them all, or tells the first line that has none (`specs/Schedule`).
//!
//! What a number means is said where runs are made.
#![tactic(auto)]

mod fault;
mod reading;

pub use fault::ScheduleFault;
pub use reading::read_schedule;
