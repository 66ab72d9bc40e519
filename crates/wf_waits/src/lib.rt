//! Attempts that wait for their answers, while a run stands still.
//!
//! A run that goes on as its answers come has many of them, and takes one answer at a time: what it does for one is to grow with none of
//! the others. So they are kept twice. By their keys the attempt is found that an answer is for. By their instances they go side by side
//! with the events that may happen, which are in the same order: where two lists of instances agree at a place they agree up to there, as
//! each attempt that waits may happen, so all that wait in a row are passed by a search among places (`Waits::past`).
//!
//! Beside them stand those that are new, whose keys a talk tells once an answer was taken.
//!
//! What an attempt waits for is no matter of this crate: it knows no run, and of events no more than their instances.
#![tactic(auto)]

mod waiting;
mod waits;

pub use waiting::{Fresh, Waiting};
pub use waits::Waits;
