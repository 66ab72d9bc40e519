//! A state of the event machine with what it costs, which is told at once.
//!
//! It steps as the state does, and moves four sums by what stands at an event's action before and after it (`wf_meter`). Of these it looks
//! only at what an event of its kind can change. So what a container decided by, as the list that a Foreach goes over, is weighed as it
//! opens and as it closes, and in no event between.
#![tactic(auto)]

mod metered;
mod rest;
mod sums;

pub use metered::Metered;
pub use rest::MeteredRest;
pub use wf_meter::{EventAt, LeafAt, Plan};
pub use wf_steps::{Spare, State};
