//! The machine of a run, as what drives a run asks for it.
//!
//! A driver (`wf_drive`) takes whatever makes a run event after event. `Making` is that over a state of the event machine with its cost
//! (`wf_metered`), for actions of which two things more are known: what a trace tells of an event (`Tells`), and what a run costs before
//! its first event and at its end (`Pays`). So the driver knows of no lists, and the actions of no schedule.
//!
//! It decides nothing itself: which events may happen is the state's matter, and which of them comes next the driver's.
#![tactic(auto)]

mod making;
mod pays;
mod tells;

pub use making::Making;
pub use pays::Pays;
pub use tells::Tells;
pub use wf_metered::{MeteredRest as Rest, Spare};
