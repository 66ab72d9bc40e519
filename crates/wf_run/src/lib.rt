//! Runs under a schedule: which of the events that may happen comes next, again and again, until none may.
//!
//! `run` makes one of a definition that was made ready for its runs (`wf_runnable`): it drives the event machine on under the schedule,
//! counts its events and how many leaves were running at a time at most, keeps a line for each event where that is asked for, and has the
//! record made that the run leaves. It gives up where the run costs too much, and says so exactly then.
//!
//! `resubmit` makes one from the record of an older run, in the same way: it begins with the rows that are kept, and with what is closed
//! again.
//!
//! `cost_too_much` tells before any run is made where so many cost too much whatever they come to (`wf_least`).
//!
//! What a run is, without any state that the machine keeps, is said by `wf_told`: one list of events, by which all is told but the record,
//! which is the definition's meaning, or what the resubmission means, whatever the events are.
//!
//! What actions do is said below (`wf_actions`), and so is how the machine keeps what has happened (`wf_making`). What a `Runnable` is
//! made of is handed on, so that who makes runs names no crate below this one for it.
#![tactic(auto)]

mod again;
mod cost;
mod driven;
mod ended;
mod fresh;
mod least;
mod made;

pub use again::resubmit;
pub use ended::Ended;
pub use fresh::run;
pub use least::cost_too_much;
pub use wf_runnable::{Checked, Ends, Lists, Ready, Runnable};
