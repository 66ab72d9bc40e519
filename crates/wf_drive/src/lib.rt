//! Driving a run to its end under a schedule.
//!
//! Whatever makes a run event after event is a `Machine` here: it tells whether anything may happen any more, picks the event at a place
//! among those that may, takes it, and says what a trace has of it. `drive` takes the event that the schedule has for each turn, until none
//! may happen, counts the events, and how many leaves were running at a time at most, and keeps a line for each event where that is asked
//! for. It gives up where the run costs too much, and says so exactly then.
//!
//! What is said of a run is said by its list of events (`specs/Driven`, and `wf_scheduled`), of which a schedule has one.
//!
//! It makes no rows and evaluates nothing; how a machine finds the event at a place, and what it costs, is the machine's part.
#![tactic(auto)]

mod driving;
mod fault;
mod laws;
mod line;
mod machine;

pub use driving::{Driven, drive};
pub use fault::DriveFault;
pub use laws::traces_grow;
pub use line::write_line;
pub use machine::Machine;
