//! What a trace tells of an event.
//!
//! A trace has a line for each event of a run: the kind of the event, the address, and behind these what the kind has to tell
//! (`specs/Told`): of a Start the inputs, of a Try which attempt it is and what came of it, of an End the status and what is given out, of
//! an Open what is decided, of a Begin and a Test which iteration it is and what the test gives, of a Close the status. What has no value
//! is a fault, behind an exclamation mark (`specs/Texts`).
//!
//! All of it is told by the rows that the definition means, and by which of its kind an event is, so a line is known without the state in
//! which the event happened. Each function here writes one kind of line from what a state has at the instance.
//!
//! Addresses are written plainly: as a name may hold a slash, two may have one text. Nothing is read back from a trace.
#![tactic(auto)]

mod end;
mod fault;
mod laws;
mod line;
mod number;
mod open;
mod start;

pub use end::{close_line, end_line};
pub use laws::what_inputs_came_to_is_told;
pub use line::skip_line;
pub use number::{begin_line, test_line, try_line};
pub use open::open_line;
pub use start::start_line;
pub use wf_done::Begun;
pub use wf_opening::{Decision, Verdict};
