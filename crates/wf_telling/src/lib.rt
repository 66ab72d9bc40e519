//! What a trace tells of an event, by what a run has at its instance.
//!
//! As an event happens, its instance has a row, a running leaf or an open container. `tell` writes the line of the event from that alone
//! (`wf_trace` has the writers): of a Start the inputs that the leaf keeps, of a Try the number of attempts that it has made and what the
//! answers say of the last, of an End and a Close the row, of an Open the decision, of a Begin and a Test the index below the next and the
//! test that was kept.
//!
//! The contract says that this is what the definition means to be told of the event, by its number in the run, wherever what stands there
//! is what the event has made (`specs/Telling`): so the line is the same whenever it is written, and under whatever schedule. Of what isn't
//! there an empty line is given, since no event has made it so.
//!
//! It knows of no state and no schedule.
#![tactic(auto)]

mod containers;
mod event;
mod leaves;

pub use event::tell;
