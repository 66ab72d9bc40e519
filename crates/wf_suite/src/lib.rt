//! The file of tests beside a workflow, read from its value.
//!
//! Such a file names a definition and has tests. A test checks the definition, runs it, or resubmits the run of a test before it; and it
//! says what is expected: how many actions a check accepts, the line of a refusal, or what stands in the records. `Suite::read` reads the
//! file, or says why it is none: something isn't of the form (the least pointer of what is amiss), a name stands twice, or a resubmission
//! is of no test before it that is expected to make a record (the first test of which one of both is so).
//!
//! Nothing is read or run here, and what is expected of a record is compared elsewhere (`wf_match`).
#![tactic(auto)]

mod asked;
mod fault;
mod form;
mod known;
mod members;
mod part;
mod reading;
mod suite;
mod test;

pub use fault::SuiteFault;
pub use suite::{Given, Kind, Names, Suite, Test, Tests, Wanted};
