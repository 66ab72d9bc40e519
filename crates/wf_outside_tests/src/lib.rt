//! Planned failures of the outside, as tests: files, sources and sinks in memory that fail at the calls that they are
//! told to, and the adapters over a real file and over streams that fail.
//!
//! The contracts of `wf_outside` say what a call may answer. What they leave open is that a call succeeds where there is
//! memory, and what the real system does. The crate promises nothing; it only holds the tests.
#![tactic(auto)]

#[cfg(test)]
mod tests;
