//! How a run went, in figures.
use wf_record::RunStatus;

/// What is told of a run that has ended but for its record and its events.
#[derive(Clone, Copy)]
pub struct Measure {
    /// How many rows its record has.
    pub rows: u64,
    /// How it ended.
    pub status: RunStatus,
    /// How many events it had.
    pub steps: u64,
    /// How many leaves were running at a time at most.
    pub peak: u64,
}
