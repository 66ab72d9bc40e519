//! Runs whose events have happened.
use wf_asks::{Rows, Store};
use wf_record::Row;

/// A run in which nothing may happen any more, before its record is made: its rows and its last writers, how many events it had, how many
/// leaves were running at a time at most, and its lines where they are kept.
#[derive(Drop)]
pub(crate) struct Made {
    pub rows: Rows<Row>,
    pub store: Store,
    pub steps: u64,
    pub peak: u64,
    pub trace: Vec<u8>,
}
