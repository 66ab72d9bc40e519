//! Histories: the records that the lines of a file are.
//!
//! A line that is empty or begins with `#` says nothing, and each other one has to be a record's (`wf_record_form`). `find` gives the
//! record of a run, `list` says in short what each record is, and `scan` only whether all are records. Where a line is none, the first
//! such line is told, counted from 1.
//!
//! A file is read line by line (`wf_lines`). The value of a line is dropped before the next is read, a record is made of the one that is
//! looked for alone, and each byte is looked at once by each step of the reading: a file of 64 MiB takes the memory of its longest line.
#![tactic(auto)]

mod fault;
mod finding;
mod line;
mod listing;
mod sought;

pub use fault::HistoryFault;
pub use finding::find;
pub use listing::{Listed, Listing, list, scan};
