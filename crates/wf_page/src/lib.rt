//! The page of a run: the words, the files that they name, and what is written of them.
//!
//! `serve_page` reads a definition and a record of one of its runs, or two, and writes the page that `wf_drawn` draws of them; or the line
//! that says why there is none. Of a file of records the first one is taken. Where there are two files of records the first has the earlier
//! run, from which the second was resubmitted.
//!
//! What is said of the files is a function of what they hold (`specs/Judged.antt`); how a call ends, whatever becomes of its reads and of
//! its writing, says `specs/Served.antt`.
#![tactic(auto)]

mod judging;
mod loading;
mod logs;
mod said;
mod serve;
mod words;

pub use serve::serve_page;

/// The greatest length of a definition's file, in bytes: 4 MiB.
const DEFINITION_LIMIT: u64 = 4_194_304;

/// The greatest length of a file of records, in bytes: 64 MiB.
const RECORD_LIMIT: u64 = 67_108_864;
