//! The text of the runs of a definition that start with inputs.
//!
//! `Printer` is the engine that the top call is lent (`wf_told`): it starts all runs, makes each under the same schedule, and writes the
//! lines of its events where it is to be traced, its record's line, and below it a summary line, one run after the other into one text; or
//! it says why no run can start, or that all of them together cost too much. Which runs start is said by `wf_trigger`, how one is made by
//! `wf_run`, what a record costs and how it is printed by `wf_record`.
//!
//! Of a resubmission it writes the new record's line and the summary line; or it says why the record can't be resubmitted (`wf_prepare`),
//! or that the new record would cost too much.
//!
//! Of one run alone it tells how that went in figures, and writes nothing.
//!
//! Each run begins the schedule anew. Of a run only its text is kept, and no start is made before its turn, so a split of many items takes
//! the memory of its text and its items. The text is handed out whole: where the runs cost too much there is none.
#![tactic(auto)]

mod measuring;
mod printer;
mod resubmission;
mod runs;
mod summary;
mod written;

pub use printer::Printer;
