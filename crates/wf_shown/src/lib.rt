//! The rows of an action as they are shown on a page.
//!
//! A row is shown folded: its status, by a word beside its colour, and its code; and behind that what it took in and gave out, its fault,
//! its tracked properties and its attempts, each where it is there. Of an action in loops the rows are folded once more behind a count of
//! each status, and those behind the first hundred are counted alone.
//!
//! Where there is an earlier record too, each row is marked by what became of the one that has its address there: it was kept; it is a
//! Scope's, an If's or a Switch's that was closed again, with what it had decided; or it was done again. A row that was done again and came
//! out as it was can't be told from a kept one.
//!
//! `specs/Rows.antt` says which pieces of a page (`wf_html`) that is.
#![tactic(auto)]

mod attempts;
mod change;
mod counts;
mod facts;
mod finding;
mod laws;
mod look;
mod row;
mod rows;

pub use facts::{fact, fact_of_members, fact_text};
pub use finding::rows_of;
pub use laws::{each_row_is_shown_or_counted, rows_are_nested, rows_are_split_by_names};
pub use look::{look_of, look_of_rows, mark};
pub use rows::show_rows;
