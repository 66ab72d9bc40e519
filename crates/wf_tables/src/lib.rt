//! The lists of a state of the event machine, as tables of the laws of order, and what edits make of them.
//!
//! Each list is kept in the order of instances and has room made before (`wf_room`), so that the edits of a step can't fail. A function
//! here edits one list, or two that change together: counts of what is waited for and of what a graph lacks (`specs/Counts`), rows that
//! are put together (`specs/Blocks`). Its contract says the new table by the old one, address by address.
#![tactic(auto)]

mod blocks;
mod counts;
mod entries;
mod graphs;

pub use blocks::{put_rows, skipped_rows};
pub use counts::{lower, lower_one, set_count, set_counts};
pub use entries::{CountAt, EventAt, EventKind, LeafAt};
pub use graphs::{enter, entered, finish_iteration, lack_less, needs_of};
pub use wf_plan::{
    Acts, Branch, Entry, Instance, Known, OpenAt, Opens, Plan, RowAt, Rows, Shape, Statuses, Store,
    Wait, WriterAt,
};
