//! What may happen next in a run, and what an engine edits in what it keeps as an action gets its row.
//!
//! An engine keeps counts of what is waited for and the ready set, so that a step looks at no more than it changes. Here stand what may
//! happen next to an idle action and to an open container, by those counts (`idle_kind`, `open_kind`), the ready set at one instance and
//! at several (`set_event`, `look_at`, `look_at_each`, `look_at_open`), and the last writers of variables (`writers`, `put_writers`). For
//! what gives an action its row: the graph round it (`round_of`), the counts (`count_row`) and the looks (`settle`); and what gets rows
//! with an action that doesn't run (`block_rows`).
#![tactic(auto)]

mod container;
mod counted;
mod edits;
mod event;
mod laws;
mod look;
mod ready;
mod round;
mod settled;
mod skipped;
mod store;
mod until;

pub use container::{last_iteration, look_at_open};
pub use counted::count_row;
pub use edits::{RowEdits, count_and_settle, make_room, row_edits};
pub use event::{idle_kind, open_kind, tested_kind};
pub use laws::{rows_are_placed, shapes_tell_events};
pub use look::{instances, look_at, look_at_each};
pub use ready::{set_event, take_event};
pub use round::{Round, round_of};
pub use settled::{last_of, settle};
pub use skipped::block_rows;
pub use store::{put_writers, writers};
pub use until::{count_of, iterations, last_test, next_index, with_test};
pub use wf_tables::{
    Acts, CountAt, Entry, EventAt, EventKind, Instance, Known, LeafAt, OpenAt, Opens, Plan, RowAt,
    Rows, Shape, Store, Wait, WriterAt, enter, entered, needs_of, put_rows, set_count, set_counts,
    skipped_rows,
};
