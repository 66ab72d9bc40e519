//! The outside of the engine: where bytes come from, and where they go.
//!
//! The engine reaches nothing outside itself but through three traits. `Files` reads a whole file by its name,
//! within a limit. `Source` gives bytes that come in, as from standard input. `Sink` takes bytes that go out, as
//! to standard output. Whatever stands behind a trait may fail at any call. So each trait keeps a record of its
//! failures, which only a failing call lengthens: a caller that ends by a fault can show whose fault it was.
//!
//! `MemFiles`, `MemSource` and `MemSink` stand for the outside in tests. They tell what they hold, so contracts
//! over them speak of the bytes, and a call of theirs can be planned to fail. `DiskFiles`, `StdSource` and
//! `StdSink` are thin adapters over the real system. Of these nothing is told, and what the system does behind
//! them is trusted, not proved.
//!
//! This crate reads and judges no file's content, and it writes no file: the only bytes that go out are a sink's.
//! All sizes and limits are in bytes.
#![tactic(auto)]

mod calls;
mod disk;
mod faults;
mod mem_files;
mod mem_sink;
mod mem_source;
mod standard;
mod traits;

pub use disk::DiskFiles;
pub use faults::{Failed, FileFault};
pub use mem_files::MemFiles;
pub use mem_sink::MemSink;
pub use mem_source::MemSource;
pub use standard::{StdSink, StdSource};
pub use traits::{Files, Sink, Source};
