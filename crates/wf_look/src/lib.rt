//! What an expression may ask for beside its own text, and what is got and decided without evaluating.
//!
//! An expression of a workflow definition (Workflow Definition Language, schema 2016-06-01, "Expressions") asks for
//! what the run has so far: rows of earlier actions, items and indexes of the loops round it, variables, parameters,
//! the trigger, the moment and words. A `Look` is all that it may ask, so that nothing here knows of runs; `Over` is a
//! look with one more item. Contracts see a look as what it `Told` and the number of words drawn.
//!
//! `named_by` and `told_row` are what the functions give that ask the look, by a literal name or by nothing
//! (`specs/Looked.antt`); `member_of` and `index_of` are accesses to a value, hard or by `?` (`specs/Accesses.antt`). A
//! `Measured` is a text that is put together of parts and measured, of which no more is kept than fits.
//! `stop` says whether `and`, `or` and `coalesce` stop at an argument, and `drawn_by` what `guid` and `rand` make of the
//! next word. `words_are_by_place` promises that words depend on nothing but seed, place and number.
//!
//! This crate evaluates nothing: an expression is only looked at for a name that stands in it as it is.
#![tactic(auto)]

mod accesses;
mod early;
mod laws;
mod look;
mod measured;
mod named;
mod words;

pub use accesses::{index_of, member_of};
pub use early::{at_end, stop};
pub use laws::words_are_by_place;
pub use look::{Look, Over};
pub use measured::{Measured, as_text};
pub use named::{named_by, told_row};
pub use wf_functions::{Collected, strict_row, timed_row, word_of};
pub use words::drawn_by;
