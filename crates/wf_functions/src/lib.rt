//! What functions give of the values of their arguments, of a moment and of words.
//!
//! `strict_row` is the table of all functions that are functions of values alone (Workflow Definition Language, schema
//! 2016-06-01, reference of the functions in expressions): each function of the crates of functions, `string` and `json`,
//! and `join` with its items as texts. A function that has no row there has no value, whatever its arguments are.
//! `timed_row` has those that ask for the moment beside, `utcNow`, `getFutureTime` and `getPastTime`. `guid` and `rand`
//! make their value of a word: `draw_of` judges their arguments before one is drawn, and `made` says what it becomes.
//! `word_of` is the word of a number at a place. `Collected` is the list of `createArray`, put together as its items come.
//!
//! No call has a condition: a count of arguments that a function doesn't take has a fault too. Whether a value fits isn't
//! tested here.
//!
//! This crate knows no expressions, and draws no words itself.
#![tactic(auto)]

mod collected;
mod draw;
mod rows;
mod timed;
mod word;

pub use collected::Collected;
pub use draw::{Bounds, Draw, GuidForm, draw_of, made};
pub use rows::strict_row;
pub use timed::timed_row;
pub use word::word_of;
