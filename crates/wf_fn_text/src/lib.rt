//! Functions of the expression language on texts (Workflow Definition Language, reference of the functions in
//! expressions): joined, cut, searched, with another case of their letters.
//!
//! Each function is one public call, `f_` and its name in snake case, from the values of its arguments to its value
//! or to the fault that says why it has none. What it gives is its row in `specs/`, unless memory ran out: the types of
//! the arguments are judged from left to right, and the leftmost wrong one is the fault; then come the faults of the
//! function itself, and last `TooBig`. What could be much larger than the arguments is measured before it is made.
//!
//! Places and lengths count characters (Unicode scalar values). The case of letters is that of ASCII letters alone.
//!
//! Laws stand beside the rows, and say in another way what they mean: `pieces_make_the_text_again`,
//! `replacing_by_itself_changes_nothing` and `places_are_where_the_text_stands`.
//!
//! This crate turns no value into a text: what is joined is a text already. How many arguments a function takes is
//! judged before a call; each call asks for a count of its row.
#![tactic(auto)]

mod cases;
mod joining;
mod laws;
mod parts;
mod pieces;
mod places;

pub use cases::{f_to_lower, f_to_upper, f_trim};
pub use joining::f_concat;
pub use laws::{
    pieces_make_the_text_again, places_are_where_the_text_stands,
    replacing_by_itself_changes_nothing,
};
pub use parts::{f_slice, f_substring};
pub use pieces::{f_replace, f_split};
pub use places::{f_ends_with, f_index_of, f_last_index_of, f_starts_with};
