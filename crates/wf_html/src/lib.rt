//! HTML as it is written: tags that open and close, and texts between them.
//!
//! A page is a list of pieces (`specs/Html.antt`): a tag of a fixed list opens, it closes, or something is said. The text of a tag is a
//! literal of this crate, with all of its attributes: there is no attribute, and no tag, that takes a text from outside, and none for
//! script. What is said is escaped, whatever it is: of an escaped text neither `<`, `>`, `"` nor `'` is left, and `&` only at the head of
//! one of five references; a browser that reads the references has the text again (`what_is_said_is_read_back`).
//! `specs/Nested.antt` says when pieces close what they open, in order.
//!
//! Pieces aren't kept: each call writes one behind a buffer, so a page takes the memory of its text.
#![tactic(auto)]

mod laws;
mod style;
mod tag;
mod writing;

pub use laws::{
    a_page_is_its_pieces, a_page_opens_with_its_policy, no_page_runs_anything, tags_stand_still,
    what_is_said_is_read_back,
};
pub use tag::{Look, Tag};
pub use writing::{close, open, say, say_bytes, say_in};
