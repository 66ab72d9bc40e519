//! A character of a text.
use crate::kind::Kind;

/// A character of a text, what it is to the grammar, and how many characters stand before it.
#[derive(Clone, Copy)]
pub(crate) struct Character {
    pub value: char,
    pub kind: Kind,
    pub at: u64,
}
