//! Where the reader of a text stands.
use crate::digits::Digits;
use crate::draft::Draft;
use crate::front::Front;
use wf_val::Text;

/// Where the reader of a text stands, with what it read of the innermost part.
#[derive(Drop)]
pub(crate) enum Mode {
    /// At the start of the text.
    Start,
    /// After an `@` at the start.
    Sign {
        sign: char,
    },
    /// In the text, outside every expression.
    Plain {
        front: Front,
    },
    /// There, after an `@` that may begin `@{` or `@@{`.
    OneAt {
        front: Front,
        sign: char,
    },
    /// There, after two of them.
    TwoAt {
        front: Front,
        first: char,
        second: char,
    },
    /// Where an expression begins.
    First,
    /// After the `(` of a call.
    Args {
        name: Text,
    },
    /// After the minus of a number.
    Minus,
    /// In a number.
    Int {
        digits: Digits,
    },
    /// In a quoted text.
    Quoted {
        text: String,
    },
    /// After a quote in a quoted text, which ends the text or is the first of two.
    Quote {
        text: String,
    },
    /// In the name of a function, or a word.
    Name {
        name: String,
    },
    /// After it, and white space.
    Named {
        name: String,
    },
    /// After an expression, which accesses may follow.
    After {
        base: Draft,
    },
    /// After the `?` of an access.
    Soft {
        base: Draft,
    },
    /// After the `.` of an access.
    Dot {
        base: Draft,
        soft: bool,
    },
    /// In the name of a member.
    Member {
        base: Draft,
        soft: bool,
        name: String,
    },
}
