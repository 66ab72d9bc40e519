//! The text of a report of tests.
//!
//! A report is a list of files' results, each a list of outcomes: the name of a test, and why it failed, if it did. It is
//! written in the Test Anything Protocol (`tap_text`), where each outcome has one line that begins with `ok` or `not ok`,
//! and each failure one comment behind it; or as XML in the form named after JUnit (`junit_text`).
//!
//! Whatever names and values hold, a line stays one: control characters in a name become spaces, and pointers and values
//! are written as JSON, which escapes them. In XML what begins a tag or an entity is escaped, and characters that XML
//! can't write become U+FFFD.
#![tactic(auto)]

mod escapes;
mod junit;
mod laws;
mod lines;
mod report;
mod tap;

pub use junit::junit_text;
pub use laws::{a_text_in_xml_is_text, each_outcome_has_one_line, lines_are_whole};
pub use report::{Failure, Outcome, Results};
pub use tap::tap_text;
