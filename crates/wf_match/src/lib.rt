//! What a test expects of a record, and where the record differs.
//!
//! An expectation is a value, and so is the record, whose line its caller has read back. `differences` compares two values:
//! an object with the members that are expected of it, whatever else it has, and everything else by equality. Each
//! difference is told with the pointer (RFC 6901) to it, what is expected there, and what is there, if anything.
//!
//! `differences_of_record` compares a record so, and its rows by their addresses, as messages write them: `Pay`, and
//! `Lines/3` for the fourth iteration of an action in a loop. The rows are gone through once, however many are asked.
//!
//! There are no differences exactly where the expectation holds, which is said without pointers (`Holds`,
//! `RecordHolds`); and each difference is one (`each_difference_is_one`).
//!
//! Whether an expectation is of the form that a file of tests may have is for its reader to judge, which finds here what
//! may be named (`is_record_member`, `is_row_member`). Here each value is an expectation.
#![tactic(auto)]

mod difference;
mod laws;
mod named;
mod of_record;
mod of_value;
mod rows;

pub use difference::Difference;
pub use laws::{
    a_value_is_as_itself, addresses_are_written_as_in_messages, each_difference_is_one,
};
pub use named::{is_record_member, is_row_member};
pub use of_record::differences_of_record;
pub use of_value::differences;
