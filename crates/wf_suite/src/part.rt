//! What the values in a file of tests stand for.

/// What a value in a file of tests stands for.
#[derive(Clone, Copy, PartialEq, Eq)]
pub(crate) enum Part {
    /// The whole file.
    Suite,
    FileName,
    Tests,
    Test,
    /// The name of a test.
    Name,
    /// The name of a file of inputs, or inputs.
    Inputs,
    /// How many further schedules.
    Further,
    Number,
    /// A resubmission.
    Again,
    /// The actions that it is from.
    Actions,
    Text,
    /// What is expected of the records: a value for the only one, or a list of such.
    Wanted,
    /// What is expected of one record.
    Record,
    /// What is expected of its rows, by their addresses.
    Rows,
    /// What is expected of one row.
    Row,
    Peak,
    /// Anything at all.
    Any,
}
