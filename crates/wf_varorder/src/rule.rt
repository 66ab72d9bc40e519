//! The rules on two actions.

/// A rule on two actions.
#[derive(Clone, Copy, PartialEq, Eq, Debug)]
pub enum PairRule {
    /// V13: accesses of a variable, one of them a writer, are in one order or exclude each other.
    Variables,
    /// V15: each other action is before or after a Terminate, excludes it, or contains it.
    Terminates,
    /// V16: Responses are in one order or exclude each other.
    Responses,
}
