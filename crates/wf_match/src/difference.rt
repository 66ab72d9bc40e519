//! Differences.

use wf_val::{Text, Val};

/// A place at which an expectation isn't met.
#[derive(Drop)]
pub struct Difference {
    /// The pointer to the place (RFC 6901).
    pub pointer: Text,
    /// What is expected there.
    pub expected: Val,
    /// What is there; none where nothing is.
    pub found: Option<Val>,
}
