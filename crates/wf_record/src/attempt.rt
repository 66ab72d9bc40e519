//! Attempts of connectors, the actions that call another service.
use std::alloc::{AllocError, Global};
use wf_lists::{Series, TryCopy};

/// What an attempt came to.
#[derive(Clone, Copy, Debug, PartialEq, Eq)]
pub enum Try {
    /// It was answered with a status code of HTTP.
    Code(u32),
    NoConnection,
    TimedOut,
    /// The inputs of the run have no answer for it.
    NoAnswer,
    /// Nothing is known of it but that it was made.
    Unknown,
}

/// The attempts of an action, in order.
pub type Tries = Series<Try>;

impl TryCopy for Try {
    fn copy(&self, _alloc: Global) -> Result<Self, AllocError> {
        Ok(*self)
    }
}
