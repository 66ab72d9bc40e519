// What the calls of the outside answer where they don't do what they are asked to.
ghost use Rattle.std.specs.Prelude.{◌≡◌};
ghost use Rattle.wf_outside.specs.declared.faults.FileFault.TheVariants.{Memory};

use std::alloc::{AllocError, AllocFailed};

/// Why a file isn't handed over.
#[derive(Clone, Copy, Debug, PartialEq, Eq)]
pub enum FileFault {
    /// The read failed, for any cause but the two others; an absent file is one.
    Failed,
    /// The file has more bytes than the limit of the call.
    TooLong,
    /// Memory ran out.
    Memory,
}

/// A source or a sink failed.
#[derive(Clone, Copy, Debug, PartialEq, Eq)]
pub struct Failed;

impl From<AllocError> for FileFault {
    ghost from_gives = { λ _ e. e ≡ Memory };

    fn from(_: AllocError) -> Self {
        FileFault::Memory
    }
}

impl<T: Drop> From<AllocFailed<T>> for FileFault {
    ghost from_gives = { λ _ e. e ≡ Memory };

    fn from(_: AllocFailed<T>) -> Self {
        FileFault::Memory
    }
}
