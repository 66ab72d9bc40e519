//! Why no test runs.
use std::alloc::{AllocError, AllocFailed};
use wf_val::Text;

/// Why no test runs.
#[derive(Drop)]
pub enum Stop {
    /// The file of this name couldn't be read.
    CannotRead(Text),
    /// The file of this name has more bytes than it may have.
    TooLong(Text),
    /// The file of this name is no file of tests, for what is said in these words.
    NoTests { file: Text, words: Text },
    Memory,
}

impl From<AllocError> for Stop {
    ghost use Rattle.std.specs.Prelude.{◌≡◌};
    ghost use Rattle.wf_tests.specs.declared.stop.Stop.{Stop};

    ghost from_gives = { λ _ e. e ≡ Stop.Memory };

    fn from(_: AllocError) -> Self {
        Stop::Memory
    }
}

impl<T: Drop> From<AllocFailed<T>> for Stop {
    ghost use Rattle.std.specs.Prelude.{◌≡◌};
    ghost use Rattle.wf_tests.specs.declared.stop.Stop.{Stop};

    ghost from_gives = { λ _ e. e ≡ Stop.Memory };

    fn from(_: AllocFailed<T>) -> Self {
        Stop::Memory
    }
}
