//! Why a run wasn't driven to its end.
use std::alloc::AllocError;

/// Why a run wasn't driven to its end.
#[derive(Debug, Drop)]
pub enum DriveFault {
    /// It costs too much.
    TooLarge,
    /// Memory ran out.
    Memory,
}

impl From<AllocError> for DriveFault {
    ghost use Rattle.std.specs.Prelude.{◌≡◌};
    ghost use Rattle.wf_drive.specs.declared.fault.DriveFault.{DriveFault};

    ghost from_gives = { λ _ e. e ≡ DriveFault.Memory };

    fn from(_error: AllocError) -> DriveFault {
        DriveFault::Memory
    }
}
