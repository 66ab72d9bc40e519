//! Why a run can't be resubmitted.
use std::alloc::AllocError;
use wf_val::{Address, Digest, Name};

/// Why a run can't be resubmitted from the actions that are named.
#[derive(Drop)]
pub enum ResubmitFault {
    /// No action of the definition has the name.
    NoAction { name: Name },
    /// The action stands in a loop; the outermost one.
    InLoop { name: Name, around: Name },
    /// The record has no row of the action, or one that is Skipped.
    NotRun { name: Name },
    /// The record is of the definition with the digest `kept`, and not of the one that is given.
    OtherDefinition { kept: Digest, given: Digest },
    /// The record hasn't the right shape for the definition; the least address at which it fails. `chosen` doesn't ask for it.
    Shape { address: Address },
    /// Memory ran out.
    Memory,
}

impl From<AllocError> for ResubmitFault {
    ghost use Rattle.std.specs.Prelude.{◌≡◌};
    ghost use Rattle.wf_resubmit.specs.declared.fault.ResubmitFault.{ResubmitFault};

    ghost from_gives = { λ _ e. e ≡ ResubmitFault.Memory };

    fn from(_error: AllocError) -> ResubmitFault {
        ResubmitFault::Memory
    }
}
