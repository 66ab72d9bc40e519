use std::alloc::AllocError;
use wf_val::Text;

/// Why a value is no file of tests.
#[derive(Drop)]
pub enum SuiteFault {
    /// It isn't of the form. The pointer (RFC 6901) is the least by bytes.
    Form { pointer: Text },
    /// Two tests have this name.
    Twice { name: Text },
    /// A resubmission is of a test of this name, and no test before it has it and is expected to make a record.
    NoTest { name: Text },
    /// Memory ran out.
    Memory,
}

impl From<AllocError> for SuiteFault {
    ghost use Rattle.std.specs.Prelude.{◌≡◌};
    ghost use Rattle.wf_suite.specs.declared.fault.SuiteFault.{SuiteFault};

    ghost from_gives = { λ _ e. e ≡ SuiteFault.Memory };

    fn from(_error: AllocError) -> SuiteFault {
        SuiteFault::Memory
    }
}
