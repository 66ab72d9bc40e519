use std::alloc::AllocError;
use wf_val::Text;

/// Why a value is no record.
#[derive(Drop)]
pub enum RecordFault {
    /// It says a form of another number.
    Version { number: i64 },
    /// It isn't of its form. The pointer (RFC 6901) is the least by bytes.
    Form { pointer: Text },
    /// Memory ran out.
    Memory,
}

impl From<AllocError> for RecordFault {
    ghost use Rattle.std.specs.Prelude.{◌≡◌};
    ghost use Rattle.wf_record_form.specs.declared.fault.RecordFault.{RecordFault};

    ghost from_gives = { λ _ e. e ≡ RecordFault.Memory };

    fn from(_error: AllocError) -> RecordFault {
        RecordFault::Memory
    }
}
