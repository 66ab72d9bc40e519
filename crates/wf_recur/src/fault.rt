use std::alloc::AllocError;
use wf_val::Text;

/// Why a trigger has no recurrence whose moments can be told.
#[derive(Drop)]
pub enum RecurrenceFault {
    /// Its type isn't Recurrence.
    NotRecurrence,
    /// Its recurrence isn't of the form. The pointer (RFC 6901), from the trigger on, is the least by bytes.
    Form { pointer: Text },
    /// It counts in this zone, which isn't UTC.
    Zone { name: Text },
    /// Memory ran out.
    Memory,
}

impl From<AllocError> for RecurrenceFault {
    ghost use Rattle.std.specs.Prelude.{◌≡◌};
    ghost use Rattle.wf_recur.specs.declared.fault.RecurrenceFault.{RecurrenceFault};

    ghost from_gives = { λ _ e. e ≡ RecurrenceFault.Memory };

    fn from(_error: AllocError) -> RecurrenceFault {
        RecurrenceFault::Memory
    }
}
