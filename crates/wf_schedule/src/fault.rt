//! Why a file is no schedule.
use std::alloc::AllocError;

/// Why a file is no schedule, or couldn't be read.
#[derive(Debug, Drop)]
pub enum ScheduleFault {
    /// A line isn't a number in one to ten decimal digits, at most 4,294,967,295: the first such line, counted from 1.
    Line { number: u64 },
    /// Memory ran out.
    Memory,
}

impl From<AllocError> for ScheduleFault {
    ghost use Rattle.std.specs.Prelude.{◌≡◌};
    ghost use Rattle.wf_schedule.specs.declared.fault.ScheduleFault.{ScheduleFault};

    ghost from_gives = { λ _ e. e ≡ ScheduleFault.Memory };

    fn from(_error: AllocError) -> ScheduleFault {
        ScheduleFault::Memory
    }
}
