use std::alloc::AllocError;

/// Why a history doesn't give what is asked of it. Lines are counted from 1.
#[derive(Drop)]
pub enum HistoryFault {
    /// A line is no record; the first.
    Line { number: u64 },
    /// No record is of the run.
    NoRun,
    /// More than one is; the first two lines.
    Twice { first: u64, second: u64 },
    /// Memory ran out.
    Memory,
}

impl From<AllocError> for HistoryFault {
    ghost use Rattle.std.specs.Prelude.{◌≡◌};
    ghost use Rattle.wf_history.specs.declared.fault.HistoryFault.{HistoryFault};

    ghost from_gives = { λ _ e. e ≡ HistoryFault.Memory };

    fn from(_error: AllocError) -> HistoryFault {
        HistoryFault::Memory
    }
}
