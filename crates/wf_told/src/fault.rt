use std::alloc::AllocError;
use wf_drive::DriveFault;
use wf_prepare::{ResubmitFault, TriggerFault};

/// Why nothing is written of runs.
#[derive(Drop)]
pub enum RunsFault {
    /// No run can start.
    Trigger { fault: TriggerFault },
    /// The runs cost more than 2^26 together.
    TooLarge,
    /// Memory ran out.
    Memory,
}

impl From<AllocError> for RunsFault {
    ghost use Rattle.std.specs.Prelude.{◌≡◌};
    ghost use Rattle.wf_told.specs.declared.fault.RunsFault.{RunsFault};

    ghost from_gives = { λ _ e. e ≡ RunsFault.Memory };

    fn from(_error: AllocError) -> RunsFault {
        RunsFault::Memory
    }
}

impl From<TriggerFault> for RunsFault {
    ghost use Rattle.std.specs.Prelude.{◌≡◌};
    ghost use Rattle.wf_told.specs.Seen.{runs_fault};

    ghost from_gives = { λ fault e. e ≡ runs_fault fault };

    fn from(fault: TriggerFault) -> RunsFault {
        match fault {
            TriggerFault::Memory => RunsFault::Memory,
            fault => RunsFault::Trigger { fault },
        }
    }
}

impl From<DriveFault> for RunsFault {
    ghost use Rattle.std.specs.Prelude.{◌≡◌};
    ghost use Rattle.wf_told.specs.Seen.{drive_fault};

    ghost from_gives = { λ fault e. e ≡ drive_fault fault };

    fn from(fault: DriveFault) -> RunsFault {
        match fault {
            DriveFault::TooLarge => RunsFault::TooLarge,
            DriveFault::Memory => RunsFault::Memory,
        }
    }
}

/// Why nothing is written of a resubmission.
#[derive(Drop)]
pub enum ResubmissionFault {
    /// The record can't be resubmitted from the actions that are named.
    Refused { fault: ResubmitFault },
    /// The new record costs more than 2^26.
    TooLarge,
    /// Memory ran out.
    Memory,
}

impl From<AllocError> for ResubmissionFault {
    ghost use Rattle.std.specs.Prelude.{◌≡◌};
    ghost use Rattle.wf_told.specs.declared.fault.ResubmissionFault.{ResubmissionFault};

    ghost from_gives = { λ _ e. e ≡ ResubmissionFault.Memory };

    fn from(_error: AllocError) -> ResubmissionFault {
        ResubmissionFault::Memory
    }
}

impl From<ResubmitFault> for ResubmissionFault {
    ghost use Rattle.std.specs.Prelude.{◌≡◌};
    ghost use Rattle.wf_told.specs.Seen.{refused_fault};

    ghost from_gives = { λ fault e. e ≡ refused_fault fault };

    fn from(fault: ResubmitFault) -> ResubmissionFault {
        match fault {
            ResubmitFault::Memory => ResubmissionFault::Memory,
            fault => ResubmissionFault::Refused { fault },
        }
    }
}

impl From<DriveFault> for ResubmissionFault {
    ghost use Rattle.std.specs.Prelude.{◌≡◌};
    ghost use Rattle.wf_told.specs.Seen.{drive_refused};

    ghost from_gives = { λ fault e. e ≡ drive_refused fault };

    fn from(fault: DriveFault) -> ResubmissionFault {
        match fault {
            DriveFault::TooLarge => ResubmissionFault::TooLarge,
            DriveFault::Memory => ResubmissionFault::Memory,
        }
    }
}
