use std::alloc::AllocError;
use wf_val::{EvalFault, Text};

/// Why no run can start.
#[derive(Drop)]
pub enum TriggerFault {
    /// The inputs name a trigger that the definition lacks, or name none where it has several.
    NoTrigger,
    /// A declared parameter has no value.
    NoParameter { name: Text },
    /// A declared parameter has a value of another type.
    ParameterType { name: Text },
    /// A declared parameter has a value that isn't among its `allowedValues`.
    NotAllowed { name: Text },
    /// `splitOn` has no value.
    Split { fault: EvalFault },
    /// The value of `splitOn` is no list.
    SplitNotList,
    /// The value of `splitOn` has more than 100,000 items.
    SplitTooLong { count: u64 },
    /// A condition has no Boolean value, and none before it is false.
    Condition { fault: EvalFault },
    /// Memory ran out.
    Memory,
}

impl From<AllocError> for TriggerFault {
    ghost use Rattle.std.specs.Prelude.{◌≡◌};
    ghost use Rattle.wf_trigger.specs.declared.fault.TriggerFault.{TriggerFault};

    ghost from_gives = { λ _ e. e ≡ TriggerFault.Memory };

    fn from(_error: AllocError) -> TriggerFault {
        TriggerFault::Memory
    }
}
