//! Why an expression has no value.
ghost use Rattle.std.specs.Prelude.{◌≡◌};
ghost use Rattle.wf_val.specs.Arguments.{is_memory};
ghost use Rattle.wf_val.specs.declared.fault.EvalFault.TheVariants.{Memory};

use crate::function::Fun;
use crate::text::Text;
use std::alloc::{AllocError, AllocFailed};

/// Why an expression, a function or a template has no value. Where a call has several faults, its contract says
/// which one it answers.
#[derive(Debug, Drop)]
pub enum EvalFault {
    /// The argument at this place, counted from 1, isn't of a type that the function takes there.
    WrongType { function: Fun, place: u32 },
    /// An argument is of the right type and outside the function's range.
    Range { function: Fun },
    /// A value has no member or item of this name.
    NoMember { name: Text },
    /// A text isn't of the form that the function reads.
    BadText { function: Fun },
    /// The value would not fit. A depth or weight past its type is cut to the type's greatest.
    TooBig { depth: u32, weight: u64 },
    /// What is named here has no value where the expression stands.
    NoValue { name: Text },
    /// No memory was left.
    Memory,
}

impl EvalFault {
    /// Whether memory ran out. No function's row names this fault.
    pub fn is_memory(&self) -> bool
        ensures { result ≡ is_memory self.now }
    {
        match self {
            EvalFault::Memory => true,
            _ => false,
        }
    }
}

impl From<AllocError> for EvalFault {
    ghost from_gives = { λ _ e. e ≡ Memory };

    fn from(_: AllocError) -> Self {
        EvalFault::Memory
    }
}

impl<T: Drop> From<AllocFailed<T>> for EvalFault {
    ghost from_gives = { λ _ e. e ≡ Memory };

    fn from(_: AllocFailed<T>) -> Self {
        EvalFault::Memory
    }
}
