//! Faults of evaluation as they are printed.
ghost use Rattle.std.specs.Prelude.{◌≡◌, IfOk};
ghost use Rattle.wf_json.specs.FaultText.{fault_text};

use crate::writing::quoted;
use std::alloc::{AllocError, Global};
use wf_val::{EvalFault, Text};

/// A fault of evaluation as it is printed: its name and its fields, with one space between, and a name as a JSON text.
pub fn fault_text(alloc: Global, fault: &EvalFault) -> Result<Text, AllocError>
    ensures { IfOk result (λ t. t ≡ fault_text fault.now) }
{
    let text = match fault {
        EvalFault::WrongType { function, place } => format!(in alloc;
            "WrongType {} {}",
            function.name(),
            place
        )?,
        EvalFault::Range { function } => format!(in alloc; "Range {}", function.name())?,
        EvalFault::NoMember { name } => format!(in alloc;
            "NoMember {}",
            quoted(alloc, name.as_str())?.as_str()
        )?,
        EvalFault::BadText { function } => format!(in alloc; "BadText {}", function.name())?,
        EvalFault::TooBig { depth, weight } => format!(in alloc; "TooBig {} {}", depth, weight)?,
        EvalFault::NoValue { name } => format!(in alloc;
            "NoValue {}",
            quoted(alloc, name.as_str())?.as_str()
        )?,
        EvalFault::Memory => String::from_str(alloc, "Memory")?,
    };
    Ok(Text::from_string(text))
}
