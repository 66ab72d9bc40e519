//! Faults in a trace.
ghost use Rattle.std.specs.Prelude.{◌≡◌, ◌++◌, codes, OnOk};
ghost use Rattle.wf_json.specs.FaultText.{fault_text};

use crate::line::add;
use std::alloc::{AllocError, Global};
use wf_json::fault_text;
use wf_val::EvalFault;

// Adds an exclamation mark, and the text of a fault.
#[tactic(auto, using(std::proofs::Common::append_assoc))]
pub(crate) fn add_fault(
    alloc: Global,
    line: &mut Vec<u8>,
    fault: &EvalFault,
) -> Result<(), AllocError>
    ensures { OnOk result (line.new.items ≡ line.old.items ++ (codes "!" ++ fault_text fault.now)) }
{
    let text = fault_text(alloc, fault)?;
    line.push(b'!')?;
    add(line, text.as_str())
}
