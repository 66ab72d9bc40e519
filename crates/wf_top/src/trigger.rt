// The line that says why no run could start.
ghost use Rattle.std.specs.Prelude.{◌≡◌, ◌++◌, IfOk};
ghost use Rattle.wf_json.specs.FaultText.{fault_text};
ghost use Rattle.wf_top.specs.Trigger.{trigger_line, trigger_words};

use std::alloc::{AllocError, Global};
use wf_files::{with_number, with_text};
use wf_json::fault_text;
use wf_trigger::TriggerFault;
use wf_val::EvalFault;

// A word, and a fault of evaluation behind it.
fn with_fault(alloc: Global, word: &[u8], fault: &EvalFault) -> Result<Vec<u8>, AllocError>
    ensures { IfOk result (λ bytes. bytes.items ≡ word.now ++ fault_text fault.now) }
{
    let mut bytes = word.to_vec(alloc)?;
    bytes.extend_from_slice(fault_text(alloc, fault)?.as_str().as_bytes())?;
    Ok(bytes)
}

fn trigger_words(alloc: Global, fault: TriggerFault) -> Result<Vec<u8>, AllocError>
    ensures { IfOk result (λ bytes. bytes.items ≡ trigger_words fault) }
{
    match fault {
        TriggerFault::NoTrigger => Ok(b"NoTrigger".to_vec(alloc)?),
        TriggerFault::NoParameter { name } => with_text(alloc, b"NoParameter ", &name),
        TriggerFault::ParameterType { name } => with_text(alloc, b"ParameterType ", &name),
        TriggerFault::NotAllowed { name } => with_text(alloc, b"NotAllowed ", &name),
        TriggerFault::Split { fault } => with_fault(alloc, b"Split ", &fault),
        TriggerFault::SplitNotList => Ok(b"SplitNotList".to_vec(alloc)?),
        TriggerFault::SplitTooLong { count } => with_number(alloc, "SplitTooLong ", count),
        TriggerFault::Condition { fault } => with_fault(alloc, b"Condition ", &fault),
        TriggerFault::Memory => Ok(Vec::new(alloc)),
    }
}

/// The line of a fault of the trigger.
#[tactic(auto, unfolding(crate::specs::Trigger::trigger_line))]
pub fn trigger_line(alloc: Global, fault: TriggerFault) -> Result<Vec<u8>, AllocError>
    ensures { IfOk result (λ line. line.items ≡ trigger_line fault) }
{
    let mut line = b"trigger ".to_vec(alloc)?;
    line.extend_from_slice(&trigger_words(alloc, fault)?)?;
    line.push(b'\n')?;
    Ok(line)
}
