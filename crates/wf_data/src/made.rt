//! What an action keeps where it has no fault.
ghost use Rattle.std.specs.Prelude.{◌≡◌, IfOk};
ghost use Rattle.wf_val.specs.Seen.{tree};
ghost use Rattle.wf_data.specs.Made.{fitting, one_member};
ghost use Rattle.wf_data.specs.MadeSeen.{made_seen};

use std::alloc::{AllocError, Global};
use wf_val::{EvalFault, Fields, Text, Val, bounded};

/// What an action takes in and gives out.
#[derive(Drop)]
pub struct Made {
    pub inputs: Val,
    pub outputs: Val,
}

/// The inputs and outputs, where both fit; the inputs are measured first.
pub fn fitting(inputs: Val, outputs: Val) -> Result<Made, EvalFault>
    ensures { made_seen result ≡ fitting (tree inputs) (tree outputs) }
{
    let inputs = bounded(inputs)?;
    let outputs = bounded(outputs)?;
    Ok(Made { inputs, outputs })
}

/// An object of one member.
pub fn one_member(alloc: Global, name: &str, value: Val) -> Result<Val, AllocError>
    ensures { IfOk result (λ v. tree v ≡ one_member name.now (tree value)) }
{
    let mut fields = Fields::new(alloc);
    fields.put(Text::of(alloc, name)?, value)?;
    Ok(Val::Obj(fields))
}
