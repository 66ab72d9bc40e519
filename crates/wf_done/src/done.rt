//! What an action has come to, and the view that expressions have of it.
ghost use Rattle.std.specs.Prelude.{◌≡◌, IfOk, OnOk};
ghost use Rattle.wf_val.specs.Get.{name_of};
ghost use Rattle.wf_val.specs.NameOrder.{put_named};
ghost use Rattle.wf_val.specs.Seen.{tree};
ghost use Rattle.wf_val.specs.ValueTree.{text};
ghost use Rattle.wf_variables.specs.MadeSeen.{made_tree};
ghost use Rattle.wf_done.specs.Done.{faulted, mismatched, skipped, succeeded, view};
ghost use Rattle.wf_done.specs.DoneSeen.{done_tree};

use std::alloc::{AllocError, Global};
use wf_connect::Status;
use wf_schema::{fault_text, quoted};
use wf_val::{EvalFault, Fields, Name, Text, Val};
use wf_variables::Made;

/// What an action has come to: all of its row but its address, its tracked properties and its attempts.
#[derive(Drop)]
pub struct Done {
    pub status: Status,
    pub code: Text,
    pub inputs: Val,
    pub outputs: Val,
    pub error: Val,
}

/// It made this.
pub(crate) fn succeeded(alloc: Global, made: Made) -> Result<Done, AllocError>
    ensures { IfOk result (λ d. done_tree d ≡ succeeded (made_tree made)) }
{
    Ok(Done {
        status: Status::Succeeded,
        code: Text::of(alloc, "OK")?,
        inputs: made.inputs,
        outputs: made.outputs,
        error: Val::Null,
    })
}

/// Something that it asked for has no value, or what it was to keep doesn't fit: it keeps nothing.
pub(crate) fn faulted(alloc: Global, fault: &EvalFault) -> Result<Done, AllocError>
    ensures { IfOk result (λ d. done_tree d ≡ faulted fault.now) }
{
    Ok(Done {
        status: Status::Failed,
        code: Text::of(alloc, "InvalidTemplate")?,
        inputs: Val::Null,
        outputs: Val::Null,
        error: Val::Text(fault_text(alloc, fault)?),
    })
}

/// What it was to give out isn't as its schema asks, at this place. It keeps its inputs.
pub fn mismatched(alloc: Global, inputs: Val, pointer: &Text) -> Result<Done, AllocError>
    ensures { IfOk result (λ d. done_tree d ≡ mismatched (tree inputs) pointer.now) }
{
    let place = quoted(alloc, pointer.as_str())?;
    let error = format!(in alloc; "Schema {}", place.as_str())?;
    Ok(Done {
        status: Status::Failed,
        code: Text::of(alloc, "SchemaMismatch")?,
        inputs,
        outputs: Val::Null,
        error: Val::Text(Text::from_string(error)),
    })
}

/// It didn't run.
pub fn skipped(alloc: Global) -> Result<Done, AllocError>
    ensures { IfOk result (λ d. done_tree d ≡ skipped) }
{
    Ok(Done {
        status: Status::Skipped,
        code: Text::of(alloc, "ActionSkipped")?,
        inputs: Val::Null,
        outputs: Val::Null,
        error: Val::Null,
    })
}

/// What expressions see of the action of this name: what `actions` gives of it, and `action` as it ends.
pub fn view(alloc: Global, name: &Name, done: &Done) -> Result<Val, AllocError>
    ensures { IfOk result (λ v. tree v ≡ view name.now (done_tree done.now)) }
{
    let mut fields = Fields::new(alloc);
    put_text(alloc, &mut fields, "code", done.code.as_str())?;
    put_copy(alloc, &mut fields, "error", &done.error)?;
    put_copy(alloc, &mut fields, "inputs", &done.inputs)?;
    put_text(alloc, &mut fields, "name", name.as_str())?;
    put_copy(alloc, &mut fields, "outputs", &done.outputs)?;
    put_text(alloc, &mut fields, "status", done.status.name())?;
    Ok(Val::Obj(fields))
}

// Each of the two owns one thing alone while it may fail, so that `view` has few ways out.
fn put_text(alloc: Global, fields: &mut Fields, name: &str, value: &str) -> Result<(), AllocError>
    ensures { OnOk result (fields.new ≡ put_named name_of (name.now, text value.now) fields.old) }
{
    fields.put(Text::of(alloc, name)?, Val::Text(Text::of(alloc, value)?))
}

fn put_copy(alloc: Global, fields: &mut Fields, name: &str, value: &Val) -> Result<(), AllocError>
    ensures { OnOk result (fields.new ≡ put_named name_of (name.now, tree value.now) fields.old) }
{
    fields.put(Text::of(alloc, name)?, value.copy(alloc)?)
}
