//! How a run ends, and what it gives out.
ghost use Rattle.std.specs.Prelude.{◌≡◌, IfOk};
ghost use Rattle.wf_data.specs.Simple.{run_status_of};
ghost use Rattle.wf_catalog.specs.Ending.{ending, outputs_error, run_status};
ghost use Rattle.wf_catalog.specs.Record.{ended_by, error_given};
ghost use Rattle.wf_val.specs.Seen.{tree};
ghost use Rattle.wf_ended.specs.LeftSeen.{ending_tree};

use std::alloc::{AllocError, Global};
use wf_data::run_status as run_status_in;
use wf_json::fault_text;
use wf_record::{RunStatus, Status};
use wf_val::{EvalFault, Fields, Text, Val};

/// How a run ends, and what it gives out.
#[derive(Drop)]
pub struct Ending {
    pub status: RunStatus,
    pub error: Val,
    pub outputs: Val,
}

// How a run ends whose graph ends so, which Failed or Succeeded.
fn run_status(status: Status) -> RunStatus
    ensures { result ≡ run_status status }
{
    match status {
        Status::Failed => RunStatus::Failed,
        _ => RunStatus::Succeeded,
    }
}

fn outputs_error(alloc: Global, fault: &EvalFault) -> Result<Val, AllocError>
    ensures { IfOk result (λ v. tree v ≡ outputs_error fault.now) }
{
    let mut fields = Fields::new(alloc);
    let code = Text::of(alloc, "InvalidTemplate")?;
    fields.put(Text::of(alloc, "code")?, Val::Text(code))?;
    let message = fault_text(alloc, fault)?;
    fields.put(Text::of(alloc, "message")?, Val::Text(message))?;
    Ok(Val::Obj(fields))
}

/// How a run ends whose graph ended with this status, and whose section `outputs` came to this.
pub(crate) fn by_graph(
    alloc: Global,
    status: Status,
    outputs: Result<Fields, EvalFault>,
) -> Result<Ending, AllocError>
    ensures { IfOk result (λ e. ending_tree e ≡ ending status outputs) }
{
    match outputs {
        Ok(values) => Ok(Ending {
            status: run_status(status),
            error: Val::Null,
            outputs: Val::Obj(values),
        }),
        Err(fault) => Ok(Ending {
            status: RunStatus::Failed,
            error: outputs_error(alloc, &fault)?,
            outputs: Val::Null,
        }),
    }
}

// The error that the inputs of a Terminate give its run, which Failed if there is one.
fn error_given(alloc: Global, status: RunStatus, inputs: &Val) -> Result<Val, AllocError>
    ensures { IfOk result (λ v. tree v ≡ error_given status (tree inputs.now)) }
{
    match status {
        RunStatus::Failed => match inputs.member("runError") {
            Some(error) => error.copy(alloc),
            None => Ok(Val::Null),
        },
        _ => Ok(Val::Null),
    }
}

/// How a run ends in which a Terminate Succeeded with these inputs.
pub(crate) fn by_terminate(alloc: Global, inputs: &Val) -> Result<Ending, AllocError>
    ensures { IfOk result (λ e. ending_tree e ≡ ended_by (run_status_of (tree inputs.now)) (tree inputs.now)) }
{
    match run_status_in(inputs) {
        Some(status) => Ok(Ending {
            status,
            error: error_given(alloc, status, inputs)?,
            outputs: Val::Obj(Fields::new(alloc)),
        }),
        None => Ok(Ending {
            status: RunStatus::Failed,
            error: Val::Null,
            outputs: Val::Obj(Fields::new(alloc)),
        }),
    }
}
