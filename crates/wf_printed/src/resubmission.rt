//! The resubmission of a record.
ghost use Rattle.std.specs.Prelude.{◌≡◌, ◌≢◌, IfErr, IfOk};
ghost use Rattle.wf_run.specs.Made.{IsTooMuch};
ghost use Rattle.wf_run.specs.Runs.{IsTheResubmission, IsWithin, MayBeResumed, cost_of, resumed_cost};
ghost use Rattle.wf_run.specs.Seen.{told};
ghost use Rattle.wf_printed.specs.Resubmission.{IsNotTold, IsTold};
ghost use Rattle.wf_told.specs.declared.fault.ResubmissionFault.{ResubmissionFault};

use crate::written::with_run;
use std::alloc::Global;
use wf_answers::Inputs;
use wf_planned::plan;
use wf_record::{Digits, Record};
use wf_run::{Checked, Ended, Ends, Ready, Runnable, resubmit};
use wf_told::{ResubmissionFault, prepare};
use wf_val::{Name, Schedule};

/// The text of the resubmission of a record from the actions of these names, with new inputs, under the schedule: the new record's line and
/// a summary line; or why there is none.
pub(crate) fn resubmission_text(
    alloc: Global,
    checked: &Checked,
    log: &Record,
    names: &[Name],
    inputs: &Inputs,
    schedule: &Schedule,
) -> Result<Vec<u8>, ResubmissionFault>
    ensures text { IfOk result (λ text. IsTold checked.now log.now names.now inputs.now schedule.now text.items) }
    ensures fault { IfErr result (λ f. f ≢ ResubmissionFault.Memory → IsNotTold checked.now log.now names.now inputs.now f) }
{
    let from = prepare(alloc, checked, log, names)?;
    let ended = made_ready(alloc, checked, log, &from, inputs, schedule)?;
    let text = with_run(alloc, Vec::new(alloc), &mut Digits::new(), &ended)?;
    Ok(text)
}

// The resubmission from the actions of these numbers, for which the definition is made ready.
fn made_ready(
    alloc: Global,
    checked: &Checked,
    log: &Record,
    from: &Schedule,
    inputs: &Inputs,
    schedule: &Schedule,
) -> Result<Ended, ResubmissionFault>
    requires { MayBeResumed checked.now log.now from.now }
    ensures told { IfOk result (λ e. IsTheResubmission checked.now log.now inputs.now from.now schedule.now (told e)) }
    ensures small { IfOk result (λ e. IsWithin 0 (cost_of e.finished)) }
    ensures fault { IfErr result (λ f. f ≢ ResubmissionFault.Memory → f ≡ ResubmissionFault.TooLarge) }
    ensures too_large { IfErr result (λ f. f ≢ ResubmissionFault.Memory
        → IsTooMuch 0 (resumed_cost checked.now log.now inputs.now from.now)) }
{
    let ready = Ready::of(alloc, checked)?;
    planned(alloc, &ready, log, from, inputs, schedule)
}

// The same, once it is ready but for its ends and its plan.
fn planned(
    alloc: Global,
    ready: &Ready,
    log: &Record,
    from: &Schedule,
    inputs: &Inputs,
    schedule: &Schedule,
) -> Result<Ended, ResubmissionFault>
    requires { MayBeResumed ready.now.checked.now log.now from.now }
    ensures told { IfOk result (λ e. IsTheResubmission ready.now.checked.now log.now inputs.now from.now schedule.now (told e)) }
    ensures small { IfOk result (λ e. IsWithin 0 (cost_of e.finished)) }
    ensures fault { IfErr result (λ f. f ≢ ResubmissionFault.Memory → f ≡ ResubmissionFault.TooLarge) }
    ensures too_large { IfErr result (λ f. f ≢ ResubmissionFault.Memory
        → IsTooMuch 0 (resumed_cost ready.now.checked.now log.now inputs.now from.now)) }
{
    let ends = Ends::of(alloc, ready.checked, &ready.places)?;
    let plan = plan(alloc, &ready.checked.def)?;
    let runnable = Runnable::of(ready, &ends, &plan);
    resubmitted(alloc, &runnable, log, from, inputs, schedule)
}

// And once it is ready.
fn resubmitted(
    alloc: Global,
    runnable: &Runnable,
    log: &Record,
    from: &Schedule,
    inputs: &Inputs,
    schedule: &Schedule,
) -> Result<Ended, ResubmissionFault>
    requires { MayBeResumed runnable.now.checked.now log.now from.now }
    ensures told { IfOk result (λ e. IsTheResubmission runnable.now.checked.now log.now inputs.now from.now schedule.now (told e)) }
    ensures small { IfOk result (λ e. IsWithin 0 (cost_of e.finished)) }
    ensures fault { IfErr result (λ f. f ≢ ResubmissionFault.Memory → f ≡ ResubmissionFault.TooLarge) }
    ensures too_large { IfErr result (λ f. f ≢ ResubmissionFault.Memory
        → IsTooMuch 0 (resumed_cost runnable.now.checked.now log.now inputs.now from.now)) }
{
    let ended = resubmit(alloc, runnable, log, from, inputs, schedule)?;
    Ok(ended)
}
