//! How the one run went that starts with inputs.
ghost use Rattle.std.specs.Prelude.{◌≡◌, ◌≢◌, false, IfErr, IfOk};
ghost use Rattle.wf_run.specs.Made.{IsTooMuch};
ghost use Rattle.wf_run.specs.Runs.{IsTheRun, IsWithin, cost_of, meant_cost};
ghost use Rattle.wf_run.specs.Seen.{told};
ghost use Rattle.wf_told.specs.Measured.{Measures};
ghost use Rattle.wf_told.specs.declared.fault.RunsFault.{RunsFault};
ghost use Rattle.wf_printed.specs.Measured.{IsTheMeasure, OneStarts};
ghost use Rattle.wf_printed.specs.Written.{NoRunsAreTold};

use crate::runs::ended;
use std::alloc::Global;
use wf_answers::Inputs;
use wf_planned::plan;
use wf_run::{Checked, Ended, Ends, Lists, Ready, Runnable};
use wf_told::{Measure, RunsFault};
use wf_trigger::{Start, runs};
use wf_val::Schedule;

/// How the one run went that the inputs start, under the schedule from its first number on; or why there is none.
pub(crate) fn measure(
    alloc: Global,
    checked: &Checked,
    inputs: &Inputs,
    schedule: &Schedule,
) -> Result<Measure, RunsFault>
    requires { OneStarts checked.now inputs.now }
    ensures measured { IfOk result (λ m. IsTheMeasure checked.now inputs.now schedule.now m) }
    ensures fault { IfErr result (λ f. f ≢ RunsFault.Memory → NoRunsAreTold checked.now inputs.now f) }
{
    let starts = runs(
        alloc,
        &checked.def.parameters,
        &checked.def.given,
        &checked.def.triggers,
        inputs,
    )?;
    let start = starts.start(alloc, 0)?;
    let ended = made_ready(alloc, checked, inputs, schedule, start)?;
    Ok(figures(&ended))
}

// What is told of a run but for its record and its events.
fn figures(ended: &Ended) -> Measure
    ensures { Measures (told ended.now) result }
{
    Measure {
        rows: ended.finished.rows.as_slice().len() as u64,
        status: ended.finished.status,
        steps: ended.steps,
        peak: ended.peak,
    }
}

// The run of a start, for which the definition is made ready.
fn made_ready(
    alloc: Global,
    checked: &Checked,
    inputs: &Inputs,
    schedule: &Schedule,
    start: Start,
) -> Result<Ended, RunsFault>
    ensures told { IfOk result (λ e. IsTheRun checked.now start inputs.now schedule.now false (told e)) }
    ensures small { IfOk result (λ e. IsWithin 0 (cost_of e.finished)) }
    ensures fault { IfErr result (λ f. f ≢ RunsFault.Memory → f ≡ RunsFault.TooLarge) }
    ensures too_large { IfErr result (λ f. f ≢ RunsFault.Memory → IsTooMuch 0 (meant_cost checked.now start inputs.now)) }
{
    let ready = Ready::of(alloc, checked)?;
    planned(alloc, &ready, inputs, schedule, start)
}

// The same, once it is ready but for its ends and its plan.
fn planned(
    alloc: Global,
    ready: &Ready,
    inputs: &Inputs,
    schedule: &Schedule,
    start: Start,
) -> Result<Ended, RunsFault>
    ensures told { IfOk result (λ e. IsTheRun ready.now.checked.now start inputs.now schedule.now false (told e)) }
    ensures small { IfOk result (λ e. IsWithin 0 (cost_of e.finished)) }
    ensures fault { IfErr result (λ f. f ≢ RunsFault.Memory → f ≡ RunsFault.TooLarge) }
    ensures too_large { IfErr result (λ f. f ≢ RunsFault.Memory
        → IsTooMuch 0 (meant_cost ready.now.checked.now start inputs.now)) }
{
    let ends = Ends::of(alloc, ready.checked, &ready.places)?;
    let plan = plan(alloc, &ready.checked.def)?;
    let runnable = Runnable::of(ready, &ends, &plan);
    ended(
        alloc,
        &runnable,
        inputs,
        schedule,
        false,
        start,
        0,
        &mut Lists::new(alloc),
    )
}
