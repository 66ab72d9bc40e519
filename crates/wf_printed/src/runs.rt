//! The runs of a definition that start with inputs.
ghost use Rattle.std.specs.Prelude.{◌≡◌, ◌≢◌, ◌≤◌, IfErr, IfOk};
ghost use Rattle.wf_run.specs.Made.{IsTooMuch};
ghost use Rattle.wf_run.specs.Runs.{IsTheRun, IsWithin, cost_of, meant_cost};
ghost use Rattle.wf_run.specs.Seen.{told};
ghost use Rattle.wf_told.specs.declared.fault.RunsFault.{RunsFault};
ghost use Rattle.wf_printed.specs.Written.{CostTooMuch, NoRunsAreTold, NoStartsAreTold, RunsAreTold, StartsAreTold, StartsAreWritten};

use crate::written::Written;
use std::alloc::Global;
use wf_answers::Inputs;
use wf_planned::plan;
use wf_record::Digits;
use wf_run::{Checked, Ended, Ends, Lists, Ready, Runnable, cost_too_much, run};
use wf_told::RunsFault;
use wf_trigger::{Start, Starts, runs};
use wf_val::Schedule;

/// The text of all runs that start, each under the schedule from its first number on: the lines of its events where it is traced, its
/// record's line and a summary line; or why there is none. Runs are made and written one after the other, and of each its text alone is
/// kept. Once they cost too much, no further one is made.
pub(crate) fn runs_text(
    alloc: Global,
    checked: &Checked,
    inputs: &Inputs,
    schedule: &Schedule,
    traced: bool,
) -> Result<Vec<u8>, RunsFault>
    ensures text { IfOk result (λ text. RunsAreTold checked.now inputs.now schedule.now traced text.items) }
    ensures fault { IfErr result (λ f. f ≢ RunsFault.Memory
        → NoRunsAreTold checked.now inputs.now f) }
{
    let starts = runs(
        alloc,
        &checked.def.parameters,
        &checked.def.given,
        &checked.def.triggers,
        inputs,
    )?;
    text_of(alloc, checked, inputs, schedule, traced, &starts)
}

// The text of the runs of these starts.
fn text_of(
    alloc: Global,
    checked: &Checked,
    inputs: &Inputs,
    schedule: &Schedule,
    traced: bool,
    starts: &Starts,
) -> Result<Vec<u8>, RunsFault>
    ensures text { IfOk result (λ text. StartsAreTold checked.now inputs.now schedule.now traced starts.now text.items) }
    ensures fault { IfErr result (λ f. f ≢ RunsFault.Memory
        → NoStartsAreTold checked.now inputs.now starts.now f) }
{
    if starts.len() == 0 {
        return Ok(b"# no run\n".to_vec(alloc)?);
    }
    // Where so many cost too much whatever they come to, none is made.
    if cost_too_much(checked, starts.len()) {
        return Err(RunsFault::TooLarge);
    }
    let written = made_ready(alloc, checked, inputs, schedule, traced, starts)?;
    Ok(written.text)
}

// What is written of the runs of these starts, for which the definition is made ready once.
fn made_ready(
    alloc: Global,
    checked: &Checked,
    inputs: &Inputs,
    schedule: &Schedule,
    traced: bool,
    starts: &Starts,
) -> Result<Written, RunsFault>
    ensures written { IfOk result (λ w. StartsAreWritten checked.now inputs.now schedule.now traced starts.now w.text.items w.cost) }
    ensures fault { IfErr result (λ f. f ≢ RunsFault.Memory → f ≡ RunsFault.TooLarge) }
    ensures too_large { IfErr result (λ f. f ≢ RunsFault.Memory
        → CostTooMuch checked.now inputs.now starts.now) }
{
    let ready = Ready::of(alloc, checked)?;
    planned(alloc, &ready, inputs, schedule, traced, starts)
}

// The same, once it is ready but for its ends and its plan.
fn planned(
    alloc: Global,
    ready: &Ready,
    inputs: &Inputs,
    schedule: &Schedule,
    traced: bool,
    starts: &Starts,
) -> Result<Written, RunsFault>
    ensures written { IfOk result (λ w. StartsAreWritten ready.now.checked.now inputs.now schedule.now traced starts.now w.text.items w.cost) }
    ensures fault { IfErr result (λ f. f ≢ RunsFault.Memory → f ≡ RunsFault.TooLarge) }
    ensures too_large { IfErr result (λ f. f ≢ RunsFault.Memory
        → CostTooMuch ready.now.checked.now inputs.now starts.now) }
{
    let ends = Ends::of(alloc, ready.checked, &ready.places)?;
    let plan = plan(alloc, &ready.checked.def)?;
    let runnable = Runnable::of(ready, &ends, &plan);
    let mut lists = Lists::new(alloc);
    all_written(
        alloc, &runnable, inputs, schedule, traced, starts, &mut lists,
    )
}

// What is written of the runs of these starts, one after the other, each with the lists that the one before it left, and with the digits
// of the digest that they have in common.
fn all_written(
    alloc: Global,
    runnable: &Runnable,
    inputs: &Inputs,
    schedule: &Schedule,
    traced: bool,
    starts: &Starts,
    lists: &mut Lists,
) -> Result<Written, RunsFault>
    ensures written { IfOk result (λ w. StartsAreWritten runnable.now.checked.now inputs.now schedule.now traced starts.now w.text.items w.cost) }
    ensures fault { IfErr result (λ f. f ≢ RunsFault.Memory → f ≡ RunsFault.TooLarge) }
    ensures too_large { IfErr result (λ f. f ≢ RunsFault.Memory
        → CostTooMuch runnable.now.checked.now inputs.now starts.now) }
{
    let mut written = Written::new(alloc);
    let mut digits = Digits::new();
    for k in 0..starts.len() {
        let start = starts.start(alloc, k)?;
        let ended = ended(
            alloc,
            runnable,
            inputs,
            schedule,
            traced,
            start,
            written.cost,
            lists,
        )?;
        written = written.with(alloc, &mut digits, &ended)?;
    }
    Ok(written)
}

/// The run of a start, where the runs before it cost `spent`, and left these lists.
pub(crate) fn ended(
    alloc: Global,
    runnable: &Runnable,
    inputs: &Inputs,
    schedule: &Schedule,
    traced: bool,
    start: Start,
    spent: u64,
    lists: &mut Lists,
) -> Result<Ended, RunsFault>
    requires { spent ≤ 67108864 }
    ensures told { IfOk result (λ e. IsTheRun runnable.now.checked.now start inputs.now schedule.now traced (told e)) }
    ensures small { IfOk result (λ e. IsWithin spent (cost_of e.finished)) }
    ensures fault { IfErr result (λ f. f ≢ RunsFault.Memory → f ≡ RunsFault.TooLarge) }
    ensures too_large { IfErr result (λ f. f ≢ RunsFault.Memory → IsTooMuch spent (meant_cost runnable.now.checked.now start inputs.now)) }
{
    let ended = run(
        alloc, runnable, start, inputs, schedule, spent, traced, lists,
    )?;
    Ok(ended)
}
