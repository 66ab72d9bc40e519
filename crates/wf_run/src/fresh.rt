//! Runs that aren't made from others.
ghost use Rattle.std.specs.Prelude.{◌≡◌, ◌≢◌, ◌≤◌, IfErr, IfOk};
ghost use Rattle.wf_drive.specs.declared.fault.DriveFault.{DriveFault};
ghost use Rattle.wf_run.specs.Made.{AreFew, IsTooMuch};
ghost use Rattle.wf_run.specs.Runs.{IsTheRun, IsWithin, cost_of, meant_cost};
ghost use Rattle.wf_run.specs.Seen.{told};
ghost use Rattle.wf_runnable.specs.Runnable.{IsEnded, meant_record, record_left};

use crate::cost::cost_within;
use crate::driven::driven;
use crate::ended::Ended;
use crate::made::Made;
use std::alloc::Global;
use wf_answers::Inputs;
use wf_drive::DriveFault;
use wf_environment::Start;
use wf_runnable::{Actions, Lists, Making, Runnable, is_planned};
use wf_val::Schedule;

// Makes a run's events, until nothing may happen any more. With the definition's meaning as its record it is the run under the
// schedule.
fn make(
    alloc: Global,
    runnable: &Runnable<'_>,
    start: &Start,
    inputs: &Inputs,
    schedule: &Schedule,
    spent: u64,
    traced: bool,
    lists: &mut Lists,
) -> Result<Made, DriveFault>
    requires spent { spent ≤ 67108864 }
    ensures run { IfOk result (λ m. IsTheRun runnable.now.checked.now start.now inputs.now schedule.now traced (record {
      events = m.trace.items;
      left = meant_record runnable.now.checked.now start.now inputs.now;
      steps = m.steps;
      peak = m.peak;
    })) }
    ensures ended { IfOk result (λ m. IsEnded runnable.now.checked.now start.now inputs.now m.rows.0 m.store.0) }
    ensures meant { IfOk result (λ m. record_left runnable.now.checked.now start.now inputs.now m.rows.0
        ≡ meant_record runnable.now.checked.now start.now inputs.now) }
    ensures few { IfOk result (λ m. AreFew m.steps (meant_cost runnable.now.checked.now start.now inputs.now)) }
    ensures large { IfErr result (λ f. f ≢ DriveFault.Memory → IsTooMuch spent (meant_cost runnable.now.checked.now start.now inputs.now)) }
{
    wf_runnable::a_record_is_of_the_table();
    wf_runnable::runs_cost_no_more_than_their_records();
    is_planned(runnable);
    let actions = Actions::of(runnable.ready, start, inputs);
    let making = Making::fresh(alloc, &actions, runnable.plan, lists)?;
    let made = driven(alloc, making, schedule, spent, traced, lists)?;
    Ok(made)
}

/// Makes a run under a schedule, where other runs have cost `spent`: its record is the definition's meaning, whatever the schedule.
/// Where it costs too much with what others cost, none is given. The lines of its events are kept where they are asked for. It takes the
/// lists that the run before it left, for their room, and leaves its own.
pub fn run(
    alloc: Global,
    runnable: &Runnable<'_>,
    start: Start,
    inputs: &Inputs,
    schedule: &Schedule,
    spent: u64,
    traced: bool,
    lists: &mut Lists,
) -> Result<Ended, DriveFault>
    requires spent { spent ≤ 67108864 }
    ensures told { IfOk result (λ e. IsTheRun runnable.now.checked.now start inputs.now schedule.now traced (told e)) }
    ensures few { IfOk result (λ e. AreFew e.steps (cost_of e.finished)) }
    ensures small { IfOk result (λ e. IsWithin spent (cost_of e.finished)) }
    ensures large { IfErr result (λ f. f ≢ DriveFault.Memory → IsTooMuch spent (meant_cost runnable.now.checked.now start inputs.now)) }
{
    let Made {
        mut rows,
        store,
        steps,
        peak,
        trace,
    } = make(
        alloc, runnable, &start, inputs, schedule, spent, traced, lists,
    )?;
    let finished = runnable.record(alloc, start, inputs, &mut rows, &store)?;
    lists.keep_rows(rows);
    let cost = match cost_within(&finished, spent) {
        Some(cost) => cost,
        None => return Err(DriveFault::TooLarge),
    };
    Ok(Ended {
        finished,
        cost,
        steps,
        peak,
        trace,
    })
}
