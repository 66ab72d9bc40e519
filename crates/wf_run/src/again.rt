//! Runs that are made from older ones.
ghost use Rattle.std.specs.Prelude.{◌≡◌, ◌≢◌, IfErr, IfOk};
ghost use Rattle.wf_drive.specs.declared.fault.DriveFault.{DriveFault};
ghost use Rattle.wf_run.specs.Made.{IsAtFirst, IsTooMuch};
ghost use Rattle.wf_run.specs.Runs.{IsTheResubmission, IsWithin, MayBeResumed, StartsAgain, cost_of, first_moment, resumed_cost};
ghost use Rattle.wf_run.specs.Runs.{resumed_record};
ghost use Rattle.wf_run.specs.Seen.{told};
ghost use Rattle.wf_runnable.specs.Acting.{ActAgain};
ghost use Rattle.wf_runnable.specs.Over.{moment};
ghost use Rattle.wf_runnable.specs.Runnable.{IsEnded, record_left};

use crate::cost::cost_within;
use crate::driven::driven;
use crate::ended::Ended;
use crate::made::Made;
use std::alloc::{AllocError, Global};
use wf_answers::Inputs;
use wf_drive::DriveFault;
use wf_environment::Start;
use wf_record::Record;
use wf_regained::{Regained, regain};
use wf_runnable::{Actions, Lists, Making, Runnable, is_planned};
use wf_val::Schedule;

// What a run starts with that is made from an older one: the name and the seed are new, the trigger and the parameters are the old ones.
fn started(alloc: Global, log: &Record, inputs: &Inputs) -> Result<Start, AllocError>
    ensures { IfOk result (λ s. StartsAgain log.now inputs.now s) }
{
    Ok(Start {
        run: inputs.run.copy(alloc)?,
        seed: inputs.seed.copy(alloc)?,
        trigger: log.trigger.copy(alloc)?,
        parameters: log.parameters.copy(alloc)?,
    })
}

// What the actions do in a run that is made from an older one.
fn actions<'s>(
    runnable: &'s Runnable<'_>,
    start: &'s Start,
    log: &'s Record,
    from: &'s Schedule,
    inputs: &'s Inputs,
) -> Actions<'s>
    requires may { MayBeResumed runnable.now.checked.now log.now from.now }
    requires start { StartsAgain log.now inputs.now start.now }
    ensures { ActAgain runnable.now.ready.now start.now inputs.now log.now from.now result }
{
    runnable.checked.def.always_read();
    runnable.checked.always_checked();
    wf_pinned::a_resubmission_is_answered();
    wf_told::record_is_an_old_table();
    wf_told::kept_rows_are_whole();
    wf_told::kept_rows_give_what_they_write();
    Actions::resumed(runnable.ready, start, inputs, log, from)
}

// The state with which it begins.
fn first<'s, 'a>(
    alloc: Global,
    runnable: &'s Runnable<'_>,
    actions: &'s Actions<'a>,
    start: &Start,
    log: &Record,
    from: &Schedule,
    inputs: &Inputs,
) -> Result<Making<'s, Actions<'a>>, AllocError>
    requires may { MayBeResumed runnable.now.checked.now log.now from.now }
    requires start { StartsAgain log.now inputs.now start.now }
    requires actions { ActAgain runnable.now.ready.now start.now inputs.now log.now from.now actions.now }
    ensures acts { IfOk result (λ s. s.0 ≡ actions.now) }
    ensures begins { IfOk result (λ s. moment s.1 ≡ first_moment runnable.now.checked.now log.now from.now) }
    ensures first { IfOk result (λ s. IsAtFirst actions.now s.1) }
{
    let _ = start;
    is_planned(runnable);
    runnable.checked.def.always_read();
    runnable.checked.always_checked();
    wf_regained::a_definition_is_an_instance();
    wf_told::what_is_chosen_stands_in_no_loop();
    wf_told::record_has_the_right_shape();
    wf_told::kept_rows_are_whole();
    wf_told::record_is_an_old_table();
    let Regained { rows, opens, store } = regain(
        alloc,
        &runnable.ready.places,
        runnable.checked,
        log,
        from,
    )?;
    let making = Making::resumed(alloc, actions, runnable.plan, rows, opens, store)?;
    Ok(making)
}

// Makes the events of a resubmission, until nothing may happen any more. With what the resubmission means as its record it is the
// resubmission under the schedule.
fn remake<'x>(
    alloc: Global,
    runnable: &'x Runnable<'_>,
    start: &'x Start,
    log: &'x Record,
    from: &'x Schedule,
    inputs: &'x Inputs,
    schedule: &Schedule,
) -> Result<Made, DriveFault>
    requires may { MayBeResumed runnable.now.checked.now log.now from.now }
    requires start { StartsAgain log.now inputs.now start.now }
    ensures run { IfOk result (λ m. IsTheResubmission runnable.now.checked.now log.now inputs.now from.now schedule.now (record {
      events = m.trace.items;
      left = resumed_record runnable.now.checked.now log.now inputs.now from.now;
      steps = m.steps;
      peak = m.peak;
    })) }
    ensures ended { IfOk result (λ m. IsEnded runnable.now.checked.now start.now inputs.now m.rows.0 m.store.0) }
    ensures meant { IfOk result (λ m. record_left runnable.now.checked.now start.now inputs.now m.rows.0
        ≡ resumed_record runnable.now.checked.now log.now inputs.now from.now) }
    ensures large { IfErr result (λ f. f ≢ DriveFault.Memory
        → IsTooMuch 0 (resumed_cost runnable.now.checked.now log.now inputs.now from.now)) }
{
    wf_runnable::runs_cost_no_more_than_their_records();
    let actions = actions(runnable, start, log, from, inputs);
    let making = first(alloc, &*runnable, &actions, start, log, from, inputs)?;
    let made = driven(alloc, making, schedule, 0, false, &mut Lists::new(alloc))?;
    Ok(made)
}

/// Resubmits the record of an older run from the actions of these numbers, under a schedule: the new record is what the resubmission
/// means, whatever the schedule. Where it costs too much, none is given. Steps and peak are those of the events that are made now.
pub fn resubmit(
    alloc: Global,
    runnable: &Runnable<'_>,
    log: &Record,
    from: &Schedule,
    inputs: &Inputs,
    schedule: &Schedule,
) -> Result<Ended, DriveFault>
    requires may { MayBeResumed runnable.now.checked.now log.now from.now }
    ensures told { IfOk result (λ e. IsTheResubmission runnable.now.checked.now log.now inputs.now from.now schedule.now (told e)) }
    ensures small { IfOk result (λ e. IsWithin 0 (cost_of e.finished)) }
    ensures large { IfErr result (λ f. f ≢ DriveFault.Memory
        → IsTooMuch 0 (resumed_cost runnable.now.checked.now log.now inputs.now from.now)) }
{
    let start = started(alloc, log, inputs)?;
    let Made {
        mut rows,
        store,
        steps,
        peak,
        trace,
    } = remake(alloc, &*runnable, &start, &*log, &*from, &*inputs, schedule)?;
    let finished = runnable.record(alloc, start, inputs, &mut rows, &store)?;
    let cost = match cost_within(&finished, 0) {
        Some(cost) => cost,
        None => return Err(DriveFault::TooLarge),
    };
    Ok(Ended {
        finished,
        cost,
        steps,
        peak,
        trace,
    })
}
