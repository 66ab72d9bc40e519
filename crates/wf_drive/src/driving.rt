//! Driving a run to its end.
ghost use Rattle.std.specs.Prelude.{◌≡◌, ◌≢◌, ◌+◌, ◌*◌, ◌<◌, ◌≤◌, ◌++◌, [], List, IfErr, IfOk, OnOk};
ghost use Rattle.std.specs.Prelude.{cond, false, slice_index_or, true};
ghost use Rattle.wf_layers.specs.Machine as layers;
ghost use Rattle.wf_layers.specs.Machine.{IsOver, Run, State, Step};
ghost use Rattle.wf_kept.specs.Reached.{IsReached};
ghost use Rattle.wf_scheduled.specs.Counts.{HasNotBegun, number_of};
ghost use Rattle.wf_scheduled.specs.Turns.{Turn};
ghost use Rattle.wf_drive.specs.Driven.{IsDriven, IsFirst};
ghost use Rattle.wf_drive.specs.Limit.{most_cost};
ghost use Rattle.wf_drive.specs.Lines.{event_line};

use crate::fault::DriveFault;
use crate::line::write_line;
use crate::machine::Machine;
use std::alloc::{AllocError, Global};
use wf_val::Schedule;

/// How a run went: how many events it had, how many leaves were running at a time at most, and its lines where they are kept.
#[derive(Drop)]
pub struct Driven {
    pub steps: u64,
    pub peak: u64,
    pub trace: Vec<u8>,
}

// The schedule's number for a turn, or 0 after its end.
fn place_in(schedule: &Schedule, turn: u64) -> u64
    ensures { result ≡ slice_index_or schedule.now turn 0 }
{
    match schedule.as_slice().get(turn as usize) {
        Some(place) => *place as u64,
        None => 0,
    }
}

// Whether a run has cost too much so far, where others cost `spent`.
fn is_too_large<M: Machine>(machine: &M, spent: u64) -> bool
    requires { spent ≤ most_cost }
    ensures large { result ≡ true → most_cost < spent + M.meant_cost (M.origin machine.now) }
    ensures small { result ≡ false → spent + M.cost machine.now ≤ most_cost }
{
    machine.is_priced();
    machine.cost() > 67108864 - spent
}

// One turn, where the run hasn't cost too much so far: its event.
fn turn<M: Machine>(
    alloc: Global,
    machine: &mut M,
    schedule: &Schedule,
    steps: u64,
    spent: u64,
) -> Result<M::Event, DriveFault>
    requires going { IsOver (M.graph (M.origin machine.old)) (M.source (M.origin machine.old)) (M.state machine.old) → ⊥ }
    requires spent { spent ≤ most_cost }
    ensures turn { IfOk result (λ e. Turn (M.graph (M.origin machine.old)) (M.source (M.origin machine.old)) schedule.now steps
        (M.state machine.old) (M.event_tree e) (M.state machine.new)) }
    ensures same { OnOk result (M.origin machine.new ≡ M.origin machine.old) }
    ensures small { OnOk result (spent + M.cost machine.old ≤ most_cost) }
    ensures large { IfErr result (λ f. f ≢ DriveFault.Memory → most_cost < spent + M.meant_cost (M.origin machine.old)) }
{
    if is_too_large(machine, spent) {
        return Err(DriveFault::TooLarge);
    }
    let event = machine.pick(alloc, place_in(schedule, steps))?;
    machine.step(alloc, &event)?;
    Ok(event)
}

// Adds the line of the event of this number, which has just happened, where lines are kept.
fn note<M: Machine>(
    alloc: Global,
    trace: &mut Vec<u8>,
    machine: &M,
    event: &M::Event,
    number: u64,
    traced: bool,
) -> Result<(), AllocError>
    ensures { OnOk result ((first before : State M.Row M.Begun M.Decision M.Verdict) (es : List layers.Event) → HasNotBegun first
        → Run (M.graph (M.origin machine.now)) (M.source (M.origin machine.now)) first es before
        → IsReached (M.graph (M.origin machine.now)) (M.depth (M.origin machine.now)) (M.source (M.origin machine.now)) before
        → Step (M.graph (M.origin machine.now)) (M.source (M.origin machine.now)) before (M.event_tree event.now) (M.state machine.now)
        → trace.new.items ≡ trace.old.items ++ cond traced
        (event_line number (M.told (M.origin machine.now) (M.event_tree event.now) (number_of es (M.event_tree event.now)))) []) }
{
    if traced {
        let told = machine.tell(alloc, event)?;
        write_line(trace, number, &told)
    } else {
        Ok(())
    }
}

/// Runs on until nothing may happen any more, where other runs have cost `spent`, and keeps the lines where they are asked for. A run costs
/// what the rows cost that its definition means, whatever the schedule; where that is too much with what others cost, it is left on its
/// way.
pub fn drive<M: Machine>(
    alloc: Global,
    machine: &mut M,
    schedule: &Schedule,
    spent: u64,
    traced: bool,
) -> Result<Driven, DriveFault>
    requires first { IsFirst (M.graph (M.origin machine.old)) (M.source (M.origin machine.old)) (M.depth (M.origin machine.old))
        (M.state machine.old) }
    requires spent { spent ≤ most_cost }
    ensures driven { IfOk result (λ r. IsDriven (M.graph (M.origin machine.old)) (M.source (M.origin machine.old))
        (M.told (M.origin machine.old)) schedule.now (M.state machine.old) (M.state machine.new) r.steps r.peak traced r.trace.items) }
    ensures same { OnOk result (M.origin machine.new ≡ M.origin machine.old) }
    ensures few { IfOk result (λ r. 64 + 32 * r.steps ≤ M.meant_cost (M.origin machine.old)) }
    ensures small { OnOk result (spent + M.meant_cost (M.origin machine.old) ≤ most_cost) }
    ensures large { IfErr result (λ f. f ≢ DriveFault.Memory → most_cost < spent + M.meant_cost (M.origin machine.old)) }
{
    let mut steps: u64 = 0;
    let mut peak: u64 = 0;
    let mut trace = Vec::new(alloc);
    while !machine.is_over() {
        machine.is_reached();
        machine.is_priced();
        let event = turn(alloc, machine, schedule, steps, spent)?;
        peak = peak.max(machine.running());
        steps += 1;
        note(alloc, &mut trace, &*machine, &event, steps, traced)?;
    }
    if is_too_large(&*machine, spent) {
        return Err(DriveFault::TooLarge);
    }
    machine.is_priced();
    Ok(Driven { steps, peak, trace })
}
