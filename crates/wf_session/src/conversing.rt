//! The talk of a run.
ghost use Rattle.std.specs.Prelude.{◌≡◌};
ghost use Rattle.wf_answers.specs.InputsSeen.{inputs_tree};
ghost use Rattle.wf_reading.specs.ReadSeen.{def_tree};
ghost use Rattle.wf_trigger.specs.StartsSeen.{start_tree};
ghost use Rattle.wf_session.specs.Conversed.{HasConversed};

use crate::session::{Given, Session};
use std::alloc::Global;
use wf_answers::Inputs;
use wf_outside::{Sink, Source};
use wf_planned::plan;
use wf_runnable::{Ends, Ready, Runnable};
use wf_stands::Checked;
use wf_talk::{StandFault, hold, refuse};
use wf_trigger::Start;

// Once it is ready.
fn begun<I: Source, O: Sink>(
    alloc: Global,
    runnable: &Runnable<'_>,
    given: Given,
    input: &mut I,
    out: &mut O,
) -> u8
    ensures { HasConversed (def_tree runnable.now.checked.now.def) (start_tree given.start) (inputs_tree given.inputs)
        (record { left = I.left input.old; unread = I.faults input.old; taken = O.taken out.old; unwritten = O.faults out.old })
        (record { left = I.left input.new; unread = I.faults input.new; taken = O.taken out.new; unwritten = O.faults out.new }) result }
{
    match Session::begin(alloc, runnable, given) {
        Ok(session) => hold(alloc, session, input, out),
        Err(fault) => refuse::<Session<'_>, O>(out, fault),
    }
}

// Once it is ready but for its plan.
fn planned<I: Source, O: Sink>(
    alloc: Global,
    ready: &Ready<'_>,
    ends: &Ends<'_>,
    given: Given,
    input: &mut I,
    out: &mut O,
) -> u8
    requires { ends.now.checked.now ≡ ready.now.checked.now }
    ensures { HasConversed (def_tree ready.now.checked.now.def) (start_tree given.start) (inputs_tree given.inputs)
        (record { left = I.left input.old; unread = I.faults input.old; taken = O.taken out.old; unwritten = O.faults out.old })
        (record { left = I.left input.new; unread = I.faults input.new; taken = O.taken out.new; unwritten = O.faults out.new }) result }
{
    match plan(alloc, &ready.checked.def) {
        Ok(plan) => {
            let runnable = Runnable::of(ready, ends, &plan);
            begun(alloc, &runnable, given, input, out)
        }
        Err(_) => refuse::<Session<'_>, O>(out, StandFault::Memory),
    }
}

// Once it is ready but for its ends and its plan.
fn made_ready<I: Source, O: Sink>(
    alloc: Global,
    ready: &Ready<'_>,
    given: Given,
    input: &mut I,
    out: &mut O,
) -> u8
    ensures { HasConversed (def_tree ready.now.checked.now.def) (start_tree given.start) (inputs_tree given.inputs)
        (record { left = I.left input.old; unread = I.faults input.old; taken = O.taken out.old; unwritten = O.faults out.old })
        (record { left = I.left input.new; unread = I.faults input.new; taken = O.taken out.new; unwritten = O.faults out.new }) result }
{
    match Ends::of(alloc, ready.checked, &ready.places) {
        Ok(ends) => planned(alloc, ready, &ends, given, input, out),
        Err(_) => refuse::<Session<'_>, O>(out, StandFault::Memory),
    }
}

/// Holds the talk of the run of a definition that starts so, with these inputs at first.
pub fn converse<I: Source, O: Sink>(
    alloc: Global,
    checked: &Checked,
    start: Start,
    inputs: Inputs,
    input: &mut I,
    out: &mut O,
) -> u8
    ensures { HasConversed (def_tree checked.now.def) (start_tree start) (inputs_tree inputs)
        (record { left = I.left input.old; unread = I.faults input.old; taken = O.taken out.old; unwritten = O.faults out.old })
        (record { left = I.left input.new; unread = I.faults input.new; taken = O.taken out.new; unwritten = O.faults out.new }) result }
{
    let given = Given { start, inputs };
    match Ready::of(alloc, checked) {
        Ok(ready) => made_ready(alloc, &ready, given, input, out),
        Err(_) => refuse::<Session<'_>, O>(out, StandFault::Memory),
    }
}
