//! A run whose answers come from outside.
ghost use Rattle.std.specs.Prelude.{◌≡◌, ◌≢◌, [], IfErr, IfOk, List};
ghost use Rattle.wf_answers.specs.AnswerTree.{Key};
ghost use Rattle.wf_session.specs.Begun.{IsDear, has_answer, moment};
ghost use Rattle.wf_session.specs.Stood.{MayGoOn, Stands, run_with};
ghost use Rattle.wf_session.specs.Waiting.{AreWaiting};
ghost use Rattle.wf_waits.specs.Kept.{AreNew};

use crate::known::is_known;
use crate::settle::settle;
use std::alloc::Global;
use std::marker::Model;
use wf_answers::Inputs;
use wf_asks::Acts;
use wf_done::Begun;
use wf_opening::{Decision, Verdict};
use wf_record::Row;
use wf_runnable::{Actions, Lists, Making, Rest, Runnable, is_planned};
use wf_talk::StandFault;
use wf_trigger::Start;
use wf_waits::Waits;

/// What a run begins with, and the answers that have come since.
pub(crate) struct Given {
    pub(crate) start: Start,
    pub(crate) inputs: Inputs,
}

// By hand, so that to let it go is one call for each function that has it.
impl Drop for Given {
    fn drop(self) {
        let Given {
            start: _,
            inputs: _,
        } = self;
    }
}

/// A run that stands still where it needs an answer that isn't there: what it has come to, and which attempts wait. Once it has failed
/// nothing is kept of it.
#[derive(Drop)]
pub struct Session<'a> {
    pub(crate) runnable: &'a Runnable<'a>,
    pub(crate) given: Given,
    pub(crate) waits: Waits,
    pub(crate) rest: Option<Rest<Row, Begun, Decision, Verdict>>,
}

impl<'a> Model for Session<'a> {
    ghost use Rattle.std.specs.Prelude.{IfSome, List, Option};
    ghost use Rattle.wf_answers.specs.declared.inputs.Inputs.{Inputs};
    ghost use Rattle.wf_stands.specs.Checked.{Checked};
    ghost use Rattle.wf_runnable.specs.Aside.{Aside};
    ghost use Rattle.wf_session.specs.Stood.{Stands, run_with};
    ghost use Rattle.wf_waits.specs.declared.waiting.Waiting.{Waiting};
    ghost use Rattle.wf_trigger.specs.declared.starts.Start.{Start};
    ghost use Rattle.std.specs.Coded.{codes};
    ghost use Rattle.wf_reading.specs.contracts.definition.Def as read;
    ghost use Rattle.wf_val.specs.ValueCode.{coded_member, coded_value};

    ghost Value = { Checked × (Start × (Inputs × (List Waiting × Option Aside))) };

    ghost coded = { Prim.hlevel (codes, read.the_row.coded, coded_value, coded_member) };

    ghost view = { λ s. (s.runnable.now.checked.now, (s.given.start, (s.given.inputs, (s.waits.0, s.rest)))) };

    ghost invariant = { λ s. IfSome s.rest (λ rest. Stands (run_with s.runnable.now.checked.now s.given.start s.given.inputs) rest s.waits.0) };
}

// A run begins, and goes on until it needs an answer that isn't there.
pub(crate) fn begun(
    alloc: Global,
    runnable: &Runnable<'_>,
    start: &Start,
    inputs: &Inputs,
    waits: &mut Waits,
) -> Result<Rest<Row, Begun, Decision, Verdict>, StandFault>
    requires { waits.old.0 ≡ [] }
    ensures stands { IfOk result (λ rest. Stands (run_with runnable.now.checked.now start.now inputs.now) rest waits.new.0) }
    ensures dear { IfErr result (λ f. f ≢ StandFault.Memory → IsDear (run_with runnable.now.checked.now start.now inputs.now)) }
{
    is_planned(runnable);
    let actions = Actions::of(runnable.ready, start, inputs);
    let mut making = Making::fresh(alloc, &actions, runnable.plan, &mut Lists::new(alloc))?;
    settle(alloc, &mut making, waits)?;
    is_known(&making);
    Ok(making.rest())
}

/// A run that was put aside goes on until it needs an answer that isn't there.
pub(crate) fn gone_on(
    alloc: Global,
    runnable: &Runnable<'_>,
    start: &Start,
    inputs: &Inputs,
    rest: Rest<Row, Begun, Decision, Verdict>,
    waits: &mut Waits,
) -> Result<Rest<Row, Begun, Decision, Verdict>, StandFault>
    requires goes_on { MayGoOn (run_with runnable.now.checked.now start.now inputs.now) rest }
    requires waiting { AreWaiting (run_with runnable.now.checked.now start.now inputs.now) (moment rest.0.0) waits.old.0 }
    ensures stands { IfOk result (λ rest. Stands (run_with runnable.now.checked.now start.now inputs.now) rest waits.new.0) }
    ensures marked { IfOk result (λ rest. (earlier : List Key)
        → AreNew (has_answer (run_with runnable.now.checked.now start.now inputs.now)) earlier waits.old
        → AreNew (has_answer (run_with runnable.now.checked.now start.now inputs.now)) earlier waits.new) }
    ensures dear { IfErr result (λ f. f ≢ StandFault.Memory → IsDear (run_with runnable.now.checked.now start.now inputs.now)) }
{
    is_planned(runnable);
    let actions = Actions::of(runnable.ready, start, inputs);
    actions.is_instance();
    let mut making = Making::again(&actions, runnable.plan, rest);
    settle(alloc, &mut making, waits)?;
    is_known(&making);
    Ok(making.rest())
}
