//! The record of a run that was put aside, once nothing may happen in it any more.
ghost use Rattle.std.specs.Prelude.{◌≡◌, IfOk};
ghost use Rattle.wf_record.specs.Seen.{record_tree};
ghost use Rattle.wf_runnable.specs.Aside.{IsAsideAtLast};
ghost use Rattle.wf_runnable.specs.Runnable.{meant_record};

use crate::over::{Lists, given_up};
use crate::runnable::{Runnable, is_planned};
use std::alloc::{AllocError, Global};
use wf_actions::{Actions, Making, Rest};
use wf_answers::Inputs;
use wf_done::Begun;
use wf_environment::Start;
use wf_opening::{Decision, Verdict};
use wf_record::{Record, Row};

impl<'a> Runnable<'a> {
    /// The record of a run that was put aside, once nothing may happen in it any more: it is the definition's meaning.
    pub fn finished(
        &self,
        alloc: Global,
        start: Start,
        inputs: &Inputs,
        rest: Rest<Row, Begun, Decision, Verdict>,
    ) -> Result<Record, AllocError>
        requires { IsAsideAtLast self.now.checked.now start inputs.now rest }
        ensures { IfOk result (λ r. record_tree r ≡ meant_record self.now.checked.now start inputs.now) }
    {
        wf_actions::a_record_is_of_the_table();
        is_planned(self);
        let actions = Actions::of(self.ready, &start, inputs);
        let (mut rows, store) = given_up(
            Making::again(&actions, self.plan, rest),
            &mut Lists::new(alloc),
        );
        let record = self.record(alloc, start, inputs, &mut rows, &store)?;
        Ok(record)
    }
}
