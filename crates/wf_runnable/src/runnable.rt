//! A definition that was made ready for its runs.
ghost use Rattle.std.specs.Prelude.{◌≡◌, [], IfOk, OnOk};
ghost use Rattle.wf_record.specs.Seen.{record_tree};
ghost use Rattle.wf_runnable.specs.Runnable.{IsEnded, Plans, record_left};

use std::alloc::{AllocError, Global};
use wf_actions::Ready;
use wf_answers::Inputs;
use wf_asks::{Rows, Store};
use wf_ended::Ends;
use wf_environment::Start;
use wf_plan::Plan;
use wf_record::{Record, Row};
use wf_rules::Checked;

/// An accepted definition, by what its runs ask of it again and again.
#[derive(Drop)]
pub struct Runnable<'a> {
    pub checked: &'a Checked,
    pub ready: &'a Ready<'a>,
    ends: &'a Ends<'a>,
    pub plan: &'a Plan,
    ghost readied: { ready.now.checked.now ≡ checked.now },
    ghost ending: { ends.now.checked.now ≡ checked.now },
    ghost planned: { ∥ Plans plan.now checked.now ∥₁ },
}

/// Tells a caller that the plan is the definition's, and does nothing.
pub fn is_planned(runnable: &Runnable<'_>)
    ensures { Plans runnable.now.plan.now runnable.now.checked.now }
{
    let _ = &runnable.checked;
}

impl<'a> Runnable<'a> {
    /// Of a definition, its ends and its plan.
    pub fn of(ready: &'a Ready<'a>, ends: &'a Ends<'a>, plan: &'a Plan) -> Runnable<'a>
        requires ends { ends.now.checked.now ≡ ready.now.checked.now }
        requires plan { Plans plan.now ready.now.checked.now }
        ensures { result.checked.now ≡ ready.now.checked.now }
    {
        Runnable {
            checked: ready.checked,
            ready,
            ends,
            plan,
        }
    }

    /// The record of a run that has these rows and last writers, once nothing may happen any more. The rows are taken out of their list,
    /// and after an error they may be gone.
    pub fn record(
        &self,
        alloc: Global,
        start: Start,
        inputs: &Inputs,
        rows: &mut Rows<Row>,
        store: &Store,
    ) -> Result<Record, AllocError>
        requires { IsEnded self.now.checked.now start inputs.now rows.old.0 store.now.0 }
        ensures record { IfOk result (λ r. record_tree r ≡ record_left self.now.checked.now start inputs.now rows.old.0) }
        ensures none { OnOk result (rows.new.0 ≡ []) }
    {
        let left = self.ends.left(alloc, &start, inputs, rows, store)?;
        Ok(left.record(self.checked.def.digest, start))
    }
}
