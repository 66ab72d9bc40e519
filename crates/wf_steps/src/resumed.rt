//! The state from which an old record is gone on.
ghost use Rattle.std.specs.Prelude.{◌≡◌, [], IfOk, ℕ};
ghost use Rattle.wf_layers.specs.Variables.{IsLastWritten};
ghost use Rattle.wf_kept.specs.Reached.{IsResumption};
ghost use Rattle.wf_events.specs.Instances.{rows_in};
ghost use Rattle.wf_events.specs.Known.{store_in, writer};
ghost use Rattle.wf_events.specs.PlanSeen.{plan_tree};
ghost use Rattle.wf_steps.specs.Kept.{IsPlanned};
ghost use Rattle.wf_steps.specs.Shown.{shown};

use crate::state::State;
use std::alloc::{AllocError, Global};
use wf_events::{Acts, Opens, Plan, Rows, Store};
use wf_resting::{first_lacks, first_ready, first_waits, standing};
use wf_room::Roomy;

impl<'a, A: Acts> State<'a, A> {
    /// The state from which an old record is gone on: its kept rows are there, the containers that are closed again are open, and of each
    /// variable the last of the kept writers is in the store.
    pub fn resumed(
        alloc: Global,
        acts: &'a A,
        plan: &'a Plan,
        rows: Rows<A::Row>,
        opens: Opens<A::Decision, A::Verdict>,
        store: Store,
    ) -> Result<State<'a, A>, AllocError>
        requires planned { IsPlanned (A.graph acts.now) (plan_tree plan.now) }
        requires resumed { IsResumption (A.graph acts.now) (A.depth acts.now) (A.source acts.now)
            (shown A.row_tree A.begun_tree A.decision_tree A.verdict_tree (rows.0, ([], (opens.0, store.0)))) }
        requires last { (v : ℕ) → IsLastWritten (A.graph acts.now) (A.source acts.now) (writer (A.writes acts.now) v)
            (rows_in A.row_tree rows.0) (store_in store.0 v) }
        ensures acts { IfOk result (λ s. s.0 ≡ acts.now) }
        ensures lists { IfOk result (λ s. s.1 ≡ (rows.0, ([], (opens.0, store.0)))) }
    {
        let _count = opens.len();
        let numbers = standing(alloc, acts, plan, &opens)?;
        let actions = numbers.as_slice();
        let waits = first_waits::<A>(alloc, plan, &rows, actions)?;
        let lacks = first_lacks(alloc, acts, plan, &rows, &opens, actions)?;
        let ready = first_ready(
            alloc, acts, plan, &rows, &opens, &store, &waits, &lacks, actions,
        )?;
        Ok(State {
            acts,
            plan,
            rows,
            running: Roomy::new(alloc),
            opens,
            store,
            waits,
            lacks,
            ready,
        })
    }
}
