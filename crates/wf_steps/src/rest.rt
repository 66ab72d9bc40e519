//! A state that is put aside, without the actions and the plan that it borrows.
ghost use Rattle.std.specs.Prelude.{◌≡◌};
ghost use Rattle.wf_events.specs.PlanSeen.{plan_tree};
ghost use Rattle.wf_steps.specs.Kept.{IsPlanned};
ghost use Rattle.wf_steps.specs.Rest.{IsRest};

use crate::state::State;
use std::marker::Model;
use wf_events::{Acts, CountAt, EventAt, LeafAt, Opens, Plan, Rows, Store};
use wf_room::Roomy;

/// What a state has of its own. So the actions may change while it is put aside, as more becomes known of what they do, and the state is
/// taken up again with those. Contracts see the lists that a state shows, and behind them counts and ready set.
#[derive(Drop)]
pub struct Rest<R, B, D, V> {
    rows: Rows<R>,
    running: Roomy<LeafAt<B>>,
    opens: Opens<D, V>,
    store: Store,
    waits: Roomy<CountAt>,
    lacks: Roomy<CountAt>,
    ready: Roomy<EventAt>,
}

impl<R, B, D, V> Model for Rest<R, B, D, V> {
    ghost use Rattle.std.specs.Prelude.{List};
    ghost use Rattle.wf_events.specs.OpenAt.{OpenAt};
    ghost use Rattle.wf_events.specs.RowAt.{RowAt};
    ghost use Rattle.wf_events.specs.WriterAt.{WriterAt};
    ghost use Rattle.wf_events.specs.CountAt.{CountAt};
    ghost use Rattle.wf_events.specs.EventAt.{EventAt};
    ghost use Rattle.wf_events.specs.LeafAt.{LeafAt};

    ghost Value = { (List (RowAt R) × (List (LeafAt B) × (List (OpenAt D V) × List WriterAt)))
        × (List CountAt × (List CountAt × List EventAt)) };

    ghost view = { λ r. ((r.rows.0, (r.running.0, (r.opens.0, r.store.0))), (r.waits.0, (r.lacks.0, r.ready.0))) };
}

impl<'a, A: Acts> State<'a, A> {
    /// The state is put aside.
    pub fn rest(self) -> Rest<A::Row, A::Begun, A::Decision, A::Verdict>
        ensures lists { result.0 ≡ self.entry.1 }
        ensures kept { IsRest A.row_tree A.begun_tree A.decision_tree A.verdict_tree (A.graph self.entry.0) (A.source self.entry.0)
            (A.depth self.entry.0) (A.writes self.entry.0) result }
    {
        let State {
            rows,
            running,
            opens,
            store,
            waits,
            lacks,
            ready,
            ..
        } = self;
        Rest {
            rows,
            running,
            opens,
            store,
            waits,
            lacks,
            ready,
        }
    }

    /// A state that was put aside goes on, with actions by which it is one of a run too.
    pub fn again(
        acts: &'a A,
        plan: &'a Plan,
        rest: Rest<A::Row, A::Begun, A::Decision, A::Verdict>,
    ) -> State<'a, A>
        requires planned { IsPlanned (A.graph acts.now) (plan_tree plan.now) }
        requires kept { IsRest A.row_tree A.begun_tree A.decision_tree A.verdict_tree (A.graph acts.now) (A.source acts.now)
            (A.depth acts.now) (A.writes acts.now) rest }
        ensures acts { result.0 ≡ acts.now }
        ensures lists { result.1 ≡ rest.0 }
    {
        let Rest {
            rows,
            running,
            opens,
            store,
            waits,
            lacks,
            ready,
        } = rest;
        State {
            acts,
            plan,
            rows,
            running,
            opens,
            store,
            waits,
            lacks,
            ready,
        }
    }
}
