//! The state and its sums.
ghost use Rattle.std.specs.Prelude.{◌≡◌, ◌+◌, [], ℕ, IfOk, OnOk, OnErr};
ghost use Rattle.wf_val.specs.Cut.{cut_u64};
ghost use Rattle.wf_layers.specs.Laws.{IsInstance};
ghost use Rattle.wf_layers.specs.Machine.{fresh};
ghost use Rattle.wf_layers.specs.Variables.{IsLastWritten};
ghost use Rattle.wf_kept.specs.Reached.{IsResumption};
ghost use Rattle.wf_asks.specs.Instances.{rows_in};
ghost use Rattle.wf_asks.specs.Known.{store_in, writer};
ghost use Rattle.wf_meter.specs.PlanSeen.{plan_tree};
ghost use Rattle.wf_meter.specs.Tables.{event_tree};
ghost use Rattle.wf_meter.specs.Cost.{opens_cost, rows_cost, running_cost};
ghost use Rattle.wf_steps.specs.Kept.{Goes, IsEnabled, IsPlanned};
ghost use Rattle.wf_steps.specs.Rest.{IsRest};
ghost use Rattle.wf_steps.specs.Shown.{shown};
ghost use Rattle.wf_metered.specs.Sums.{AreSumsOf};

use crate::rest::MeteredRest;
use crate::sums::{Moves, Sums, moved, parts_at};
use std::alloc::{AllocError, Global};
use std::marker::Model;
use wf_asks::{Acts, Opens, Rows, Store};
use wf_meter::{EventAt, Plan, decisions_total, rows_total, total, turns_total};
use wf_steps::{Spare, State};

/// A state, and what it costs.
pub struct Metered<'a, A: Acts> {
    pub(crate) state: State<'a, A>,
    pub(crate) plan: &'a Plan,
    pub(crate) sums: Sums,
}

// By hand, so that to let a state go is one call for a check above.
impl<'a, A: Acts> Drop for Metered<'a, A> {
    fn drop(self) {
        let Metered {
            state: _,
            plan: _,
            sums: _,
        } = self;
    }
}

impl<'a, A: Acts> Model for Metered<'a, A> {
    ghost use Rattle.std.specs.Prelude.{List};
    ghost use Rattle.wf_meter.specs.PlanSeen.{plan_tree};
    ghost use Rattle.wf_asks.specs.declared.known.OpenAt.{OpenAt};
    ghost use Rattle.wf_asks.specs.declared.known.RowAt.{RowAt};
    ghost use Rattle.wf_asks.specs.declared.known.WriterAt.{WriterAt};
    ghost use Rattle.wf_meter.specs.LeafAt.{LeafAt};
    ghost use Rattle.wf_steps.specs.Kept.{IsPlanned};
    ghost use Rattle.wf_metered.specs.Sums.{AreSums};

    ghost Value = { A × (List (RowAt A.Row) × (List (LeafAt A.Begun) × (List (OpenAt A.Decision A.Verdict) × List WriterAt))) };

    ghost view = { λ s. s.state };

    ghost invariant = { λ s. IsPlanned (A.graph s.state.0) (plan_tree s.plan.now)
        × AreSums A.row_tree A.begun_tree A.decision_tree A.verdict_tree (plan_tree s.plan.now) (A.cost_of_row s.state.0)
        (A.weight_of_begun s.state.0) (A.source s.state.0).items (A.weight_of_decision s.state.0) s.state.1.0 s.state.1.1.0
        s.state.1.1.1.0 s.sums };
}

impl<'a, A: Acts> Metered<'a, A> {
    /// The state of a run that begins.
    pub fn fresh(
        alloc: Global,
        acts: &'a A,
        plan: &'a Plan,
        spare: &mut Spare<A::Row, A::Begun, A::Decision, A::Verdict>,
    ) -> Result<Metered<'a, A>, AllocError>
        requires planned { IsPlanned (A.graph acts.now) (plan_tree plan.now) }
        requires instance { IsInstance (A.graph acts.now) (A.source acts.now) (A.depth acts.now) }
        ensures acts { IfOk result (λ s. s.0 ≡ acts.now) }
        ensures first { IfOk result (λ s. shown A.row_tree A.begun_tree A.decision_tree A.verdict_tree s.1 ≡ fresh) }
        ensures lists { IfOk result (λ s. s.1 ≡ ([], ([], ([], [])))) }
    {
        let state = State::fresh(alloc, acts, plan, spare)?;
        let sums = Sums {
            rows: 0,
            running: 0,
            turns: 0,
            decisions: 0,
        };
        Ok(Metered { state, plan, sums })
    }

    /// The state from which an old record is gone on: its kept rows, the containers that are closed again, and the last writers of those.
    pub fn resumed(
        alloc: Global,
        acts: &'a A,
        plan: &'a Plan,
        rows: Rows<A::Row>,
        opens: Opens<A::Decision, A::Verdict>,
        store: Store,
    ) -> Result<Metered<'a, A>, AllocError>
        requires planned { IsPlanned (A.graph acts.now) (plan_tree plan.now) }
        requires resumed { IsResumption (A.graph acts.now) (A.depth acts.now) (A.source acts.now)
            (shown A.row_tree A.begun_tree A.decision_tree A.verdict_tree (rows.0, ([], (opens.0, store.0)))) }
        requires last { (v : ℕ) → IsLastWritten (A.graph acts.now) (A.source acts.now) (writer (A.writes acts.now) v)
            (rows_in A.row_tree rows.0) (store_in store.0 v) }
        ensures acts { IfOk result (λ s. s.0 ≡ acts.now) }
        ensures lists { IfOk result (λ s. s.1 ≡ (rows.0, ([], (opens.0, store.0)))) }
    {
        let sums = Sums {
            rows: rows_total(acts, &rows),
            running: 0,
            turns: turns_total(acts, plan, &opens),
            decisions: decisions_total(acts, &opens),
        };
        let state = State::resumed(alloc, acts, plan, rows, opens, store)?;
        Ok(Metered { state, plan, sums })
    }

    /// The state itself.
    pub fn state(&self) -> &State<'a, A>
        ensures { result.now ≡ self.now }
    {
        &self.state
    }

    /// The rows and the last writers. The state is given up, and leaves its other lists.
    pub fn into_parts(
        self,
        spare: &mut Spare<A::Row, A::Begun, A::Decision, A::Verdict>,
    ) -> (Rows<A::Row>, Store)
        ensures rows { result.0.0 ≡ self.entry.1.0 }
        ensures store { result.1.0 ≡ self.entry.1.1.1.1 }
    {
        let Metered {
            state,
            plan: _,
            sums: _,
        } = self;
        state.into_parts(spare)
    }

    /// What the state costs: its rows, running leaves and open containers; cut to the greatest u64.
    pub fn cost(&self) -> u64
        ensures { result ≡ cut_u64 (rows_cost A.row_tree (A.cost_of_row self.now.0) self.now.1.0
            + running_cost A.begun_tree (A.weight_of_begun self.now.0) self.now.1.1.0
            + opens_cost A.decision_tree A.verdict_tree (A.graph self.now.0) (A.source self.now.0).items (A.weight_of_decision self.now.0)
            self.now.1.1.1.0) }
    {
        self.state.is_reached();
        self.state.is_listed();
        total(
            self.sums.rows,
            self.sums.running,
            self.sums.turns,
            self.sums.decisions,
        )
    }

    /// An event that may happen happens. Where memory runs out nothing has happened.
    pub fn step(&mut self, alloc: Global, event: &EventAt) -> Result<(), AllocError>
        requires { IsEnabled (A.graph self.old.0) (A.source self.old.0)
            (shown A.row_tree A.begun_tree A.decision_tree A.verdict_tree self.old.1)
            (event_tree event.now) }
        ensures ok { OnOk result (Goes (A.graph self.old.0) (A.source self.old.0)
            (shown A.row_tree A.begun_tree A.decision_tree A.verdict_tree self.old.1)
            (event_tree event.now)
            (shown A.row_tree A.begun_tree A.decision_tree A.verdict_tree self.new.1)) }
        ensures same { self.new.0 ≡ self.old.0 }
        ensures err { OnErr result (self.new ≡ self.old) }
    {
        let mut probe = event.instance.copy(alloc)?;
        let moves = Moves::of(event.kind);
        self.state.is_reached();
        self.state.is_listed();
        let before = parts_at(&self.state, self.plan, &event.instance, moves, &mut probe);
        self.state.step(alloc, event)?;
        self.state.is_listed();
        let after = parts_at(&self.state, self.plan, &event.instance, moves, &mut probe);
        self.sums = moved(self.sums, before, after);
        Ok(())
    }

    /// The state is put aside with what it costs.
    pub fn rest(self) -> MeteredRest<A::Row, A::Begun, A::Decision, A::Verdict>
        ensures lists { result.0.0 ≡ self.entry.1 }
        ensures kept { IsRest A.row_tree A.begun_tree A.decision_tree A.verdict_tree (A.graph self.entry.0) (A.source self.entry.0)
            (A.depth self.entry.0) (A.writes self.entry.0) result.0 }
        ensures sums { AreSumsOf A.row_tree A.begun_tree A.decision_tree A.verdict_tree (A.graph self.entry.0) (A.cost_of_row self.entry.0)
            (A.weight_of_begun self.entry.0) (A.source self.entry.0).items (A.weight_of_decision self.entry.0) result.0.0.0 result.0.0.1.0
            result.0.0.1.1.0 result.1 }
    {
        self.state.is_reached();
        self.state.is_listed();
        let Metered {
            state,
            plan: _,
            sums,
        } = self;
        MeteredRest {
            rest: state.rest(),
            sums,
        }
    }

    /// A state that was put aside goes on, with actions by which it is one of a run too, and costs what it did.
    pub fn again(
        acts: &'a A,
        plan: &'a Plan,
        rest: MeteredRest<A::Row, A::Begun, A::Decision, A::Verdict>,
    ) -> Metered<'a, A>
        requires planned { IsPlanned (A.graph acts.now) (plan_tree plan.now) }
        requires kept { IsRest A.row_tree A.begun_tree A.decision_tree A.verdict_tree (A.graph acts.now) (A.source acts.now)
            (A.depth acts.now) (A.writes acts.now) rest.0 }
        requires sums { AreSumsOf A.row_tree A.begun_tree A.decision_tree A.verdict_tree (A.graph acts.now) (A.cost_of_row acts.now)
            (A.weight_of_begun acts.now) (A.source acts.now).items (A.weight_of_decision acts.now) rest.0.0.0 rest.0.0.1.0
            rest.0.0.1.1.0 rest.1 }
        ensures acts { result.0 ≡ acts.now }
        ensures lists { result.1 ≡ rest.0.0 }
    {
        let (rest, sums) = rest.into_parts();
        Metered {
            state: State::again(acts, plan, rest),
            plan,
            sums,
        }
    }
}
