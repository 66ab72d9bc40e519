//! A run that is being made.
ghost use Rattle.std.specs.Prelude.{◌≡◌, ◌+◌, [], ℕ, IfOk};
ghost use Rattle.wf_val.specs.Cut.{cut_u64};
ghost use Rattle.wf_lists.specs.KeyOrder.{IsInKeyOrder};
ghost use Rattle.wf_layers.specs.Address.{Address};
ghost use Rattle.wf_layers.specs.Laws.{IsInstance};
ghost use Rattle.wf_layers.specs.Machine.{IsOver, fresh};
ghost use Rattle.wf_layers.specs.Meaning.{meaning};
ghost use Rattle.wf_layers.specs.Variables.{IsLastWritten};
ghost use Rattle.wf_kept.specs.Reached.{IsReached, IsResumption};
ghost use Rattle.wf_asks.specs.Instances.{instance_cmp, rows_in};
ghost use Rattle.wf_asks.specs.Known.{store_in, writer};
ghost use Rattle.wf_metered.specs.PlanSeen.{plan_tree};
ghost use Rattle.wf_metered.specs.Tables.{event_tree};
ghost use Rattle.wf_metered.specs.Kept.{AreEnabled, IsPlanned};
ghost use Rattle.wf_metered.specs.Rest.{IsRest};
ghost use Rattle.wf_metered.specs.Shown.{shown};
ghost use Rattle.wf_metered.specs.Sums.{AreSumsOf};
ghost use Rattle.wf_drive.specs.Driven.{IsFirst};
ghost use Rattle.wf_making.specs.Priced.{lists_cost};

use crate::pays::Pays;
use crate::tells::Tells;
use std::alloc::{AllocError, Global};
use std::marker::Model;
use wf_asks::{Acts, Opens, Rows, Store};
use wf_drive::Machine;
use wf_metered::{EventAt, Metered, MeteredRest as Rest, Plan, Spare, State as Kept};
use wf_room::Roomy;

/// A state of a run with its cost, to be driven on.
#[derive(Drop)]
pub struct Making<'a, A: Acts> {
    metered: Metered<'a, A>,
}

impl<'a, A: Acts> Model for Making<'a, A> {
    ghost use Rattle.std.specs.Prelude.{List};
    ghost use Rattle.wf_asks.specs.declared.known.OpenAt.{OpenAt};
    ghost use Rattle.wf_asks.specs.declared.known.RowAt.{RowAt};
    ghost use Rattle.wf_asks.specs.declared.known.WriterAt.{WriterAt};
    ghost use Rattle.wf_metered.specs.LeafAt.{LeafAt};

    ghost Value = { A × (List (RowAt A.Row) × (List (LeafAt A.Begun) × (List (OpenAt A.Decision A.Verdict) × List WriterAt))) };

    ghost view = { λ s. s.metered };
}

impl<'a, A: Acts> Making<'a, A> {
    /// A run that begins.
    pub fn fresh(
        alloc: Global,
        acts: &'a A,
        plan: &'a Plan,
        spare: &mut Spare<A::Row, A::Begun, A::Decision, A::Verdict>,
    ) -> Result<Making<'a, A>, AllocError>
        requires planned { IsPlanned (A.graph acts.now) (plan_tree plan.now) }
        requires instance { IsInstance (A.graph acts.now) (A.source acts.now) (A.depth acts.now) }
        ensures acts { IfOk result (λ s. s.0 ≡ acts.now) }
        ensures begins { IfOk result (λ s. shown A.row_tree A.begun_tree A.decision_tree A.verdict_tree s.1 ≡ fresh) }
        ensures first { IfOk result (λ s. IsFirst (A.graph acts.now) (A.source acts.now) (A.depth acts.now)
            (shown A.row_tree A.begun_tree A.decision_tree A.verdict_tree s.1)) }
    {
        let metered = Metered::fresh(alloc, acts, plan, spare)?;
        Ok(Making { metered })
    }

    /// A run that goes on from an old record: from its kept rows, the containers that are closed again, and the last writers of those rows.
    pub fn resumed(
        alloc: Global,
        acts: &'a A,
        plan: &'a Plan,
        rows: Rows<A::Row>,
        opens: Opens<A::Decision, A::Verdict>,
        store: Store,
    ) -> Result<Making<'a, A>, AllocError>
        requires planned { IsPlanned (A.graph acts.now) (plan_tree plan.now) }
        requires resumed { IsResumption (A.graph acts.now) (A.depth acts.now) (A.source acts.now)
            (shown A.row_tree A.begun_tree A.decision_tree A.verdict_tree (rows.0, ([], (opens.0, store.0)))) }
        requires last { (v : ℕ) → IsLastWritten (A.graph acts.now) (A.source acts.now) (writer (A.writes acts.now) v)
            (rows_in A.row_tree rows.0) (store_in store.0 v) }
        ensures acts { IfOk result (λ s. s.0 ≡ acts.now) }
        ensures lists { IfOk result (λ s. s.1 ≡ (rows.0, ([], (opens.0, store.0)))) }
        ensures first { IfOk result (λ s. IsFirst (A.graph acts.now) (A.source acts.now) (A.depth acts.now)
            (shown A.row_tree A.begun_tree A.decision_tree A.verdict_tree s.1)) }
    {
        let metered = Metered::resumed(alloc, acts, plan, rows, opens, store)?;
        Ok(Making { metered })
    }

    /// The state itself.
    pub fn state(&self) -> &Kept<'a, A>
        ensures { result.now ≡ self.now }
    {
        self.metered.state()
    }

    /// The events that may happen.
    pub fn ready(&self) -> &Roomy<EventAt>
        ensures { AreEnabled (A.graph self.now.0) (A.source self.now.0)
            (shown A.row_tree A.begun_tree A.decision_tree A.verdict_tree self.now.1) result.now.0 }
    {
        self.state().ready()
    }

    /// Tells a caller that events lead to it, that what it keeps is listed once, in the order of instances, and which its last writers are;
    /// and does nothing.
    pub fn is_known(&self)
        ensures reached { IsReached (A.graph self.now.0) (A.depth self.now.0) (A.source self.now.0)
            (shown A.row_tree A.begun_tree A.decision_tree A.verdict_tree self.now.1) }
        ensures rows { IsInKeyOrder instance_cmp (λ r. r.instance) self.now.1.0 }
        ensures running { IsInKeyOrder instance_cmp (λ l. l.instance) self.now.1.1.0 }
        ensures opens { IsInKeyOrder instance_cmp (λ o. o.instance) self.now.1.1.1.0 }
        ensures last { (v : ℕ) → IsLastWritten (A.graph self.now.0) (A.source self.now.0) (writer (A.writes self.now.0) v)
            (shown A.row_tree A.begun_tree A.decision_tree A.verdict_tree self.now.1).rows (store_in self.now.1.1.1.1 v) }
    {
        let kept = self.state();
        kept.is_reached();
        kept.is_listed();
        kept.is_last();
    }

    /// Where nothing may happen any more, tells a caller that its rows are those that the definition means, and all of them; and does nothing.
    pub fn is_whole(&self)
        requires { IsOver (A.graph self.now.0) (A.source self.now.0)
            (shown A.row_tree A.begun_tree A.decision_tree A.verdict_tree self.now.1) }
        ensures { (x : Address) → (shown A.row_tree A.begun_tree A.decision_tree A.verdict_tree self.now.1).rows x
            ≡ meaning (A.source self.now.0) (A.depth self.now.0) (A.graph self.now.0) x }
    {
        self.state().is_whole();
    }

    // What its rows, running leaves and open containers cost.
    fn so_far(&self) -> u64
        ensures { result ≡ cut_u64 (lists_cost A.row_tree A.begun_tree A.decision_tree A.verdict_tree (A.graph self.now.0)
            (A.depth self.now.0) (A.source self.now.0) (A.cost_of_row self.now.0) (A.weight_of_begun self.now.0)
            (A.weight_of_decision self.now.0) self.now.1.0 self.now.1.1.0 self.now.1.1.1.0) }
    {
        self.metered.cost()
    }

    /// The rows and the last writers. The run is given up, and leaves its other lists.
    pub fn into_parts(
        self,
        spare: &mut Spare<A::Row, A::Begun, A::Decision, A::Verdict>,
    ) -> (Rows<A::Row>, Store)
        ensures rows { result.0.0 ≡ self.entry.1.0 }
        ensures store { result.1.0 ≡ self.entry.1.1.1.1 }
    {
        self.metered.into_parts(spare)
    }

    /// The run is put aside, without the actions and the plan that it borrows.
    pub fn rest(self) -> Rest<A::Row, A::Begun, A::Decision, A::Verdict>
        ensures lists { result.0.0 ≡ self.entry.1 }
        ensures kept { IsRest A.row_tree A.begun_tree A.decision_tree A.verdict_tree (A.graph self.entry.0) (A.source self.entry.0)
            (A.depth self.entry.0) (A.writes self.entry.0) result.0 }
        ensures sums { AreSumsOf A.row_tree A.begun_tree A.decision_tree A.verdict_tree (A.graph self.entry.0) (A.cost_of_row self.entry.0)
            (A.weight_of_begun self.entry.0) (A.source self.entry.0).items (A.weight_of_decision self.entry.0) result.0.0.0 result.0.0.1.0
            result.0.0.1.1.0 result.1 }
    {
        self.metered.rest()
    }

    /// A run that was put aside goes on, with actions by which it is one too, and costs what it did.
    pub fn again(
        acts: &'a A,
        plan: &'a Plan,
        rest: Rest<A::Row, A::Begun, A::Decision, A::Verdict>,
    ) -> Making<'a, A>
        requires planned { IsPlanned (A.graph acts.now) (plan_tree plan.now) }
        requires kept { IsRest A.row_tree A.begun_tree A.decision_tree A.verdict_tree (A.graph acts.now) (A.source acts.now)
            (A.depth acts.now) (A.writes acts.now) rest.0 }
        requires sums { AreSumsOf A.row_tree A.begun_tree A.decision_tree A.verdict_tree (A.graph acts.now) (A.cost_of_row acts.now)
            (A.weight_of_begun acts.now) (A.source acts.now).items (A.weight_of_decision acts.now) rest.0.0.0 rest.0.0.1.0
            rest.0.0.1.1.0 rest.1 }
        ensures acts { result.0 ≡ acts.now }
        ensures lists { result.1 ≡ rest.0.0 }
    {
        let metered = Metered::again(acts, plan, rest);
        Making { metered }
    }
}

impl<'a, A: Tells + Pays> Machine for Making<'a, A> {
    type Event = EventAt;

    ghost Row = { A.RowTree };

    ghost Begun = { A.BegunTree };

    ghost Decision = { A.DecisionTree };

    ghost Verdict = { A.VerdictTree };

    ghost Origin = { A };

    ghost graph = { A.graph };

    ghost depth = { A.depth };

    ghost source = { A.source };

    ghost told = { A.told };

    ghost meant_cost = { λ a. A.fee a + A.rows_meant a };

    ghost event_tree = { event_tree };

    ghost origin = { λ s. s.0 };

    ghost state = { λ s. shown A.row_tree A.begun_tree A.decision_tree A.verdict_tree s.1 };

    ghost cost = { λ s. A.fee s.0 + lists_cost A.row_tree A.begun_tree A.decision_tree A.verdict_tree (A.graph s.0) (A.depth s.0)
        (A.source s.0) (A.cost_of_row s.0) (A.weight_of_begun s.0) (A.weight_of_decision s.0) s.1.0 s.1.1.0 s.1.1.1.0 };

    fn is_over(&self) -> bool {
        self.state().is_over()
    }

    fn pick(&self, alloc: Global, place: u64) -> Result<EventAt, AllocError> {
        let kept = self.state();
        kept.is_reached();
        let found = kept.pick(place);
        let instance = found.instance.copy(alloc)?;
        Ok(EventAt {
            instance,
            kind: found.kind,
        })
    }

    fn step(&mut self, alloc: Global, event: &EventAt) -> Result<(), AllocError> {
        self.metered.step(alloc, event)
    }

    fn tell(&self, alloc: Global, event: &EventAt) -> Result<Vec<u8>, AllocError> {
        let kept = self.state();
        let place = &event.instance;
        let line = kept.acts().tell(
            alloc,
            event,
            kept.row(place),
            kept.leaf(place),
            kept.open_at(place),
        )?;
        Ok(line)
    }

    fn running(&self) -> u64 {
        let kept = self.state();
        kept.is_listed();
        kept.running()
    }

    fn cost(&self) -> u64 {
        let kept = self.state();
        let first = kept.acts().first_cost();
        first.saturating_add(self.so_far())
    }

    fn is_reached(&self) {
        self.state().is_reached();
    }

    fn is_priced(&self) {
        let kept = self.state();
        kept.is_reached();
        kept.is_listed();
        let acts = kept.acts();
        acts.is_instance();
        acts.is_paid();
    }
}
