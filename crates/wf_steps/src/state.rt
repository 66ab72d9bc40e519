//! The state of a run.
ghost use Rattle.std.specs.Prelude.{◌≡◌, OnOk, OnErr, cond, false, nat_lt, true};
ghost use Rattle.wf_layers.specs.Machine as machine;
ghost use Rattle.wf_events.specs.Instances.{address_of};
ghost use Rattle.wf_steps.specs.Kept.{Goes, IsEnabled, IsOver, Picked};
ghost use Rattle.wf_events.specs.Tables.{event_tree};
ghost use Rattle.wf_steps.specs.Shown.{shown};

use std::alloc::{AllocError, Global};
use std::marker::Model;
use wf_events::{
    Acts, CountAt, EventAt, EventKind, Instance, Known, LeafAt, Opens, Plan, Rows, Store, count_of,
    next_index, set_event, tested_kind, with_test,
};
use wf_room::Roomy;

/// What has happened so far in a run, and what may happen next.
#[derive(Drop)]
pub struct State<'a, A: Acts> {
    pub(crate) acts: &'a A,
    pub(crate) plan: &'a Plan,
    pub(crate) rows: Rows<A::Row>,
    pub(crate) running: Roomy<LeafAt<A::Begun>>,
    pub(crate) opens: Opens<A::Decision, A::Verdict>,
    pub(crate) store: Store,
    pub(crate) waits: Roomy<CountAt>,
    pub(crate) lacks: Roomy<CountAt>,
    pub(crate) ready: Roomy<EventAt>,
}

impl<'a, A: Acts> Model for State<'a, A> {
    ghost use Rattle.std.specs.Prelude.{List};
    ghost use Rattle.wf_events.specs.PlanSeen.{plan_tree};
    ghost use Rattle.wf_events.specs.OpenAt.{OpenAt};
    ghost use Rattle.wf_events.specs.RowAt.{RowAt};
    ghost use Rattle.wf_events.specs.WriterAt.{WriterAt};
    ghost use Rattle.wf_events.specs.LeafAt.{LeafAt};
    ghost use Rattle.wf_steps.specs.Kept.{IsKept, IsPlanned};
    ghost use Rattle.wf_events.specs.Tables.{state_of};

    ghost Value = { A × (List (RowAt A.Row) × (List (LeafAt A.Begun) × (List (OpenAt A.Decision A.Verdict) × List WriterAt))) };

    ghost view = { λ s. (s.acts.now, (s.rows.0, (s.running.0, (s.opens.0, s.store.0)))) };

    ghost invariant = { λ s. IsPlanned (A.graph s.acts.now) (plan_tree s.plan.now)
        × IsKept (A.graph s.acts.now) (A.source s.acts.now) (A.depth s.acts.now)
        (A.writes s.acts.now) (state_of A.row_tree A.begun_tree A.decision_tree A.verdict_tree s.rows.0 s.running.0 s.opens.0)
        s.opens.0 s.store.0 s.waits.0 s.lacks.0
        s.ready.0 };
}

// What happens next to a leaf that starts: an attempt, or its end.
fn next_kind<A: Acts>(acts: &A, place: &Instance, begun: &A::Begun, made: u64) -> EventKind
    ensures { result ≡ cond (nat_lt made ((A.source acts.now).tries (address_of place.now) (A.begun_tree begun.now))) EventKind.Try
        EventKind.End }
{
    if acts.has_try(place, begun, made) {
        EventKind::Try
    } else {
        EventKind::End
    }
}

impl<'a, A: Acts> State<'a, A> {
    /// Whether nothing may happen any more.
    pub fn is_over(&self) -> bool
        ensures over { result ≡ true → IsOver (A.graph self.now.0) (A.source self.now.0)
            (shown A.row_tree A.begun_tree A.decision_tree A.verdict_tree self.now.1) }
        ensures going { result ≡ false → IsOver (A.graph self.now.0) (A.source self.now.0)
            (shown A.row_tree A.begun_tree A.decision_tree A.verdict_tree self.now.1) → ⊥ }
    {
        self.ready.len() == 0
    }

    /// The enabled event at a place, counted around where there are fewer.
    pub fn pick(&self, place: u64) -> &EventAt
        requires { IsOver (A.graph self.now.0) (A.source self.now.0)
            (shown A.row_tree A.begun_tree A.decision_tree A.verdict_tree self.now.1) → ⊥ }
        ensures picked { Picked (A.graph self.now.0) (A.source self.now.0)
            (shown A.row_tree A.begun_tree A.decision_tree A.verdict_tree self.now.1) place result.now }
        ensures enabled { IsEnabled (A.graph self.now.0) (A.source self.now.0)
            (shown A.row_tree A.begun_tree A.decision_tree A.verdict_tree self.now.1)
            (event_tree result.now) }
    {
        self.ready.at(place % self.ready.len())
    }

    /// A leaf starts. Where memory runs out nothing has happened.
    pub fn start(&mut self, alloc: Global, place: &Instance) -> Result<(), AllocError>
        requires { IsEnabled (A.graph self.old.0) (A.source self.old.0)
            (shown A.row_tree A.begun_tree A.decision_tree A.verdict_tree self.old.1)
            (machine.Start place.now.action place.now.at) }
        ensures ok { OnOk result (Goes (A.graph self.old.0) (A.source self.old.0)
            (shown A.row_tree A.begun_tree A.decision_tree A.verdict_tree self.old.1)
            (machine.Start place.now.action place.now.at)
            (shown A.row_tree A.begun_tree A.decision_tree A.verdict_tree self.new.1)) }
        ensures same { self.new.0 ≡ self.old.0 }
        ensures err { OnErr result (self.new ≡ self.old) }
    {
        self.acts.is_instance();
        let begun = self.acts.start(
            alloc,
            place,
            Known {
                rows: &self.rows,
                opens: &self.opens,
                store: &self.store,
            },
        )?;
        let kind = next_kind(self.acts, place, &begun, 0);
        let runs = place.copy(alloc)?;
        let next = place.copy(alloc)?;
        self.running.make_room(1)?;
        self.ready.make_room(1)?;
        self.running.put(LeafAt {
            instance: runs,
            begun,
            tries: 0,
        });
        self.ready.put(EventAt {
            instance: next,
            kind,
        });
        Ok(())
    }

    /// A running leaf makes another attempt. Where memory runs out nothing has happened.
    pub fn try_again(&mut self, alloc: Global, place: &Instance) -> Result<(), AllocError>
        requires { IsEnabled (A.graph self.old.0) (A.source self.old.0)
            (shown A.row_tree A.begun_tree A.decision_tree A.verdict_tree self.old.1)
            (machine.Try place.now.action place.now.at) }
        ensures ok { OnOk result (Goes (A.graph self.old.0) (A.source self.old.0)
            (shown A.row_tree A.begun_tree A.decision_tree A.verdict_tree self.old.1)
            (machine.Try place.now.action place.now.at)
            (shown A.row_tree A.begun_tree A.decision_tree A.verdict_tree self.new.1)) }
        ensures same { self.new.0 ≡ self.old.0 }
        ensures err { OnErr result (self.new ≡ self.old) }
    {
        self.acts.is_instance();
        let runs = place.copy(alloc)?;
        let next = place.copy(alloc)?;
        self.running.make_room(1)?;
        self.ready.make_room(1)?;
        match self.running.take(place) {
            Some(leaf) => {
                let made = leaf.tries + 1;
                let kind = next_kind(self.acts, place, &leaf.begun, made);
                self.running.put(LeafAt {
                    instance: runs,
                    begun: leaf.begun,
                    tries: made,
                });
                self.ready.put(EventAt {
                    instance: next,
                    kind,
                });
            }
            None => (),
        }
        Ok(())
    }

    /// An Until is tested after its last iteration. Where memory runs out nothing has happened.
    pub fn test(&mut self, alloc: Global, place: &Instance) -> Result<(), AllocError>
        requires { IsEnabled (A.graph self.old.0) (A.source self.old.0)
            (shown A.row_tree A.begun_tree A.decision_tree A.verdict_tree self.old.1)
            (machine.Test place.now.action place.now.at) }
        ensures ok { OnOk result (Goes (A.graph self.old.0) (A.source self.old.0)
            (shown A.row_tree A.begun_tree A.decision_tree A.verdict_tree self.old.1)
            (machine.Test place.now.action place.now.at)
            (shown A.row_tree A.begun_tree A.decision_tree A.verdict_tree self.new.1)) }
        ensures same { self.new.0 ≡ self.old.0 }
        ensures err { OnErr result (self.new ≡ self.old) }
    {
        self.acts.is_instance();
        let next = next_index(&self.opens, place);
        let verdict = self.acts.test(
            alloc,
            place,
            next.saturating_sub(1),
            Known {
                rows: &self.rows,
                opens: &self.opens,
                store: &self.store,
            },
        )?;
        let kind = tested_kind(self.acts, &verdict, count_of(self.plan, place.action), next);
        let itself = place.copy(alloc)?;
        self.opens.make_room(1)?;
        self.ready.make_room(1)?;
        match self.opens.take(place) {
            Some(open) => {
                self.opens.put(with_test(open, verdict));
                set_event(&mut self.ready, itself, kind);
            }
            None => (),
        }
        Ok(())
    }
}
