//! A container closes.
ghost use Rattle.std.specs.Prelude.{◌≡◌, ◌≤◌, IfOk, OnOk, OnErr, Some, option_map};
ghost use Rattle.wf_layers.specs.Changes.{next_of};
ghost use Rattle.wf_layers.specs.Definition.{Kind, kind_of};
ghost use Rattle.wf_layers.specs.Machine as machine;
ghost use Rattle.wf_layers.specs.Machine.{IsContainer};
ghost use Rattle.wf_lists.specs.KeyOrder.{IsInKeyOrder, without_key};
ghost use Rattle.wf_events.specs.Instances.{address_of, instance_cmp, rows_in};
ghost use Rattle.wf_events.specs.Known.{IsInformed, opens_in};
ghost use Rattle.wf_events.specs.OpenAt.{OpenAt};
ghost use Rattle.wf_events.specs.PlanSeen.{at_place, plan_tree};
ghost use Rattle.wf_events.specs.Closed.{iterations_by, last_by};
ghost use Rattle.wf_events.specs.RowEdits.{AreRowEdits};
ghost use Rattle.wf_steps.specs.Kept.{Goes, IsEnabled};
ghost use Rattle.wf_steps.specs.Shown.{shown};

use crate::state::State;
use std::alloc::{AllocError, Global};
use wf_events::{
    Acts, Instance, Known, OpenAt, Opens, Plan, RowAt, RowEdits, count_and_settle, iterations,
    last_test, make_room, row_edits,
};

// All that is made before a container closes.
#[derive(Drop)]
struct CloseEdits<R> {
    place: Instance,
    row: R,
    edits: RowEdits,
}

fn closing<A: Acts>(
    acts: &A,
    plan: &Plan,
    alloc: Global,
    place: &Instance,
    open: &OpenAt<A::Decision, A::Verdict>,
    known: Known<'_, A::Row, A::Decision, A::Verdict>,
) -> Result<CloseEdits<A::Row>, AllocError>
    requires { (kind : Kind) → kind_of (A.graph acts.now) place.now.action ≡ Some kind → IsContainer kind
        × IsInformed (A.graph acts.now) (A.depth acts.now) (A.source acts.now) (rows_in A.row_tree known.rows.now.0)
        (opens_in A.decision_tree A.verdict_tree known.opens.now.0) place.now.action place.now.at kind }
    ensures place { IfOk result (λ c. c.place ≡ place.now) }
    ensures row { IfOk result (λ c. A.row_tree c.row ≡ (A.source acts.now).close (address_of place.now) (A.decision_tree open.now.decision)
        (iterations_by (at_place (plan_tree plan.now).entries place.now.action) open.now.next)
        (option_map A.verdict_tree (last_by (at_place (plan_tree plan.now).entries place.now.action) open.now.test))
        (rows_in A.row_tree known.entry.rows.now.0)) }
    ensures edits { IfOk result (λ c. AreRowEdits (plan_tree plan.now)
        (λ x. next_of (opens_in (λ d. d) (λ v. v) known.entry.opens.now.0 x)) place.now c.edits) }
{
    let opens = known.opens;
    let count = iterations(plan, place.action, open.next);
    let test = last_test(plan, place.action, &open.test);
    let row = acts.close(alloc, place, &open.decision, count, test, known)?;
    let edits = row_edits(alloc, plan, opens, place)?;
    let place = place.copy(alloc)?;
    Ok(CloseEdits { place, row, edits })
}

// A container is open no more.
fn take_open<D: Drop, V: Drop>(opens: &mut Opens<D, V>, place: &Instance)
    ensures rest { opens.new.0 ≡ without_key instance_cmp (λ (o : OpenAt D V). o.instance) place.now opens.old.0 }
    ensures room { opens.old.1 ≤ opens.new.1 }
    ensures in_order { IsInKeyOrder instance_cmp (λ (o : OpenAt D V). o.instance) opens.old.0 }
{
    let _closed = opens.take(place);
}

impl<'a, A: Acts> State<'a, A> {
    /// An open container closes with its row. Where memory runs out nothing has happened.
    pub fn close(&mut self, alloc: Global, place: &Instance) -> Result<(), AllocError>
        requires { IsEnabled (A.graph self.old.0) (A.source self.old.0)
            (shown A.row_tree A.begun_tree A.decision_tree A.verdict_tree self.old.1)
            (machine.Close place.now.action place.now.at) }
        ensures ok { OnOk result (Goes (A.graph self.old.0) (A.source self.old.0)
            (shown A.row_tree A.begun_tree A.decision_tree A.verdict_tree self.old.1)
            (machine.Close place.now.action place.now.at)
            (shown A.row_tree A.begun_tree A.decision_tree A.verdict_tree self.new.1)) }
        ensures same { self.new.0 ≡ self.old.0 }
        ensures err { OnErr result (self.new ≡ self.old) }
    {
        match self.opens.get(place) {
            Some(open) => {
                let closing = closing(
                    self.acts,
                    self.plan,
                    alloc,
                    place,
                    open,
                    Known {
                        rows: &self.rows,
                        opens: &self.opens,
                        store: &self.store,
                    },
                )?;
                make_room(
                    &mut self.rows,
                    &mut self.opens,
                    &mut self.ready,
                    &closing.edits,
                )?;
                self.rows.put(RowAt {
                    instance: closing.place,
                    row: closing.row,
                });
                take_open(&mut self.opens, place);
                count_and_settle(
                    self.acts,
                    self.plan,
                    &self.rows,
                    &mut self.opens,
                    &self.store,
                    &mut self.waits,
                    &mut self.lacks,
                    &mut self.ready,
                    place,
                    closing.edits,
                );
            }
            None => (),
        }
        Ok(())
    }
}
