//! A leaf ends.
ghost use Rattle.std.specs.Prelude.{◌≡◌, ℕ, IfOk, OnOk, OnErr, Option, Some, cond};
ghost use Rattle.wf_layers.specs.Address.{Address};
ghost use Rattle.wf_layers.specs.Changes.{next_of};
ghost use Rattle.wf_layers.specs.Definition.{Leaf};
ghost use Rattle.wf_layers.specs.Machine as machine;
ghost use Rattle.wf_lists.specs.KeyOrder.{IsInKeyOrder, without_key};
ghost use Rattle.wf_events.specs.Instances.{address_of, instance_cmp, rows_in};
ghost use Rattle.wf_events.specs.Known.{IsInformed, opens_in};
ghost use Rattle.wf_events.specs.PlanSeen.{plan_tree};
ghost use Rattle.wf_events.specs.RowEdits.{AreRowEdits};
ghost use Rattle.wf_events.specs.Written.{put_each};
ghost use Rattle.wf_events.specs.LeafAt.{LeafAt};
ghost use Rattle.wf_steps.specs.Kept.{Goes, IsEnabled};
ghost use Rattle.wf_steps.specs.Shown.{shown};

use crate::state::State;
use std::alloc::{AllocError, Global};
use wf_events::{
    Acts, Instance, Known, LeafAt, Plan, RowAt, RowEdits, WriterAt, count_and_settle, make_room,
    put_writers, row_edits, writers,
};
use wf_room::Roomy;

// All that is made before a leaf ends.
#[derive(Drop)]
struct EndEdits<R> {
    place: Instance,
    row: R,
    writers: Vec<WriterAt>,
    edits: RowEdits,
}

fn ending<A: Acts>(
    acts: &A,
    plan: &Plan,
    alloc: Global,
    place: &Instance,
    begun: &A::Begun,
    known: Known<'_, A::Row, A::Decision, A::Verdict>,
) -> Result<EndEdits<A::Row>, AllocError>
    requires { IsInformed (A.graph acts.now) (A.depth acts.now) (A.source acts.now) (rows_in A.row_tree known.rows.now.0)
        (opens_in A.decision_tree A.verdict_tree known.opens.now.0) place.now.action place.now.at Leaf }
    ensures place { IfOk result (λ e. e.place ≡ place.now) }
    ensures row { IfOk result (λ e. A.row_tree e.row
        ≡ (A.source acts.now).finish (address_of place.now) (A.begun_tree begun.now) (rows_in A.row_tree known.entry.rows.now.0)) }
    ensures writers { IfOk result (λ e. (t : (ℕ → Option Address)) (v : ℕ) → put_each e.writers.items t v
        ≡ cond (A.writes acts.now v (address_of place.now) (A.row_tree e.row)) (Some (address_of place.now)) (t v)) }
    ensures edits { IfOk result (λ e. AreRowEdits (plan_tree plan.now)
        (λ x. next_of (opens_in (λ d. d) (λ v. v) known.entry.opens.now.0 x)) place.now e.edits) }
{
    let opens = known.opens;
    let row = acts.finish(alloc, place, begun, known)?;
    let writers = writers(alloc, acts.written(place, &row), place)?;
    let edits = row_edits(alloc, plan, opens, place)?;
    let place = place.copy(alloc)?;
    Ok(EndEdits {
        place,
        row,
        writers,
        edits,
    })
}

// A leaf runs no more.
fn take_leaf<B: Drop>(running: &mut Roomy<LeafAt<B>>, place: &Instance)
    ensures rest { running.new.0 ≡ without_key instance_cmp (λ (l : LeafAt B). l.instance) place.now running.old.0 }
    ensures in_order { IsInKeyOrder instance_cmp (λ (l : LeafAt B). l.instance) running.old.0 }
{
    let _ended = running.take(place);
}

impl<'a, A: Acts> State<'a, A> {
    /// A running leaf ends, and its row gives variables values. Where memory runs out nothing has happened.
    pub fn end(&mut self, alloc: Global, place: &Instance) -> Result<(), AllocError>
        requires { IsEnabled (A.graph self.old.0) (A.source self.old.0)
            (shown A.row_tree A.begun_tree A.decision_tree A.verdict_tree self.old.1)
            (machine.End place.now.action place.now.at) }
        ensures ok { OnOk result (Goes (A.graph self.old.0) (A.source self.old.0)
            (shown A.row_tree A.begun_tree A.decision_tree A.verdict_tree self.old.1)
            (machine.End place.now.action place.now.at)
            (shown A.row_tree A.begun_tree A.decision_tree A.verdict_tree self.new.1)) }
        ensures same { self.new.0 ≡ self.old.0 }
        ensures err { OnErr result (self.new ≡ self.old) }
    {
        match self.running.get(place) {
            Some(leaf) => {
                let ending = ending(
                    self.acts,
                    self.plan,
                    alloc,
                    place,
                    &leaf.begun,
                    Known {
                        rows: &self.rows,
                        opens: &self.opens,
                        store: &self.store,
                    },
                )?;
                make_room(
                    &mut self.rows,
                    &mut self.opens,
                    &mut self.ready,
                    &ending.edits,
                )?;
                self.store.make_room(ending.writers.len())?;
                self.rows.put(RowAt {
                    instance: ending.place,
                    row: ending.row,
                });
                take_leaf(&mut self.running, place);
                put_writers(&mut self.store, ending.writers);
                count_and_settle(
                    self.acts,
                    self.plan,
                    &self.rows,
                    &mut self.opens,
                    &self.store,
                    &mut self.waits,
                    &mut self.lacks,
                    &mut self.ready,
                    place,
                    ending.edits,
                );
            }
            None => (),
        }
        Ok(())
    }
}
