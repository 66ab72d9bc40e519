//! An action is skipped.
ghost use Rattle.std.specs.Prelude.{◌≡◌, IfOk, OnErr, OnOk, map};
ghost use Rattle.wf_layers.specs.Changes.{next_of};
ghost use Rattle.wf_layers.specs.Machine as machine;
ghost use Rattle.wf_events.specs.Known.{opens_in};
ghost use Rattle.wf_events.specs.PlanSeen.{plan_tree};
ghost use Rattle.wf_events.specs.Blocks.{skipped_at};
ghost use Rattle.wf_events.specs.RowEdits.{AreRowEdits};
ghost use Rattle.wf_events.specs.Skipped.{block_of};
ghost use Rattle.wf_steps.specs.Kept.{Goes, IsEnabled};
ghost use Rattle.wf_steps.specs.Shown.{shown};

use crate::state::State;
use std::alloc::{AllocError, Global};
use wf_events::{
    Acts, Instance, Opens, Plan, RowAt, RowEdits, block_rows, count_and_settle, make_room,
    put_rows, row_edits,
};

// All that is made before an action is skipped.
#[derive(Drop)]
struct SkipEdits<R> {
    block: Vec<RowAt<R>>,
    edits: RowEdits,
}

fn skipping<A: Acts>(
    alloc: Global,
    acts: &A,
    plan: &Plan,
    opens: &Opens<A::Decision, A::Verdict>,
    place: &Instance,
) -> Result<SkipEdits<A::Row>, AllocError>
    ensures block { IfOk result (λ s. map (λ r. (r.instance, A.row_tree r.row)) s.block.items
        ≡ skipped_at (A.source acts.now).skipped place.now.at (block_of (plan_tree plan.now) place.now.action)) }
    ensures edits { IfOk result (λ s. AreRowEdits (plan_tree plan.now)
        (λ x. next_of (opens_in (λ d. d) (λ v. v) opens.now.0 x)) place.now s.edits) }
{
    let edits = row_edits(alloc, plan, opens, place)?;
    let block = block_rows(alloc, acts, plan, place)?;
    Ok(SkipEdits { block, edits })
}

impl<'a, A: Acts> State<'a, A> {
    /// An action doesn't run: it gets a Skipped row, and so do all inside it that stand in no loop there. Where memory runs out nothing has
    /// happened.
    pub fn skip(&mut self, alloc: Global, place: &Instance) -> Result<(), AllocError>
        requires { IsEnabled (A.graph self.old.0) (A.source self.old.0)
            (shown A.row_tree A.begun_tree A.decision_tree A.verdict_tree self.old.1)
            (machine.Skip place.now.action place.now.at) }
        ensures ok { OnOk result (Goes (A.graph self.old.0) (A.source self.old.0)
            (shown A.row_tree A.begun_tree A.decision_tree A.verdict_tree self.old.1)
            (machine.Skip place.now.action place.now.at)
            (shown A.row_tree A.begun_tree A.decision_tree A.verdict_tree self.new.1)) }
        ensures same { self.new.0 ≡ self.old.0 }
        ensures err { OnErr result (self.new ≡ self.old) }
    {
        let skipping = skipping(alloc, self.acts, self.plan, &self.opens, place)?;
        make_room(
            &mut self.rows,
            &mut self.opens,
            &mut self.ready,
            &skipping.edits,
        )?;
        self.rows.make_room(skipping.block.len())?;
        put_rows(&mut self.rows, skipping.block);
        count_and_settle(
            self.acts,
            self.plan,
            &self.rows,
            &mut self.opens,
            &self.store,
            &mut self.waits,
            &mut self.lacks,
            &mut self.ready,
            place,
            skipping.edits,
        );
        Ok(())
    }
}
