//! What gets rows with an action that doesn't run.
ghost use Rattle.std.specs.Prelude.{◌≡◌, IfOk, map};
ghost use Rattle.wf_tables.specs.PlanSeen.{plan_tree};
ghost use Rattle.wf_tables.specs.Blocks.{skipped_at};
ghost use Rattle.wf_events.specs.Skipped.{block_of};

use std::alloc::{AllocError, Global};
use wf_tables::{Acts, Instance, Plan, RowAt, skipped_rows};

/// The rows of an action that is skipped and of all inside it that stand in no loop there, at its indexes.
pub fn block_rows<A: Acts>(
    alloc: Global,
    acts: &A,
    plan: &Plan,
    place: &Instance,
) -> Result<Vec<RowAt<A::Row>>, AllocError>
    ensures { IfOk result (λ rows. map (λ r. (r.instance, A.row_tree r.row)) rows.items
        ≡ skipped_at (A.source acts.now).skipped place.now.at (block_of (plan_tree plan.now) place.now.action)) }
{
    match plan.entry(place.action) {
        Some(entry) => skipped_rows(alloc, acts, &entry.block, &place.at),
        None => Ok(Vec::new(alloc)),
    }
}
