//! The rows of branches that aren't taken.
ghost use Rattle.std.specs.Prelude.{◌≡◌, IfOk, map};
ghost use Rattle.wf_events.specs.PlanSeen.{plan_tree};
ghost use Rattle.wf_events.specs.Blocks.{skipped_at};
ghost use Rattle.wf_enter.specs.Graphs.{passed_at};

use std::alloc::{AllocError, Global};
use wf_events::{Acts, Instance, Plan, RowAt, skipped_rows};

fn passed_numbers(
    alloc: Global,
    plan: &Plan,
    container: u32,
    taken: u64,
) -> Result<Vec<u32>, AllocError>
    ensures { IfOk result (λ numbers. numbers.items ≡ passed_at (plan_tree plan.now) container taken) }
{
    match plan.entry(container) {
        Some(entry) => entry.shape.passed_over(alloc, taken),
        None => Ok(Vec::new(alloc)),
    }
}

/// The rows of all that a container passes over as it opens, where its decision takes the branch of a number.
pub fn passed_rows<A: Acts>(
    alloc: Global,
    acts: &A,
    plan: &Plan,
    place: &Instance,
    taken: u64,
) -> Result<Vec<RowAt<A::Row>>, AllocError>
    ensures { IfOk result (λ rows. map (λ r. (r.instance, A.row_tree r.row)) rows.items
        ≡ skipped_at (A.source acts.now).skipped place.now.at (passed_at (plan_tree plan.now) place.now.action taken)) }
{
    let numbers = passed_numbers(alloc, plan, place.action, taken)?;
    skipped_rows(alloc, acts, &numbers, &place.at)
}
