//! Rows of actions that are passed over together.
ghost use Rattle.std.specs.Prelude.{◌≡◌, ◌≤◌, IfOk, length, map};
ghost use Rattle.wf_tables.specs.Blocks.{put_rows, skipped_at};

use std::alloc::{AllocError, Global};
use wf_lists::TryCopy;
use wf_plan::{Acts, Instance, RowAt, Rows};
use wf_val::Indexes;

/// The rows of actions that don't run, at these indexes.
pub fn skipped_rows<A: Acts>(
    alloc: Global,
    acts: &A,
    numbers: &[u32],
    at: &Indexes,
) -> Result<Vec<RowAt<A::Row>>, AllocError>
    ensures { IfOk result (λ rows. map (λ r. (r.instance, A.row_tree r.row)) rows.items
        ≡ skipped_at (A.source acts.now).skipped at.now numbers.now) }
{
    let mut rows = Vec::with_capacity(alloc, numbers.len())?;
    for number in numbers {
        let instance = Instance {
            action: *number,
            at: at.copy(alloc)?,
        };
        let row = acts.skipped(alloc, &instance)?;
        rows.push(RowAt { instance, row })?;
    }
    Ok(rows)
}

/// Puts several rows, one after the other. No memory is taken.
pub fn put_rows<R: Drop>(rows: &mut Rows<R>, block: Vec<RowAt<R>>)
    requires { length block.items ≤ rows.old.1 }
    ensures { rows.new.0 ≡ put_rows block.items rows.old.0 }
{
    for row in block {
        rows.put(row);
    }
}
