//! The schedules of a drill.
ghost use Rattle.std.specs.Prelude.{◌≡◌, ◌≤◌, IfOk};
ghost use Rattle.wf_drill.specs.Drill.{numbers};

use std::alloc::{AllocError, Global};
use wf_val::Schedule;

/// So many numbers, each so much above the one before it.
pub(crate) fn numbers(
    alloc: Global,
    first: u32,
    step: u32,
    count: u32,
) -> Result<Schedule, AllocError>
    requires first { first ≤ 1 }
    requires step { step ≤ 3 }
    requires count { count ≤ 10000 }
    ensures { IfOk result (λ schedule. schedule ≡ numbers first step count) }
{
    let mut schedule = Schedule::new(alloc);
    for turn in 0..count {
        schedule.push(first + step * turn)?;
    }
    Ok(schedule)
}
