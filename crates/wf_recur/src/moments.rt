//! The next moments of a recurrence.
ghost use Rattle.std.specs.Prelude.{◌≡◌, ◌+◌, ◌≤◌, IfOk};
ghost use Rattle.wf_fn_time.specs.Moments.{last_tick};
ghost use Rattle.wf_recur.specs.Due.{IsDue, start_or};
ghost use Rattle.wf_recur.specs.Moments.{moments_due};
ghost use Rattle.wf_recur.specs.Next.{AreNext, IsLeastFrom};

use crate::months::next_month;
use crate::multiples::next_step;
use crate::recurrence::{Kind, Recurrence};
use crate::timetable::next_scheduled;
use std::alloc::{AllocError, Global};
use wf_fn_time::Ticks;

/// The first moments, so many at most, at which a recurrence is due at or after a moment, in their order. One without a
/// start counts from this moment.
pub fn fires(
    alloc: Global,
    recurrence: &Recurrence,
    from: Ticks,
    count: u32,
) -> Result<Vec<Ticks>, AllocError>
    ensures next { IfOk result (λ moments. AreNext recurrence.now from count moments.items) }
    ensures listed { IfOk result (λ moments. moments.items ≡ moments_due recurrence.now from count) }
{
    let _interval = recurrence.interval.get();
    let start = match recurrence.start {
        Some(start) => start,
        None => from,
    };
    let mut moments = Vec::new(alloc);
    let mut at = from.get();
    for _ in 0..count {
        let Some(moment) = next(recurrence, start, at) else {
            return Ok(moments);
        };
        moments.push(moment)?;
        at = moment.get() + 1;
    }
    Ok(moments)
}

// The first moment due from one on.
fn next(recurrence: &Recurrence, start: Ticks, at: u64) -> Option<Ticks>
    requires { at ≤ last_tick + 1 }
    ensures { IsLeastFrom (IsDue recurrence.now start) at result }
{
    let at = at.max(start.get());
    match recurrence.kind() {
        Kind::Steps(unit) => next_step(start, recurrence.interval, unit, at),
        Kind::Months => next_month(start, recurrence.interval, at),
        Kind::Days => next_scheduled(recurrence, false, start, at),
        Kind::Weeks => next_scheduled(recurrence, true, start, at),
    }
}
