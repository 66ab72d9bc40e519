//! Multiples of an interval.
ghost use Rattle.std.specs.Prelude.{◌≡◌, ◌+◌, ◌-◌, ◌*◌, ◌%◌, ◌<◌, ◌≤◌, ◌^◌, Some, min};
ghost use Rattle.wf_fn_time.specs.Moments.{last_tick};
ghost use Rattle.wf_recur.specs.Next.{IsLeastFrom, IsMultipleFrom};

use crate::interval::Interval;
use wf_fn_time::Ticks;

/// The least number, from one on, that is a multiple of a step behind a start.
pub(crate) fn next_multiple(start: u64, step: u64, at: u64) -> u64
    requires step_from { 1 ≤ step }
    requires step_to { step ≤ 2 ^ 62 }
    requires start { start ≤ at }
    requires at_to { at ≤ 2 ^ 62 }
    ensures least { IsLeastFrom (IsMultipleFrom start step) at (Some result) }
    ensures few { result ≤ at + step }
{
    let over = (at - start) % step;
    if over == 0 { at } else { at + (step - over) }
}

/// The least moment, from one on, that is a multiple of so many units of so many ticks behind a start.
pub(crate) fn next_step(start: Ticks, interval: Interval, unit: u64, at: u64) -> Option<Ticks>
    requires unit { 1 ≤ unit }
    requires start { start ≤ at }
    requires at_to { at ≤ last_tick + 1 }
    ensures { IsLeastFrom (λ m. (m ≤ last_tick) × ((m - start) % (interval * unit) ≡ 0)) at result }
{
    let step = interval.get().saturating_mul(unit).min(1 << 62);
    Ticks::of(next_multiple(start.get(), step, at))
}
