//! Moments that are so many months behind a start.
ghost use Rattle.std.specs.Prelude.{◌≡◌, ◌*◌, ◌<◌, ◌≤◌, ℕ, true, false, IfSome};
ghost use Rattle.wf_fn_time.specs.Moments.{last_tick};
ghost use Rattle.wf_recur.specs.Due.{IsMonthsLater, months_later};
ghost use Rattle.wf_recur.specs.Next.{IsLeastFrom, is_before};

use crate::interval::Interval;
use wf_fn_time::{Shift, Ticks, TimeUnit};

/// The least moment, from one on, that is a number of intervals of months behind a start.
pub(crate) fn next_month(start: Ticks, interval: Interval, at: u64) -> Option<Ticks>
    ensures least { IsLeastFrom (IsMonthsLater interval start) at result }
    ensures in_years { IfSome result (λ m. m ≤ last_tick) }
{
    let intervals = intervals_before(start, interval.get(), at);
    months_later(intervals * interval.get(), start)
}

// How many numbers of intervals, from 0 on, lead to a moment before one. It takes 17 halvings of their range.
fn intervals_before(start: Ticks, interval: u64, at: u64) -> u64
    requires from { 1 ≤ interval }
    requires to { interval ≤ 9999999 }
    ensures few { result ≤ 120000 }
    ensures before { (k : ℕ) → k < result → is_before at (months_later (k * interval) start) ≡ true }
    ensures not_before { is_before at (months_later (result * interval) start) ≡ false }
{
    let mut low = 0;
    let mut high = 120_000;
    while low < high {
        let middle = low + (high - low) / 2;
        if is_before(at, months_later(middle * interval, start)) {
            low = middle + 1;
        } else {
            high = middle;
        }
    }
    low
}

fn months_later(months: u64, start: Ticks) -> Option<Ticks>
    ensures value { result ≡ months_later months start }
    ensures in_years { IfSome result (λ m. m ≤ last_tick) }
{
    let shift = Shift {
        back: false,
        count: months,
    };
    TimeUnit::Month.shifted(shift, start)
}

fn is_before(at: u64, moment: Option<Ticks>) -> bool
    ensures { result ≡ is_before at moment }
{
    match moment {
        Some(moment) => moment.get() < at,
        None => false,
    }
}
