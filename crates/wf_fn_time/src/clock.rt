//! A moment by its parts.
ghost use Rattle.std.specs.Prelude.{◌≡◌, ◌<◌};
ghost use Rattle.wf_fn_time.specs.Clock.{clock_at, half_day_hour};

use crate::calendar::{Day, day_at};
use crate::ticks::Ticks;

/// A moment as a calendar and a clock in UTC show it. Sunday is the weekday 0; the fraction of the second is in ticks
/// of 100 ns.
#[derive(Clone, Copy, Debug)]
pub struct Clock {
    pub day: Day,
    pub weekday: u8,
    pub hour: u8,
    pub minute: u8,
    pub second: u8,
    pub fraction: u32,
}

/// What a calendar and a clock show at a moment.
pub fn clock_at(moment: Ticks) -> Clock
    ensures { result ≡ clock_at moment }
{
    let ticks = moment.get();
    let days = ticks / 864_000_000_000;
    Clock {
        day: day_at(days),
        weekday: ((days + 1) % 7) as u8,
        hour: (ticks / 36_000_000_000 % 24) as u8,
        minute: (ticks / 600_000_000 % 60) as u8,
        second: (ticks / 10_000_000 % 60) as u8,
        fraction: (ticks % 10_000_000) as u32,
    }
}

/// The hour of half a day, 12 for 0.
pub fn half_day_hour(hour: u8) -> u8
    ensures { result ≡ half_day_hour hour }
{
    if hour % 12 == 0 { 12 } else { hour % 12 }
}
