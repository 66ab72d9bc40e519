//! Moments.
ghost use Rattle.std.specs.Prelude.{◌≡◌, ◌+◌, ◌-◌, ◌*◌, ◌%◌, ◌<◌, ◌≤◌, ℕ};
ghost use Rattle.wf_fn_time.specs.Moments.{ticks_a_day, moment, later, earlier};

use std::marker::Model;

/// A moment of the years 1 to 9999: ticks of 100 ns since 0001-01-01T00:00:00 in UTC.
#[derive(Clone, Copy, Debug)]
pub struct Ticks {
    ticks: u64,
}

impl Model for Ticks {
    ghost Value = { ℕ };

    ghost view = { λ a. a.ticks };

    ghost invariant = { λ a. a.ticks ≤ 3155378975999999999 };

    ghost inverse = { λ n. record { ticks = n } };
}

impl Ticks {
    /// The moment of so many ticks; none behind the year 9999.
    pub fn of(ticks: u64) -> Option<Ticks>
        ensures { result ≡ moment ticks }
    {
        if ticks <= 3_155_378_975_999_999_999 {
            Some(Ticks { ticks })
        } else {
            None
        }
    }

    /// How many ticks it is after 0001-01-01T00:00:00 in UTC.
    pub fn get(self) -> u64
        ensures value { result ≡ self }
        ensures in_range { result ≤ 3155378975999999999 }
    {
        self.ticks
    }

    /// The moment of so many ticks behind the start of the day that is so many days after 1 January of the year 1.
    pub fn on_day(days: u64, ticks: u64) -> Ticks
        requires days_to { days ≤ 3652058 }
        requires ticks_below { ticks < 864000000000 }
        ensures { result ≡ days * ticks_a_day + ticks }
    {
        Ticks {
            ticks: days * 864_000_000_000 + ticks,
        }
    }

    /// The last moment that is a multiple of a unit, and not behind this one.
    pub fn cut(self, unit: u64) -> Ticks
        requires { 0 < unit }
        ensures { result ≡ self - self % unit }
    {
        Ticks {
            ticks: self.ticks - self.ticks % unit,
        }
    }

    /// So many ticks later; none behind the year 9999.
    pub fn later(self, by: u64) -> Option<Ticks>
        ensures { result ≡ later self by }
    {
        Ticks::of(self.ticks.checked_add(by)?)
    }

    /// So many ticks earlier; none before the year 1.
    pub fn earlier(self, by: u64) -> Option<Ticks>
        ensures { result ≡ earlier self by }
    {
        Ticks::of(self.ticks.checked_sub(by)?)
    }
}
