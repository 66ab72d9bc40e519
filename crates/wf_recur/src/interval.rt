//! How many units lie between two moments of a recurrence.
ghost use Rattle.std.specs.Prelude.{◌≡◌, ◌≤◌, ℕ};
ghost use Rattle.wf_recur.specs.Interval.{interval_of};

use std::marker::Model;

/// How many units lie between two moments: 1 to 9,999,999.
#[derive(Clone, Copy, Debug)]
pub struct Interval {
    units: u32,
}

impl Model for Interval {
    ghost Value = { ℕ };

    ghost view = { λ a. a.units };

    ghost invariant = { λ a. (1 ≤ a.units) × (a.units ≤ 9999999) };

    ghost inverse = { λ n. record { units = n } };
}

impl Interval {
    /// The interval of so many units, or `None` where there is none.
    pub fn of(units: i64) -> Option<Interval>
        ensures { result ≡ interval_of units }
    {
        if 1 <= units && units <= 9_999_999 {
            Some(Interval {
                units: units as u32,
            })
        } else {
            None
        }
    }

    /// The interval of one unit.
    pub fn one() -> Interval
        ensures { result ≡ 1 }
    {
        Interval { units: 1 }
    }

    /// How many units it is.
    pub fn get(self) -> u64
        ensures value { result ≡ self }
        ensures from { 1 ≤ result }
        ensures to { result ≤ 9999999 }
    {
        u64::from(self.units)
    }
}
