//! Recurrences, and what decides when they are due.
ghost use Rattle.std.specs.Prelude.{◌≡◌};
ghost use Rattle.wf_recur.specs.Due.{kind_of, kind_of_day, kind_of_week};

use crate::frequency::Frequency;
use crate::interval::Interval;
use crate::sets::has_any;
use wf_fn_time::Ticks;

/// A recurrence. Of its schedule it has sets of numbers, which are empty where the schedule names none.
#[derive(Clone, Copy)]
pub struct Recurrence {
    pub frequency: Frequency,
    pub interval: Interval,
    /// The moment before which it isn't due, and from which it counts.
    pub start: Option<Ticks>,
    /// The hours of the day.
    pub hours: [bool; 24],
    /// The minutes of the hour.
    pub minutes: [bool; 60],
    /// The days of the week; Sunday is 0.
    pub days: [bool; 7],
}

/// What decides when a recurrence is due.
#[derive(Clone, Copy, PartialEq, Eq, Debug)]
pub enum Kind {
    /// The ticks since its start, in units of so many.
    Steps(u64),
    /// The months since its start.
    Months,
    /// A schedule, and the days since its start.
    Days,
    /// A schedule, and the weeks since its start.
    Weeks,
}

impl Recurrence {
    /// What decides when it is due. A schedule counts for days and weeks alone, and only where it names something.
    pub fn kind(&self) -> Kind
        ensures { result ≡ kind_of self.now }
    {
        match self.frequency {
            Frequency::Second => Kind::Steps(10_000_000),
            Frequency::Minute => Kind::Steps(600_000_000),
            Frequency::Hour => Kind::Steps(36_000_000_000),
            Frequency::Day => self.kind_of_day(),
            Frequency::Week => self.kind_of_week(),
            Frequency::Month => Kind::Months,
        }
    }

    fn kind_of_day(&self) -> Kind
        ensures { result ≡ kind_of_day self.now }
    {
        if has_any(&self.hours) || has_any(&self.minutes) {
            Kind::Days
        } else {
            Kind::Steps(864_000_000_000)
        }
    }

    fn kind_of_week(&self) -> Kind
        ensures { result ≡ kind_of_week self.now }
    {
        if has_any(&self.hours) || has_any(&self.minutes) || has_any(&self.days) {
            Kind::Weeks
        } else {
            Kind::Steps(6_048_000_000_000)
        }
    }
}
