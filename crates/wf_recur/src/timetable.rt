//! Schedules in use: the minutes at which a recurrence with one is due.
ghost use Rattle.std.specs.Prelude.{◌≡◌, ◌+◌, ◌/◌, ◌<◌, ◌≤◌, ◌^◌, if◌then◌else◌, IfSome};
ghost use Rattle.wf_fn_time.specs.Moments.{last_tick};
ghost use Rattle.wf_recur.specs.Due.{IsDue, kind_of};
ghost use Rattle.wf_recur.specs.Next.{IsLeastFrom};
ghost use Rattle.wf_recur.specs.declared.recurrence.Kind.{Kind};
ghost use Rattle.wf_recur.specs.Timetable.{IsDueByDays, IsDueByWeeks, IsDueDay, IsDueMinute, IsDueTime, IsFromStart, Passes, last_minute};
ghost use Rattle.wf_recur.specs.Timetable.{timetable_of};

use crate::multiples::next_multiple;
use crate::recurrence::Recurrence;
use crate::sets::or_own;
use wf_fn_time::Ticks;

/// A schedule in use: which days, and at which minutes of them. Days and minutes are counted from the start of the
/// year 1.
#[derive(Clone, Copy)]
pub(crate) struct Timetable {
    /// Whether it counts weeks, and not days.
    pub is_weekly: bool,
    /// Every so many days or weeks.
    pub interval: u64,
    /// The first day or week that counts.
    pub start: u64,
    pub days: [bool; 7],
    pub hours: [bool; 24],
    pub minutes: [bool; 60],
}

impl Timetable {
    /// The schedule of a recurrence that counts days or weeks. What it doesn't name is its start's own.
    pub(crate) fn of(recurrence: &Recurrence, is_weekly: bool, start: Ticks) -> Timetable
        ensures value { result ≡ timetable_of recurrence.now is_weekly start }
        ensures interval_from { 1 ≤ result.interval }
        ensures interval_to { result.interval ≤ 9999999 }
    {
        let ticks = start.get();
        let day = ticks / 864_000_000_000;
        let mut days = recurrence.days;
        or_own(&mut days, ((day + 1) % 7) as usize);
        let mut hours = recurrence.hours;
        or_own(&mut hours, (ticks / 36_000_000_000 % 24) as usize);
        let mut minutes = recurrence.minutes;
        or_own(&mut minutes, (ticks / 600_000_000 % 60) as usize);
        Timetable {
            is_weekly,
            interval: recurrence.interval.get(),
            start: if is_weekly { day / 7 } else { day },
            days,
            hours,
            minutes,
        }
    }

    /// The first minute due from one on, in the years 1 to 9999. Each step passes over all that isn't due for one reason:
    /// the days up to the next that counts, a day, an hour or a minute.
    pub(crate) fn next_minute(&self, from: u64) -> Option<u64>
        requires interval_from { 1 ≤ self.now.interval }
        requires interval_to { self.now.interval ≤ 9999999 }
        requires start { IsFromStart self.now (from / 1440) }
        ensures { IsLeastFrom (λ minute. (minute ≤ last_minute) × IsDueMinute self.now minute) from result }
    {
        let mut minute = from;
        while minute <= 5_258_964_959 {
            match self.passed_minute(minute) {
                None => return Some(minute),
                Some(further) => minute = further,
            }
        }
        None
    }

    // From which minute on to look further where a minute isn't due; none where it is.
    fn passed_minute(&self, minute: u64) -> Option<u64>
        requires interval_from { 1 ≤ self.now.interval }
        requires interval_to { self.now.interval ≤ 9999999 }
        requires start { IsFromStart self.now (minute / 1440) }
        requires in_years { minute ≤ last_minute }
        ensures { Passes (IsDueMinute self.now) minute result }
    {
        match self.passed_day(minute / 1440) {
            Some(day) => Some(day * 1440),
            None => self.passed_time(minute),
        }
    }

    // From which day on to look further where a day isn't due; none where it is.
    fn passed_day(&self, day: u64) -> Option<u64>
        requires interval_from { 1 ≤ self.now.interval }
        requires interval_to { self.now.interval ≤ 9999999 }
        requires start { IsFromStart self.now day }
        requires in_years { day ≤ 3652058 }
        ensures passes { Passes (IsDueDay self.now) day result }
        ensures few { IfSome result (λ further. further < 2 ^ 32) }
    {
        if self.is_weekly {
            self.passed_by_weeks(day)
        } else {
            self.passed_by_days(day)
        }
    }

    // The same by the number of days since the start.
    fn passed_by_days(&self, day: u64) -> Option<u64>
        requires interval_from { 1 ≤ self.now.interval }
        requires interval_to { self.now.interval ≤ 9999999 }
        requires start { self.now.start ≤ day }
        requires in_years { day ≤ 3652058 }
        ensures passes { Passes (IsDueByDays self.now) day result }
        ensures few { IfSome result (λ further. further < 2 ^ 32) }
    {
        let next = next_multiple(self.start, self.interval, day);
        if day < next { Some(next) } else { None }
    }

    // The same by the number of weeks since the start, and the day of the week.
    fn passed_by_weeks(&self, day: u64) -> Option<u64>
        requires interval_from { 1 ≤ self.now.interval }
        requires interval_to { self.now.interval ≤ 9999999 }
        requires start { self.now.start ≤ day / 7 }
        requires in_years { day ≤ 3652058 }
        ensures passes { Passes (IsDueByWeeks self.now) day result }
        ensures few { IfSome result (λ further. further < 2 ^ 32) }
    {
        let next = next_multiple(self.start, self.interval, day / 7);
        if day / 7 < next {
            return Some(next * 7);
        }
        if self.days[((day + 1) % 7) as usize] {
            None
        } else {
            Some(day + 1)
        }
    }

    // The same by the time alone: the hour, and the minute in it.
    fn passed_time(&self, minute: u64) -> Option<u64>
        requires in_years { minute ≤ last_minute }
        ensures { Passes (IsDueTime self.now) minute result }
    {
        if !self.hours[(minute / 60 % 24) as usize] {
            return Some((minute / 60 + 1) * 60);
        }
        if !self.minutes[(minute % 60) as usize] {
            return Some(minute + 1);
        }
        None
    }
}

/// The first moment due, from one on, of a recurrence whose schedule is in use.
pub(crate) fn next_scheduled(
    recurrence: &Recurrence,
    is_weekly: bool,
    start: Ticks,
    at: u64,
) -> Option<Ticks>
    requires kind { kind_of recurrence.now ≡ (if is_weekly then Kind.Weeks else Kind.Days) }
    requires start { start ≤ at }
    requires at_to { at ≤ last_tick + 1 }
    ensures { IsLeastFrom (IsDue recurrence.now start) at result }
{
    let timetable = Timetable::of(recurrence, is_weekly, start);
    match timetable.next_minute(at.div_ceil(600_000_000)) {
        Some(minute) => Ticks::of(minute * 600_000_000),
        None => None,
    }
}
