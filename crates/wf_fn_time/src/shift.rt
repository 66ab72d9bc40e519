//! How far a moment is moved.
ghost use Rattle.std.specs.Prelude.{◌≡◌, ◌≤◌, ◌<◌, IfSome};
ghost use Rattle.wf_fn_time.specs.Moving.{shift_of, opposite, moved, month_in_years, month_moved, at_month, moved_by_months, month_number, unit_of, shifted};

use crate::calendar::{Day, day_at, day_number};
use crate::ticks::Ticks;

/// So many units of time, later or back.
#[derive(Clone, Copy, Debug)]
pub struct Shift {
    pub back: bool,
    pub count: u64,
}

/// A unit of time.
#[derive(Clone, Copy, Debug)]
pub enum TimeUnit {
    Second,
    Minute,
    Hour,
    Day,
    Week,
    Month,
    Year,
}

impl Shift {
    /// By a number of units; one below 0 moves back.
    pub fn of(number: i64) -> Shift
        ensures { result ≡ shift_of number }
    {
        Shift {
            back: number < 0,
            count: number.unsigned_abs(),
        }
    }

    /// Just as far the other way.
    pub fn opposite(self) -> Shift
        ensures { result ≡ opposite self }
    {
        Shift {
            back: !self.back,
            count: self.count,
        }
    }
}

impl TimeUnit {
    /// The unit of this name, in any case of its letters.
    pub fn of(name: &str) -> Option<TimeUnit>
        ensures { result ≡ unit_of name.now }
    {
        if name.eq_ignore_ascii_case("Second") {
            Some(TimeUnit::Second)
        } else if name.eq_ignore_ascii_case("Minute") {
            Some(TimeUnit::Minute)
        } else if name.eq_ignore_ascii_case("Hour") {
            Some(TimeUnit::Hour)
        } else if name.eq_ignore_ascii_case("Day") {
            Some(TimeUnit::Day)
        } else if name.eq_ignore_ascii_case("Week") {
            Some(TimeUnit::Week)
        } else if name.eq_ignore_ascii_case("Month") {
            Some(TimeUnit::Month)
        } else if name.eq_ignore_ascii_case("Year") {
            Some(TimeUnit::Year)
        } else {
            None
        }
    }

    /// A moment moved by so many units; none outside the years 1 to 9999.
    pub fn shifted(self, shift: Shift, moment: Ticks) -> Option<Ticks>
        ensures { result ≡ shifted self shift moment }
    {
        match self {
            TimeUnit::Second => moved(10_000_000, shift, moment),
            TimeUnit::Minute => moved(600_000_000, shift, moment),
            TimeUnit::Hour => moved(36_000_000_000, shift, moment),
            TimeUnit::Day => moved(864_000_000_000, shift, moment),
            TimeUnit::Week => moved(6_048_000_000_000, shift, moment),
            TimeUnit::Month => moved_by_months(1, shift, moment),
            TimeUnit::Year => moved_by_months(12, shift, moment),
        }
    }
}

// A moment moved by so many units of so many ticks.
fn moved(unit: u64, shift: Shift, moment: Ticks) -> Option<Ticks>
    ensures { result ≡ moved unit shift moment }
{
    let by = shift.count.checked_mul(unit)?;
    if shift.back {
        moment.earlier(by)
    } else {
        moment.later(by)
    }
}

// A moment moved by so many times so many months.
fn moved_by_months(months: u64, shift: Shift, moment: Ticks) -> Option<Ticks>
    ensures { result ≡ moved_by_months months shift moment }
{
    let day = day_at(moment.get() / 864_000_000_000);
    let month = month_moved(months, shift, month_number(day))?;
    Some(at_month(moment, day.day, month))
}

// The months from January of the year 0 to the month of a day.
fn month_number(day: Day) -> u64
    ensures { result ≡ month_number day }
{
    u64::from(day.year) * 12 + u64::from(day.month.saturating_sub(1))
}

// So many times so many months later, or earlier.
fn month_moved(months: u64, shift: Shift, from: u64) -> Option<u64>
    ensures value { result ≡ month_moved months shift from }
    ensures in_years { IfSome result (λ k. (12 ≤ k) × (k < 120000)) }
{
    let by = shift.count.checked_mul(months)?;
    if shift.back {
        month_in_years(from.checked_sub(by)?)
    } else {
        month_in_years(from.checked_add(by)?)
    }
}

// A month of the years 1 to 9999.
fn month_in_years(month: u64) -> Option<u64>
    ensures value { result ≡ month_in_years month }
    ensures in_years { IfSome result (λ k. (12 ≤ k) × (k < 120000)) }
{
    if month >= 12 && month < 120_000 {
        Some(month)
    } else {
        None
    }
}

// The same time on the same day of another month, or on its last.
fn at_month(moment: Ticks, day: u8, month: u64) -> Ticks
    requires day_from { 1 ≤ day }
    requires month_from { 12 ≤ month }
    requires month_below { month < 120000 }
    ensures { result ≡ at_month moment day month }
{
    let days = day_number((month / 12) as u16, (month % 12 + 1) as u8, day);
    Ticks::on_day(days, moment.get() % 864_000_000_000)
}
