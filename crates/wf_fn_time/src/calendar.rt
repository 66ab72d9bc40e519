//! Days of the calendar.
ghost use Rattle.std.specs.Prelude.{◌≡◌, ◌≤◌, ◌≤ℤ◌, pos, ◌+ℤ◌, min, true};
ghost use Rattle.jiff_core.specs.Calendar.{days_in_month};
ghost use Rattle.wf_fn_time.specs.Calendar.{day_at, date_day, day_number, is_day, place_in_year};

use jiff_core::civil::{self, Date};

/// A day of the calendar, of a year from 1 to 9999; months and days count from 1.
#[derive(Clone, Copy, Debug)]
pub struct Day {
    pub year: u16,
    pub month: u8,
    pub day: u8,
}

/// Whether the calendar has this day.
pub fn is_day(day: Day) -> bool
    ensures { result ≡ is_day day }
{
    let Day { year, month, day } = day;
    if year < 1 || year > 9999 || month < 1 || month > 12 || day < 1 {
        return false;
    }
    day <= civil::days_in_month(year as i16, month)
}

/// The day that is so many days after 1 January of the year 1.
pub fn day_at(days: u64) -> Day
    requires { days ≤ 3652058 }
    ensures value { result ≡ day_at days }
    ensures in_calendar { is_day result ≡ true }
    ensures counted { day_number result ≡ days }
{
    let date = date_at(days);
    Day {
        year: date.year.unsigned_abs(),
        month: date.month,
        day: date.day,
    }
}

/// How many days a day is after 1 January of the year 1. A day behind the end of its month is the month's last.
pub fn day_number(year: u16, month: u8, day: u8) -> u64
    requires year_from { 1 ≤ year }
    requires year_to { year ≤ 9999 }
    requires month_from { 1 ≤ month }
    requires month_to { month ≤ 12 }
    requires day_from { 1 ≤ day }
    ensures value { result ≡ day_number (record { year = year; month = month; day = min day (days_in_month (pos year) month) }) }
    ensures in_range { result ≤ 3652058 }
{
    let date = Date::constrain(year as i16, month, day);
    date.days_since_min() as u64 - 3_652_425
}

/// The place in its year, from 1, of the day that is so many days after 1 January of the year 1.
pub fn day_of_year(days: u64) -> u16
    requires { days ≤ 3652058 }
    ensures { result ≡ place_in_year (day_at days) }
{
    date_at(days).day_of_year()
}

// The date that is so many days after 1 January of the year 1.
fn date_at(days: u64) -> Date
    requires { days ≤ 3652058 }
    ensures value { day_at days ≡ date_day result }
    ensures year { pos 1 ≤ℤ result.year }
    ensures counted { day_number (date_day result) ≡ days }
{
    match Date::from_unix_epoch_day(epoch_days(days)) {
        Ok(date) => date,
        Err(_) => unreachable!(),
    }
}

// The same day, counted from 1970.
fn epoch_days(days: u64) -> i64
    requires { days ≤ 3652058 }
    ensures { result +ℤ pos 719162 ≡ pos days }
{
    days as i64 - 719_162
}
