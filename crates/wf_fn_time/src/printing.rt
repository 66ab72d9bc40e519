//! Moments printed by the parts of a pattern.
ghost use Rattle.std.specs.Prelude.{◌≡◌, ◌++◌, ◌<◌, IfOk, OnOk, string_bytes};
ghost use Rattle.wf_fn_time.specs.Printing.{last_digits, short, field_printed, part_printed, printed};

use crate::clock::{Clock, half_day_hour};
use crate::names::{month_abbreviation, month_name, weekday_abbreviation, weekday_name};
use crate::pattern::{Field, Part};
use std::alloc::{AllocError, Global};

/// What the parts print of a moment.
pub fn printed(alloc: Global, clock: &Clock, parts: &[Part]) -> Result<String, AllocError>
    ensures { IfOk result (λ s. string_bytes s ≡ printed clock.now parts.now) }
{
    let mut text = String::new(alloc);
    for part in parts {
        push_part(&mut text, clock, *part)?;
    }
    Ok(text)
}

fn push_part(text: &mut String, clock: &Clock, part: Part) -> Result<(), AllocError>
    ensures { OnOk result (string_bytes text.new ≡ string_bytes text.old ++ part_printed clock.now part) }
{
    match part {
        Part::Run(field) => push_field(text, clock, field),
        Part::Itself(character) => text.push(character),
    }
}

fn push_field(text: &mut String, clock: &Clock, field: Field) -> Result<(), AllocError>
    ensures { OnOk result (string_bytes text.new ≡ string_bytes text.old ++ field_printed clock.now field) }
{
    let Clock {
        day,
        weekday,
        hour,
        minute,
        second,
        fraction,
    } = *clock;
    match field {
        Field::Year => push_digits(text, 4, u32::from(day.year)),
        Field::YearOfCentury => push_digits(text, 2, u32::from(day.year)),
        Field::MonthName => text.push_str(month_name(day.month)),
        Field::MonthAbbreviation => text.push_str(month_abbreviation(day.month)),
        Field::PaddedMonth => push_digits(text, 2, u32::from(day.month)),
        Field::Month => push_short(text, day.month),
        Field::WeekdayName => text.push_str(weekday_name(weekday)),
        Field::WeekdayAbbreviation => text.push_str(weekday_abbreviation(weekday)),
        Field::PaddedDay => push_digits(text, 2, u32::from(day.day)),
        Field::DayOfMonth => push_short(text, day.day),
        Field::PaddedHour => push_digits(text, 2, u32::from(hour)),
        Field::Hour => push_short(text, hour),
        Field::PaddedHalfDayHour => push_digits(text, 2, u32::from(half_day_hour(hour))),
        Field::HalfDayHour => push_short(text, half_day_hour(hour)),
        Field::PaddedMinute => push_digits(text, 2, u32::from(minute)),
        Field::Minute => push_short(text, minute),
        Field::PaddedSecond => push_digits(text, 2, u32::from(second)),
        Field::Second => push_short(text, second),
        Field::Fraction1 => push_digits(text, 1, fraction / 1_000_000),
        Field::Fraction2 => push_digits(text, 2, fraction / 100_000),
        Field::Fraction3 => push_digits(text, 3, fraction / 10_000),
        Field::Fraction4 => push_digits(text, 4, fraction / 1_000),
        Field::Fraction5 => push_digits(text, 5, fraction / 100),
        Field::Fraction6 => push_digits(text, 6, fraction / 10),
        Field::Fraction7 => push_digits(text, 7, fraction),
        Field::HalfDay => text.push_str(if hour < 12 { "AM" } else { "PM" }),
    }
}

// A number below 100 without a zero in front.
fn push_short(text: &mut String, number: u8) -> Result<(), AllocError>
    ensures { OnOk result (string_bytes text.new ≡ string_bytes text.old ++ short number) }
{
    let count = if number < 10 { 1 } else { 2 };
    push_digits(text, count, u32::from(number))
}

// The last digits of a number, so many of them.
pub fn push_digits(text: &mut String, count: u8, number: u32) -> Result<(), AllocError>
    ensures { OnOk result (string_bytes text.new ≡ string_bytes text.old ++ last_digits count number) }
{
    if count == 0 {
        return Ok(());
    }
    push_digits(text, count - 1, number / 10)?;
    text.push((b'0' + (number % 10) as u8) as char)
}
