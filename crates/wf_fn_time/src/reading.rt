//! Reading timestamps.
ghost use Rattle.std.specs.Prelude.{◌≡◌, ◌+◌, ◌*◌, ◌<◌, ◌≤◌, ◌∷◌, [], true, ◌^◌, option_map, IfSome};
ghost use Rattle.wf_fn_time.specs.Reading.{digits, behind, read_day, read_minutes, read_second, read_fraction, weighed, read_clock};
ghost use Rattle.wf_fn_time.specs.Calendar.{is_day};
ghost use Rattle.wf_fn_time.specs.Reading.{ended, offset_of, read_offset, read_time_of_day, at_offset, read_time};

use crate::calendar::{Day, day_number, is_day};
use crate::ticks::Ticks;

// How many minutes clocks are ahead of UTC, or behind it.
#[derive(Clone, Copy, Debug)]
enum Offset {
    East(u64),
    West(u64),
}

/// The moment that a timestamp writes (ISO 8601): `yyyy-MM-dd`, then perhaps `T` and `HH:mm`, then perhaps `:ss` with
/// 1 to 7 digits behind a point, then perhaps `Z` or an offset `+hh:mm` or `-hh:mm`, of at most 14:59. None for any
/// other text, and where the moment in UTC isn't in the years 1 to 9999.
pub fn read_time(text: &str) -> Option<Ticks>
    ensures { result ≡ read_time text.now }
{
    let (day, rest) = read_day(text.as_bytes())?;
    let (clock, offset) = read_time_of_day(rest)?;
    let days = day_number(day.year, day.month, day.day);
    at_offset(days * 864_000_000_000 + clock, offset)
}

// The moment in UTC of a local one.
fn at_offset(local: u64, offset: Offset) -> Option<Ticks>
    requires { local < 2 ^ 63 }
    ensures { result ≡ at_offset local offset }
{
    match offset {
        Offset::East(minutes) => Ticks::of(local.checked_sub(minutes.checked_mul(600_000_000)?)?),
        Offset::West(minutes) => Ticks::of(local.checked_add(minutes.checked_mul(600_000_000)?)?),
    }
}

// A date as `yyyy-MM-dd`, and what is behind it.
fn read_day(bytes: &[u8]) -> Option<(Day, &[u8])>
    ensures value { option_map (λ r. (r.0, r.1.now)) result ≡ read_day bytes.now }
    ensures in_calendar { IfSome result (λ r. is_day r.0 ≡ true) }
{
    let (year, rest) = four_digits(bytes)?;
    let rest = behind(b'-', rest)?;
    let (month, rest) = two_digits(rest)?;
    let rest = behind(b'-', rest)?;
    let (day, rest) = two_digits(rest)?;
    let day = Day {
        year: year as u16,
        month: month as u8,
        day: day as u8,
    };
    if is_day(day) { Some((day, rest)) } else { None }
}

// The time of the day in ticks, and the offset, behind a date.
fn read_time_of_day(bytes: &[u8]) -> Option<(u64, Offset)>
    ensures value { result ≡ read_time_of_day bytes.now }
    ensures small { IfSome result (λ r. r.0 < 2000000000000) }
{
    match bytes.split_first() {
        None => Some((0, Offset::East(0))),
        Some((first, rest)) => {
            if *first != b'T' {
                return None;
            }
            let (clock, rest) = read_clock(rest)?;
            let offset = read_offset(rest)?;
            Some((clock, offset))
        }
    }
}

// A time of the day in ticks, and what is behind it.
fn read_clock(bytes: &[u8]) -> Option<(u64, &[u8])>
    ensures value { option_map (λ r. (r.0, r.1.now)) result ≡ read_clock bytes.now }
    ensures small { IfSome result (λ r. r.0 < 2000000000000) }
{
    let (minutes, rest) = read_minutes(23, bytes)?;
    let (second, rest) = read_second(rest)?;
    Some((minutes * 600_000_000 + second, rest))
}

// The offset with which the text ends; without one it is that of UTC.
fn read_offset(bytes: &[u8]) -> Option<Offset>
    ensures { result ≡ read_offset bytes.now }
{
    match bytes.split_first() {
        None => Some(Offset::East(0)),
        Some((b'Z', rest)) => ended(Offset::East(0), rest),
        Some((b'+', rest)) => {
            let (minutes, rest) = read_minutes(14, rest)?;
            ended(Offset::East(minutes), rest)
        }
        Some((b'-', rest)) => {
            let (minutes, rest) = read_minutes(14, rest)?;
            ended(Offset::West(minutes), rest)
        }
        Some(_) => None,
    }
}

// The offset, where the text ends.
fn ended(offset: Offset, bytes: &[u8]) -> Option<Offset>
    ensures { result ≡ ended offset bytes.now }
{
    if bytes.is_empty() { Some(offset) } else { None }
}

// A number of two digits, and what is behind them.
fn two_digits(bytes: &[u8]) -> Option<(u64, &[u8])>
    ensures value { option_map (λ r. (r.0, r.1.now)) result ≡ digits 2 0 bytes.now }
    ensures small { IfSome result (λ r. r.0 < 100) }
{
    let (tens, rest) = digit(bytes)?;
    let (ones, rest) = digit(rest)?;
    Some((tens * 10 + ones, rest))
}

// A number of four digits, and what is behind them.
fn four_digits(bytes: &[u8]) -> Option<(u64, &[u8])>
    ensures value { option_map (λ r. (r.0, r.1.now)) result ≡ digits 4 0 bytes.now }
    ensures small { IfSome result (λ r. r.0 < 10000) }
{
    let (high, rest) = two_digits(bytes)?;
    let (low, rest) = two_digits(rest)?;
    Some((high * 100 + low, rest))
}

// One digit.
fn digit(bytes: &[u8]) -> Option<(u64, &[u8])>
    ensures value { option_map (λ r. (r.0, r.1.now)) result ≡ digits 1 0 bytes.now }
    ensures small { IfSome result (λ r. r.0 < 10) }
{
    match bytes.split_first() {
        Some((first, rest)) if first.is_ascii_digit() => Some(((*first - b'0') as u64, rest)),
        _ => None,
    }
}

// What is behind a character.
fn behind(mark: u8, bytes: &[u8]) -> Option<&[u8]>
    ensures { option_map (λ r. r.now) result ≡ behind mark bytes.now }
{
    match bytes.split_first() {
        Some((first, rest)) if *first == mark => Some(rest),
        _ => None,
    }
}

// Hours up to a limit and minutes, in minutes.
fn read_minutes(limit: u64, bytes: &[u8]) -> Option<(u64, &[u8])>
    requires { limit < 100 }
    ensures value { option_map (λ r. (r.0, r.1.now)) result ≡ read_minutes limit bytes.now }
    ensures small { IfSome result (λ r. r.0 ≤ limit * 60 + 59) }
{
    let (hours, rest) = two_digits(bytes)?;
    let rest = behind(b':', rest)?;
    let (minutes, rest) = two_digits(rest)?;
    if hours > limit || minutes > 59 {
        return None;
    }
    Some((hours * 60 + minutes, rest))
}

// A fraction of a second in ticks: one digit, and up to six more.
fn read_fraction(bytes: &[u8]) -> Option<(u64, &[u8])>
    ensures value { option_map (λ r. (r.0, r.1.now)) result ≡ read_fraction bytes.now }
    ensures small { IfSome result (λ r. r.0 < 16000000) }
{
    let (first, rest) = digit(bytes)?;
    Some(weighed(first * 1_000_000, rest))
}

// Up to six more digits.
fn weighed(first: u64, bytes: &[u8]) -> (u64, &[u8])
    requires { first < 10000000 }
    ensures value { (result.0, result.1.now) ≡ weighed (100000 ∷ 10000 ∷ 1000 ∷ 100 ∷ 10 ∷ 1 ∷ []) first bytes.now }
    ensures small { result.0 < 16000000 }
{
    let mut value = first;
    let mut rest = bytes;
    for weight in [100_000, 10_000, 1_000, 100, 10, 1] {
        match digit(rest) {
            None => return (value, rest),
            Some((digit, behind)) => {
                value += weight * digit;
                rest = behind;
            }
        }
    }
    (value, rest)
}

// Seconds with their fraction, in ticks; none where no colon follows.
fn read_second(bytes: &[u8]) -> Option<(u64, &[u8])>
    ensures value { option_map (λ r. (r.0, r.1.now)) result ≡ read_second bytes.now }
    ensures small { IfSome result (λ r. r.0 < 700000000) }
{
    let Some(rest) = behind(b':', bytes) else {
        return Some((0, bytes));
    };
    let (seconds, rest) = two_digits(rest)?;
    if seconds > 59 {
        return None;
    }
    match behind(b'.', rest) {
        None => Some((seconds * 10_000_000, rest)),
        Some(rest) => {
            let (fraction, rest) = read_fraction(rest)?;
            Some((seconds * 10_000_000 + fraction, rest))
        }
    }
}
