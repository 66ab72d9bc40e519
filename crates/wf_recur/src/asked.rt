//! What a value in a recurrence says; none where it isn't what is asked for.
ghost use Rattle.std.specs.Prelude.{◌≡◌};
ghost use Rattle.wf_recur.specs.Asked.{below, frequency_in, interval_in, is_list, is_text, moment_in, number_in, place_in, short_number};
ghost use Rattle.wf_recur.specs.Asked.{weekday_in, weekday_of};
ghost use Rattle.wf_val.specs.Get.{is_object};
ghost use Rattle.wf_val.specs.Seen.{tree};

use crate::frequency::Frequency;
use crate::interval::Interval;
use crate::part::Part;
use wf_fn_time::{Ticks, read_time};
use wf_val::Val;

pub(crate) fn is_object(value: &Val) -> bool
    ensures { result ≡ is_object (tree value.now) }
{
    matches!(value, Val::Obj(_))
}

pub(crate) fn is_list(value: &Val) -> bool
    ensures { result ≡ is_list (tree value.now) }
{
    matches!(value, Val::List(_))
}

pub(crate) fn is_text(value: &Val) -> bool
    ensures { result ≡ is_text (tree value.now) }
{
    matches!(value, Val::Text(_))
}

pub(crate) fn frequency_in(value: &Val) -> Option<Frequency>
    ensures { result ≡ frequency_in (tree value.now) }
{
    match value {
        Val::Text(text) => Frequency::of(text.as_str()),
        _ => None,
    }
}

pub(crate) fn interval_in(value: &Val) -> Option<Interval>
    ensures { result ≡ interval_in (tree value.now) }
{
    match value {
        Val::Int(n) => Interval::of(*n),
        _ => None,
    }
}

/// The moment of a timestamp.
pub(crate) fn moment_in(value: &Val) -> Option<Ticks>
    ensures { result ≡ moment_in (tree value.now) }
{
    match value {
        Val::Text(text) => read_time(text.as_str()),
        _ => None,
    }
}

/// The place of an hour in the day, a minute in the hour or a weekday in the week.
pub(crate) fn place_in(part: Part, value: &Val) -> Option<u64>
    ensures { result ≡ place_in part (tree value.now) }
{
    match part {
        Part::Hour => below(24, number_in(value)),
        Part::Minute => below(60, number_in(value)),
        Part::WeekDay => weekday_in(value),
        _ => None,
    }
}

fn below(end: u64, number: Option<u64>) -> Option<u64>
    ensures { result ≡ below end number }
{
    match number {
        Some(n) if n < end => Some(n),
        _ => None,
    }
}

// A number, or a text of one or two digits.
fn number_in(value: &Val) -> Option<u64>
    ensures { result ≡ number_in (tree value.now) }
{
    match value {
        Val::Int(n) if *n >= 0 => Some(*n as u64),
        Val::Text(text) => short_number(text.as_str().as_bytes()),
        _ => None,
    }
}

fn short_number(bytes: &[u8]) -> Option<u64>
    ensures { result ≡ short_number bytes.now }
{
    match bytes {
        [ones] if ones.is_ascii_digit() => Some(u64::from(*ones - b'0')),
        [tens, ones] if tens.is_ascii_digit() && ones.is_ascii_digit() => {
            Some(u64::from(*tens - b'0') * 10 + u64::from(*ones - b'0'))
        }
        _ => None,
    }
}

fn weekday_in(value: &Val) -> Option<u64>
    ensures { result ≡ weekday_in (tree value.now) }
{
    match value {
        Val::Text(text) => weekday_of(text.as_str()),
        _ => None,
    }
}

// The weekday of an English name, in any case of its letters.
fn weekday_of(name: &str) -> Option<u64>
    ensures { result ≡ weekday_of name.now }
{
    if name.eq_ignore_ascii_case("Sunday") {
        Some(0)
    } else if name.eq_ignore_ascii_case("Monday") {
        Some(1)
    } else if name.eq_ignore_ascii_case("Tuesday") {
        Some(2)
    } else if name.eq_ignore_ascii_case("Wednesday") {
        Some(3)
    } else if name.eq_ignore_ascii_case("Thursday") {
        Some(4)
    } else if name.eq_ignore_ascii_case("Friday") {
        Some(5)
    } else if name.eq_ignore_ascii_case("Saturday") {
        Some(6)
    } else {
        None
    }
}
