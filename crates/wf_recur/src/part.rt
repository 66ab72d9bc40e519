//! The form of a trigger's recurrence.
ghost use Rattle.std.specs.Prelude.{◌≡◌};
ghost use Rattle.wf_recur.specs.RecurrenceForm.{recurrence_form, recurrence_member, schedule_member};

use crate::asked::{frequency_in, interval_in, is_list, is_object, is_text, moment_in, place_in};
use std::alloc::{AllocError, Global};
use wf_places::Form;
use wf_val::Val;

/// What a value in a trigger stands for.
#[derive(Clone, Copy, PartialEq, Eq)]
pub(crate) enum Part {
    /// The trigger.
    Trigger,
    Recurrence,
    Frequency,
    Interval,
    StartTime,
    TimeZone,
    Schedule,
    /// An hour, or hours.
    Hours,
    Hour,
    Minutes,
    Minute,
    WeekDays,
    WeekDay,
}

impl Form for Part {
    ghost table = { recurrence_form };

    fn is_right(self, value: &Val) -> bool {
        match self {
            Part::Trigger => true,
            Part::Recurrence | Part::Schedule => is_object(value),
            Part::Frequency => frequency_in(value).is_some(),
            Part::Interval => interval_in(value).is_some(),
            Part::StartTime => moment_in(value).is_some(),
            Part::TimeZone => is_text(value),
            Part::Hours => is_list(value) || place_in(Part::Hour, value).is_some(),
            Part::Minutes => is_list(value) || place_in(Part::Minute, value).is_some(),
            Part::WeekDays => is_list(value) || place_in(Part::WeekDay, value).is_some(),
            Part::Hour | Part::Minute | Part::WeekDay => place_in(self, value).is_some(),
        }
    }

    fn needed(self) -> &'static [&'static str] {
        match self {
            Part::Trigger => &["recurrence"],
            Part::Recurrence => &["frequency", "interval"],
            _ => &[],
        }
    }

    fn is_closed(self) -> bool {
        false
    }

    fn member(self, name: &str) -> Option<Part> {
        match self {
            Part::Trigger if name == "recurrence" => Some(Part::Recurrence),
            Part::Recurrence => recurrence_member(name),
            Part::Schedule => schedule_member(name),
            _ => None,
        }
    }

    fn item(self) -> Option<Part> {
        match self {
            Part::Hours => Some(Part::Hour),
            Part::Minutes => Some(Part::Minute),
            Part::WeekDays => Some(Part::WeekDay),
            _ => None,
        }
    }

    fn beside(self, _alloc: Global, _value: &Val) -> Result<Option<String>, AllocError> {
        Ok(None)
    }
}

fn recurrence_member(name: &str) -> Option<Part>
    ensures { result ≡ recurrence_member name.now }
{
    match name {
        "frequency" => Some(Part::Frequency),
        "interval" => Some(Part::Interval),
        "schedule" => Some(Part::Schedule),
        "startTime" => Some(Part::StartTime),
        "timeZone" => Some(Part::TimeZone),
        _ => None,
    }
}

fn schedule_member(name: &str) -> Option<Part>
    ensures { result ≡ schedule_member name.now }
{
    match name {
        "hours" => Some(Part::Hours),
        "minutes" => Some(Part::Minutes),
        "weekDays" => Some(Part::WeekDays),
        _ => None,
    }
}
