//! Recurrences, read from the value of their trigger.
ghost use Rattle.std.specs.Prelude.{◌≡◌, ◌≢◌, IfOk, IfErr, Ok, Err, map, option_map};
ghost use Rattle.wf_recur.specs.Reading.{frequency_or_second, interval_or_one, is_recurrence, is_utc, meant, member_of, recurrence_of};
ghost use Rattle.wf_recur.specs.Reading.{start_or_none, text_in, with_member, with_value, with_values};
ghost use Rattle.wf_recur.specs.declared.fault.RecurrenceFault.TheVariants.{Memory};
ghost use Rattle.wf_val.specs.Seen.{tree};

use crate::asked::{frequency_in, interval_in, moment_in, place_in};
use crate::fault::RecurrenceFault;
use crate::frequency::Frequency;
use crate::interval::Interval;
use crate::part::Part;
use crate::recurrence::Recurrence;
use std::alloc::Global;
use wf_fn_time::Ticks;
use wf_places::least_place;
use wf_val::{Text, Val};

impl Recurrence {
    /// The recurrence that a trigger has, or why it has none whose moments can be told. A schedule that doesn't count is
    /// read for its form all the same.
    pub fn read(alloc: Global, trigger: &Val) -> Result<Recurrence, RecurrenceFault>
        ensures recurrence { IfOk result (λ r. recurrence_of (tree trigger.now) ≡ Ok r) }
        ensures fault { IfErr result (λ f. f ≢ Memory → recurrence_of (tree trigger.now) ≡ Err f) }
    {
        if !is_recurrence(trigger.member("type")) {
            return Err(RecurrenceFault::NotRecurrence);
        }
        if let Some(pointer) = least_place(alloc, Part::Trigger, trigger)? {
            let pointer = Text::from_string(pointer);
            return Err(RecurrenceFault::Form { pointer });
        }
        let recurrence = trigger.member("recurrence");
        match text_in(member_of(recurrence, "timeZone")) {
            Some(name) if !is_utc(name) => Err(RecurrenceFault::Zone {
                name: name.copy(alloc)?,
            }),
            _ => Ok(meant(recurrence)),
        }
    }
}

fn is_recurrence(member: Option<&Val>) -> bool
    ensures { result ≡ is_recurrence (option_map (λ v. tree v.now) member.entry) }
{
    match member {
        Some(Val::Text(text)) => text.as_str().eq_ignore_ascii_case("Recurrence"),
        _ => false,
    }
}

fn text_in<'a>(member: Option<&'a Val>) -> Option<&'a Text>
    ensures { option_map (λ t. t.now) result ≡ text_in (option_map (λ v. tree v.now) member.entry) }
{
    match member {
        Some(Val::Text(text)) => Some(text),
        _ => None,
    }
}

fn is_utc(name: &Text) -> bool
    ensures { result ≡ is_utc name.now }
{
    name.as_str().eq_ignore_ascii_case("UTC")
}

fn member_of<'a>(value: Option<&'a Val>, name: &str) -> Option<&'a Val>
    ensures { option_map (λ v. tree v.now) result ≡ member_of name.now (option_map (λ v. tree v.now) value.entry) }
{
    value?.member(name)
}

// What a value of the form means.
fn meant(recurrence: Option<&Val>) -> Recurrence
    ensures { result ≡ meant (option_map (λ v. tree v.now) recurrence.entry) }
{
    let schedule = member_of(recurrence, "schedule");
    let mut hours = [false; 24];
    with_member(Part::Hour, &mut hours, member_of(schedule, "hours"));
    let mut minutes = [false; 60];
    with_member(Part::Minute, &mut minutes, member_of(schedule, "minutes"));
    let mut days = [false; 7];
    with_member(Part::WeekDay, &mut days, member_of(schedule, "weekDays"));
    Recurrence {
        frequency: frequency_or_second(member_of(recurrence, "frequency")),
        interval: interval_or_one(member_of(recurrence, "interval")),
        start: start_or_none(member_of(recurrence, "startTime")),
        hours,
        minutes,
        days,
    }
}

// Puts what a member names into a set: it is one value or a list of such.
#[tactic(auto, using(wf_val::proofs::ValueTreeLemmas::listed))]
fn with_member(part: Part, set: &mut [bool], member: Option<&Val>)
    ensures { set.new ≡ with_member part (option_map (λ v. tree v.now) member.entry) set.old }
{
    match member {
        Some(Val::List(items)) => with_values(part, set, items.as_slice()),
        Some(value) => with_value(part, set, value),
        None => {}
    }
}

fn with_values(part: Part, set: &mut [bool], values: &[Val])
    ensures { set.new ≡ with_values part (map tree values.now) set.old }
{
    for value in values {
        with_value(part, set, value);
    }
}

fn with_value(part: Part, set: &mut [bool], value: &Val)
    ensures { set.new ≡ with_value part (tree value.now) set.old }
{
    match place_in(part, value) {
        Some(place) if place < set.len() as u64 => set[place as usize] = true,
        _ => {}
    }
}

fn frequency_or_second(member: Option<&Val>) -> Frequency
    ensures { result ≡ frequency_or_second (option_map (λ v. tree v.now) member.entry) }
{
    match member {
        Some(value) => frequency_in(value).unwrap_or(Frequency::Second),
        None => Frequency::Second,
    }
}

fn interval_or_one(member: Option<&Val>) -> Interval
    ensures { result ≡ interval_or_one (option_map (λ v. tree v.now) member.entry) }
{
    match member {
        Some(value) => interval_in(value).unwrap_or(Interval::one()),
        None => Interval::one(),
    }
}

fn start_or_none(member: Option<&Val>) -> Option<Ticks>
    ensures { result ≡ start_or_none (option_map (λ v. tree v.now) member.entry) }
{
    moment_in(member?)
}
