//! What a test came to.
ghost use Rattle.std.specs.Prelude.{◌≡◌, ◌<◌, ◌^◌, ◌++◌, IfOk, OnOk, Some, map, string_bytes};
ghost use Rattle.wf_judged.specs.Failures.{failures_of, further_words, is_same, of_further, of_peaks, of_wanted, over, peak_words, under};
ghost use Rattle.wf_judged.specs.Failures.{where_words};
ghost use Rattle.wf_judged.specs.Why.{why};

use crate::failures::{Failures, of_accepts, of_refused, unless};
use crate::lines::{Ended, ending_number, is_summary, lines_of, records_text};
use crate::records::of_expected;
use std::alloc::{AllocError, Global};
use wf_suite::{Test, Wanted};
use wf_tap::{Failure, Outcome};
use wf_val::Text;

/// What a test came to whose command ended so, and so under further schedules.
pub fn outcome(
    alloc: Global,
    test: &Test,
    first: &Ended,
    others: &[Ended],
) -> Result<Outcome, AllocError>
    ensures name { IfOk result (λ o. o.name ≡ test.now.name) }
    ensures failures { IfOk result (λ o. map why o.failures ≡ failures_of test.now first.now others.now) }
{
    let mut failures = Failures::new(alloc);
    of_wanted(alloc, &test.wanted, first, &mut failures)?;
    of_peaks(alloc, test.most, "", &first.text, &mut failures)?;
    of_further(alloc, test.most, first, others, &mut failures)?;
    Ok(Outcome {
        name: test.name.copy(alloc)?,
        failures,
    })
}

fn of_wanted(
    alloc: Global,
    wanted: &Wanted,
    ended: &Ended,
    all: &mut Failures,
) -> Result<(), AllocError>
    ensures { OnOk result (map why all.new ≡ map why all.old ++ of_wanted wanted.now ended.now.status ended.now.text.items) }
{
    match wanted {
        Wanted::Accepts(count) => of_accepts(alloc, *count, ended, all),
        Wanted::Refused(line) => of_refused(alloc, line, ended, all),
        Wanted::Records(expected) => of_expected(alloc, expected, ended, all),
    }
}

fn of_peaks(
    alloc: Global,
    most: Option<u64>,
    schedule: &str,
    text: &[u8],
    all: &mut Failures,
) -> Result<(), AllocError>
    ensures { OnOk result (map why all.new ≡ map why all.old ++ of_peaks most schedule.now text.now) }
{
    match most {
        None => Ok(()),
        Some(most) => all_over(alloc, most, schedule, text, all),
    }
}

fn all_over(
    alloc: Global,
    most: u64,
    schedule: &str,
    text: &[u8],
    all: &mut Failures,
) -> Result<(), AllocError>
    ensures { OnOk result (map why all.new ≡ map why all.old ++ of_peaks (Some most) schedule.now text.now) }
{
    let lines = lines_of(alloc, text)?;
    for line in &lines {
        over(alloc, most, schedule, line, all)?;
    }
    Ok(())
}

#[tactic(auto, unfolding(crate::specs::Failures::peak_words))]
fn peak_words(alloc: Global, peak: u64, most: u64, schedule: &str) -> Result<Text, AllocError>
    ensures { IfOk result (λ words. words ≡ peak_words peak most schedule.now) }
{
    let words = format!(in alloc; "the peak is {peak} where {most} is allowed{schedule}")?;
    Ok(Text::from_string(words))
}

// Tells the peak that a line names, where it is over the greatest that is allowed.
fn over(
    alloc: Global,
    most: u64,
    schedule: &str,
    line: &[u8],
    all: &mut Failures,
) -> Result<(), AllocError>
    ensures { OnOk result (map why all.new ≡ map why all.old ++ over most schedule.now line.now) }
{
    let peak = ending_number(line);
    if is_summary(line) && most < peak {
        all.push(Failure::Says(peak_words(alloc, peak, most, schedule)?))?;
    }
    Ok(())
}

fn is_same(alloc: Global, first: &Ended, ended: &Ended) -> Result<bool, AllocError>
    ensures { IfOk result (λ same. same ≡ is_same first.now ended.now) }
{
    let records = records_text(alloc, &first.text)?;
    let others = records_text(alloc, &ended.text)?;
    Ok(first.status == ended.status && records == others)
}

fn of_further(
    alloc: Global,
    most: Option<u64>,
    first: &Ended,
    others: &[Ended],
    all: &mut Failures,
) -> Result<(), AllocError>
    ensures { OnOk result (map why all.new ≡ map why all.old ++ of_further most first.now 0 others.now) }
{
    for (place, ended) in others.iter().enumerate() {
        under(alloc, most, first, place as u64, ended, all)?;
    }
    Ok(())
}

#[tactic(auto, unfolding(crate::specs::Failures::further_words))]
fn further_words(alloc: Global, place: u64) -> Result<Text, AllocError>
    requires { place < 2 ^ 63 }
    ensures { IfOk result (λ words. words ≡ further_words place) }
{
    let number = place + 1;
    let words = format!(in alloc; "other records come under the further schedule {number}")?;
    Ok(Text::from_string(words))
}

// Which further schedule a peak came under, as it is told behind it.
#[tactic(auto, unfolding(crate::specs::Failures::where_words))]
fn where_words(alloc: Global, place: u64) -> Result<String, AllocError>
    requires { place < 2 ^ 63 }
    ensures { IfOk result (λ words. string_bytes words ≡ where_words place) }
{
    let number = place + 1;
    format!(in alloc; ", under the further schedule {number}")
}

fn under(
    alloc: Global,
    most: Option<u64>,
    first: &Ended,
    place: u64,
    ended: &Ended,
    all: &mut Failures,
) -> Result<(), AllocError>
    requires { place < 2 ^ 63 }
    ensures { OnOk result (map why all.new ≡ map why all.old ++ under most first.now place ended.now) }
{
    let is_same = is_same(alloc, first, ended)?;
    unless(is_same, further_words(alloc, place)?, all)?;
    let schedule = where_words(alloc, place)?;
    of_peaks(alloc, most, schedule.as_str(), &ended.text, all)
}
