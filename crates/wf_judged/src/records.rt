//! Records that aren't as expected.
ghost use Rattle.std.specs.Prelude.{◌≡◌, ◌<◌, ◌^◌, ◌∷◌, ◌++◌, [], IfOk, Ok, OnOk, codes, length, map, slice_get};
ghost use Rattle.wf_judged.specs.Failures.{if_any, if_done, in_record, in_value, number_words, of_records, which, which_words};
ghost use Rattle.wf_judged.specs.Why.{Differs, Says, why};
ghost use Rattle.wf_json.specs.Read.{read_value};
ghost use Rattle.wf_match.specs.Told.{told};
ghost use Rattle.wf_val.specs.Seen.{tree};

use crate::failures::{Failures, ended_with, other_end};
use crate::lines::{Ended, lines_of, record_lines};
use crate::unanswered::add_unanswered;
use std::alloc::{AllocError, Global};
use wf_json::JsonFault;
use wf_match::{Difference, differences_of_record};
use wf_tap::Failure;
use wf_val::{Text, Val, Vals};

/// Tells where the records aren't as expected, or the command ended otherwise.
pub(crate) fn of_expected(
    alloc: Global,
    expected: &Vals,
    ended: &Ended,
    all: &mut Failures,
) -> Result<(), AllocError>
    ensures { OnOk result (map why all.new ≡ map why all.old ++ if_done expected.now ended.now.status ended.now.text.items) }
{
    if ended.status != 0 {
        let end = ended_with(alloc, ended)?;
        all.push(Failure::Says(other_end(alloc, "records", end.as_str())?))?;
        return Ok(());
    }
    let lines = lines_of(alloc, &ended.text)?;
    let records = record_lines(alloc, &lines)?;
    of_records(alloc, expected, &records, all)
}

#[tactic(auto, unfolding(crate::specs::Failures::number_words))]
fn number_words(alloc: Global, wanted: u64, there: u64) -> Result<Text, AllocError>
    ensures { IfOk result (λ words. words ≡ number_words wanted there) }
{
    let words = format!(in alloc; "{there} records where {wanted} are expected")?;
    Ok(Text::from_string(words))
}

fn of_records(
    alloc: Global,
    expected: &Vals,
    lines: &[&[u8]],
    all: &mut Failures,
) -> Result<(), AllocError>
    ensures { OnOk result (map why all.new ≡ map why all.old ++ of_records expected.now (map (λ l. l.now) lines.now)) }
{
    let there = lines.len() as u64;
    if there != expected.len() {
        all.push(Failure::Says(number_words(alloc, expected.len(), there)?))?;
        return Ok(());
    }
    for (place, line) in lines.iter().enumerate() {
        in_record(alloc, expected, place as u64, line, all)?;
    }
    Ok(())
}

// Tells where the record on a line isn't as expected at its place.
fn in_record(
    alloc: Global,
    expected: &Vals,
    place: u64,
    line: &[u8],
    all: &mut Failures,
) -> Result<(), AllocError>
    ensures { OnOk result (map why all.new
        ≡ map why all.old ++ in_record (length expected.now) place (slice_get expected.now place) line.now) }
{
    match expected.at(place) {
        None => Ok(()),
        Some(value) => {
            let found = in_value(alloc, value, line)?;
            add_if_any(alloc, place, expected.len(), found, all)
        }
    }
}

// Where the record on a line isn't as expected.
fn in_value(alloc: Global, expected: &Val, line: &[u8]) -> Result<Vec<Failure>, AllocError>
    ensures { IfOk result (λ found. map why found.items ≡ in_value (tree expected.now) (read_value line.now)) }
{
    match wf_json::read(alloc, line) {
        Ok(record) => of_value(alloc, expected, &record),
        Err(JsonFault::Memory) => Err(AllocError),
        Err(_) => no_value(alloc),
    }
}

// Where a record isn't as expected, and then which answers were left out.
fn of_value(alloc: Global, expected: &Val, record: &Val) -> Result<Vec<Failure>, AllocError>
    ensures { IfOk result (λ found. map why found.items ≡ in_value (tree expected.now) (Ok (tree record.now))) }
{
    let mut found = all_differ(alloc, differences_of_record(alloc, expected, record)?)?;
    if !found.is_empty() {
        add_unanswered(alloc, record, &mut found)?;
    }
    Ok(found)
}

fn all_differ(alloc: Global, differences: Vec<Difference>) -> Result<Vec<Failure>, AllocError>
    ensures { IfOk result (λ found. map why found.items ≡ map Differs (map told differences.items)) }
{
    let mut found = Vec::new(alloc);
    for difference in differences {
        found.push(Failure::Differs(difference))?;
    }
    Ok(found)
}

fn no_value(alloc: Global) -> Result<Vec<Failure>, AllocError>
    ensures { IfOk result (λ found. map why found.items ≡ Says (codes "a record is no value") ∷ []) }
{
    let mut found = Vec::new(alloc);
    found.push(Failure::Says(Text::of(alloc, "a record is no value")?))?;
    Ok(found)
}

#[tactic(auto, unfolding(crate::specs::Failures::which_words))]
fn which_words(alloc: Global, place: u64, count: u64) -> Result<Text, AllocError>
    requires { place < 2 ^ 63 }
    ensures { IfOk result (λ words. words ≡ which_words place count) }
{
    let number = place + 1;
    Ok(Text::from_string(format!(in alloc; "of record {number} of {count}:")?))
}

// Which record it is, where there are several.
fn add_which(alloc: Global, place: u64, count: u64, all: &mut Failures) -> Result<(), AllocError>
    requires { place < 2 ^ 63 }
    ensures { OnOk result (map why all.new ≡ map why all.old ++ which place count) }
{
    if count > 1 {
        all.push(Failure::Says(which_words(alloc, place, count)?))?;
    }
    Ok(())
}

fn add_if_any(
    alloc: Global,
    place: u64,
    count: u64,
    found: Vec<Failure>,
    all: &mut Failures,
) -> Result<(), AllocError>
    requires { place < 2 ^ 63 }
    ensures { OnOk result (map why all.new ≡ map why all.old ++ if_any (which place count) (map why found.items)) }
{
    if found.is_empty() {
        return Ok(());
    }
    add_which(alloc, place, count, all)?;
    add_all(found, all)
}

fn add_all(found: Vec<Failure>, all: &mut Failures) -> Result<(), AllocError>
    ensures { OnOk result (map why all.new ≡ map why all.old ++ map why found.items) }
{
    for failure in found {
        all.push(failure)?;
    }
    Ok(())
}
