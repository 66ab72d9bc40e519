//! What a member of a record says. What isn't of the form has been refused before.
ghost use Rattle.std.specs.Prelude.{◌≡◌, IfOk, Some, map, option_map, replicate};
ghost use Rattle.wf_record_form.specs.Reading.{attempts_in, digest_in, index_in, items_or_none, members_or_none, run_status_of_word};
ghost use Rattle.wf_record_form.specs.Reading.{status_of_word, text_or_empty, try_in, try_of_word, value_or_null};
ghost use Rattle.wf_val.specs.Seen.{tree};
ghost use Rattle.wf_val.specs.ValueTree as value;

use hex::FromHex;
use std::alloc::{AllocError, Global};
use wf_record::{RunStatus, Status, Tries, Try};
use wf_val::{Digest, Fields, Indexes, Text, Val};

pub(crate) fn value_or_null(alloc: Global, member: Option<&Val>) -> Result<Val, AllocError>
    ensures { IfOk result (λ v. tree v ≡ value_or_null (option_map (λ v. tree v.now) member.entry)) }
{
    match member {
        Some(value) => Ok(value.copy(alloc)?),
        None => Ok(Val::Null),
    }
}

pub(crate) fn text_or_empty<'a>(member: Option<&'a Val>) -> &'a str
    ensures { result.now ≡ text_or_empty (option_map (λ v. tree v.now) member.entry) }
{
    match member {
        Some(Val::Text(text)) => text.as_str(),
        _ => "",
    }
}

#[tactic(auto, using(wf_val::proofs::ValueTreeLemmas::listed))]
pub(crate) fn items_or_none<'a>(member: Option<&'a Val>) -> &'a [Val]
    ensures { map tree result.now ≡ items_or_none (option_map (λ v. tree v.now) member.entry) }
{
    match member {
        Some(Val::List(items)) => items.as_slice(),
        _ => &[],
    }
}

#[tactic(auto, using(wf_val::proofs::ValueTreeLemmas::listed))]
pub(crate) fn members_or_none(alloc: Global, member: Option<&Val>) -> Result<Fields, AllocError>
    ensures { IfOk result (λ f. f ≡ members_or_none (option_map (λ v. tree v.now) member.entry)) }
{
    match member {
        Some(Val::Obj(fields)) => Ok(fields.copy(alloc)?),
        _ => Ok(Fields::new(alloc)),
    }
}

pub(crate) fn digest_in(member: Option<&Val>) -> Digest
    ensures { result.bytes ≡ digest_in (option_map (λ v. tree v.now) member.entry) }
{
    match member {
        Some(Val::Text(text)) => digest_of(text.as_str()),
        _ => Digest { bytes: [0; 32] },
    }
}

fn digest_of(digits: &str) -> Digest
    ensures { result.bytes ≡ digest_in (Some (value.text digits.now)) }
{
    match <[u8; 32] as FromHex>::from_hex(digits) {
        Ok(bytes) => Digest { bytes },
        Err(_) => Digest { bytes: [0; 32] },
    }
}

pub(crate) fn status_of_word(word: &str) -> Status
    ensures { result ≡ status_of_word word.now }
{
    match word {
        "Succeeded" => Status::Succeeded,
        "Failed" => Status::Failed,
        "Skipped" => Status::Skipped,
        "TimedOut" => Status::TimedOut,
        _ => Status::Cancelled,
    }
}

pub(crate) fn run_status_of_word(word: &str) -> RunStatus
    ensures { result ≡ run_status_of_word word.now }
{
    match word {
        "Succeeded" => RunStatus::Succeeded,
        "Failed" => RunStatus::Failed,
        _ => RunStatus::Cancelled,
    }
}

pub(crate) fn indexes_in(alloc: Global, values: &[Val]) -> Result<Indexes, AllocError>
    ensures { IfOk result (λ at. at ≡ map index_in (map tree values.now)) }
{
    let mut at = Indexes::new(alloc);
    for value in values {
        at.push(index_in(value))?;
    }
    Ok(at)
}

fn index_in(value: &Val) -> u64
    ensures { result ≡ index_in (tree value.now) }
{
    match value {
        Val::Int(n) if *n >= 0 => *n as u64,
        _ => 0,
    }
}

/// Attempts. A number of them, as form 1 has it, says of none what it came to.
#[tactic(auto, using(wf_val::proofs::ValueTreeLemmas::listed))]
pub(crate) fn attempts_in(alloc: Global, member: Option<&Val>) -> Result<Tries, AllocError>
    ensures { IfOk result (λ ts. ts ≡ attempts_in (option_map (λ v. tree v.now) member.entry)) }
{
    match member {
        Some(Val::List(items)) => {
            let tries = tries_in(alloc, items.as_slice())?;
            Ok(tries)
        }
        Some(Val::Int(n)) if *n >= 0 => {
            let tries = unknown(alloc, (*n as u64).min(u32::MAX as u64) as u32)?;
            Ok(tries)
        }
        _ => Ok(Tries::new(alloc)),
    }
}

fn tries_in(alloc: Global, values: &[Val]) -> Result<Tries, AllocError>
    ensures { IfOk result (λ ts. ts ≡ map try_in (map tree values.now)) }
{
    let mut tries = Tries::new(alloc);
    for value in values {
        tries.push(try_in(value))?;
    }
    Ok(tries)
}

// So many attempts of which nothing else is known.
#[tactic(auto, using(std::proofs::lemmas::List::replicate_more))]
fn unknown(alloc: Global, count: u32) -> Result<Tries, AllocError>
    ensures { IfOk result (λ ts. ts ≡ replicate count Try.Unknown) }
{
    let mut tries = Tries::new(alloc);
    for _ in 0..count {
        tries.push(Try::Unknown)?;
    }
    Ok(tries)
}

fn try_in(value: &Val) -> Try
    ensures { result ≡ try_in (tree value.now) }
{
    match value {
        Val::Int(n) if *n >= 0 => Try::Code((*n as u64).min(u32::MAX as u64) as u32),
        Val::Text(text) => try_of_word(text.as_str()),
        _ => Try::Unknown,
    }
}

fn try_of_word(word: &str) -> Try
    ensures { result ≡ try_of_word word.now }
{
    match word {
        "noConnection" => Try::NoConnection,
        "timedOut" => Try::TimedOut,
        "noAnswer" => Try::NoAnswer,
        _ => Try::Unknown,
    }
}
