//! Answers that a test left out.
ghost use Rattle.std.specs.Prelude.{◌≡◌, ◌++◌, IfOk, OnOk, map, option_map};
ghost use Rattle.wf_judged.specs.Unanswered.{address_in, index_in, indexes_in, indexes_of, is_no_answer, items_in, last_attempt, text_in};
ghost use Rattle.wf_judged.specs.Unanswered.{unanswered, unanswered_in, unanswered_words};
ghost use Rattle.wf_judged.specs.Why.{why};
ghost use Rattle.wf_match.specs.Rows.{rows_of};
ghost use Rattle.wf_val.specs.Seen.{tree};

use std::alloc::{AllocError, Global};
use wf_tap::Failure;
use wf_val::{Address, Indexes, Text, Val};

/// Tells of each row that had no answer which attempt it was.
pub(crate) fn add_unanswered(
    alloc: Global,
    record: &Val,
    all: &mut Vec<Failure>,
) -> Result<(), AllocError>
    ensures { OnOk result (map why all.new.items ≡ map why all.old.items ++ unanswered (tree record.now)) }
{
    for row in rows_of(record) {
        add_row(alloc, row, all)?;
    }
    Ok(())
}

fn rows_of(record: &Val) -> &[Val]
    ensures { map tree result.now ≡ rows_of (tree record.now) }
{
    match items_in(record.member("rows")) {
        Some(rows) => rows,
        None => &[],
    }
}

// Tells of a row, if it had no answer.
fn add_row(alloc: Global, row: &Val, all: &mut Vec<Failure>) -> Result<(), AllocError>
    ensures { OnOk result (map why all.new.items ≡ map why all.old.items ++ unanswered_in (tree row.now)) }
{
    if is_no_answer(row.member("code")) {
        add_last_attempt(
            alloc,
            address_in(alloc, row)?,
            items_in(row.member("attempts")),
            all,
        )?;
    }
    Ok(())
}

fn is_no_answer(code: Option<&Val>) -> bool
    ensures { result ≡ is_no_answer (option_map (λ v. tree v.now) code.entry) }
{
    match code {
        Some(Val::Text(code)) => code.as_str() == "NoAnswer",
        _ => false,
    }
}

fn add_last_attempt(
    alloc: Global,
    address: Option<Address>,
    attempts: Option<&[Val]>,
    all: &mut Vec<Failure>,
) -> Result<(), AllocError>
    ensures { OnOk result (map why all.new.items
        ≡ map why all.old.items ++ last_attempt address (option_map (λ vs. map tree vs.now) attempts.entry)) }
{
    let (Some(address), Some(attempts)) = (address, attempts) else {
        return Ok(());
    };
    all.push(Failure::Says(unanswered_words(alloc, &address, attempts.len() as u64)?))?;
    Ok(())
}

#[tactic(auto, unfolding(crate::specs::Unanswered::unanswered_words))]
fn unanswered_words(alloc: Global, address: &Address, attempt: u64) -> Result<Text, AllocError>
    ensures { IfOk result (λ words. words ≡ unanswered_words address.now attempt) }
{
    let address = address.text(alloc)?;
    let address = wf_json::quoted(alloc, address.as_str())?;
    let address = address.as_str();
    let words = format!(in alloc; "{address} had no answer to attempt {attempt}")?;
    Ok(Text::from_string(words))
}

// The address of a row; none where its name is no text, or its numbers aren't ones of iterations.
fn address_in(alloc: Global, row: &Val) -> Result<Option<Address>, AllocError>
    ensures { IfOk result (λ address. address ≡ address_in (tree row.now)) }
{
    let at = indexes_of(alloc, items_in(row.member("at")))?;
    match (text_in(row.member("name")), at) {
        (Some(name), Some(at)) => Ok(Some(Address {
            name: Text::of(alloc, name)?,
            at,
        })),
        _ => Ok(None),
    }
}

fn text_in<'a>(member: Option<&'a Val>) -> Option<&'a str>
    ensures { option_map (λ s. s.now) result ≡ text_in (option_map (λ v. tree v.now) member.entry) }
{
    match member {
        Some(Val::Text(text)) => Some(text.as_str()),
        _ => None,
    }
}

#[tactic(auto, using(wf_val::proofs::ValueTreeLemmas::listed))]
fn items_in<'a>(member: Option<&'a Val>) -> Option<&'a [Val]>
    ensures { option_map (λ vs. map tree vs.now) result ≡ items_in (option_map (λ v. tree v.now) member.entry) }
{
    match member {
        Some(Val::List(items)) => Some(items.as_slice()),
        _ => None,
    }
}

fn indexes_of(alloc: Global, values: Option<&[Val]>) -> Result<Option<Indexes>, AllocError>
    ensures { IfOk result (λ at. at ≡ indexes_of (option_map (λ vs. map tree vs.now) values.entry)) }
{
    match values {
        Some(values) => indexes_in(alloc, values),
        None => Ok(None),
    }
}

// The numbers that values are, if each is one.
fn indexes_in(alloc: Global, values: &[Val]) -> Result<Option<Indexes>, AllocError>
    ensures { IfOk result (λ at. at ≡ indexes_in (map tree values.now)) }
{
    let mut at = Indexes::new(alloc);
    for value in values {
        match index_in(value) {
            Some(index) => at.push(index)?,
            None => return Ok(None),
        }
    }
    Ok(Some(at))
}

fn index_in(value: &Val) -> Option<u64>
    ensures { result ≡ index_in (tree value.now) }
{
    match value {
        Val::Int(n) if *n >= 0 => Some(*n as u64),
        _ => None,
    }
}
