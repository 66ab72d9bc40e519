//! What a member of a test says, and what an absent one stands for. What isn't of the form has been refused before.
ghost use Rattle.std.specs.Prelude.{◌≡◌, [], ◌∷◌, IfOk, map, option_map};
ghost use Rattle.wf_suite.specs.Members.{given_of, items_or_none, most_in, name_of, names_of, number_or_none, number_or_zero, records_of};
ghost use Rattle.wf_suite.specs.Members.{text_or_empty, text_or_none, wanted_of};
ghost use Rattle.wf_val.specs.Seen.{tree};

use crate::suite::{Given, Names, Wanted};
use std::alloc::{AllocError, Global};
use wf_val::{Text, Val, Vals};

/// A text; an absent one is empty.
pub(crate) fn text_or_empty<'a>(member: Option<&'a Val>) -> &'a str
    ensures { result.now ≡ text_or_empty (option_map (λ v. tree v.now) member.entry) }
{
    match member {
        Some(Val::Text(text)) => text.as_str(),
        _ => "",
    }
}

/// A text that may be absent.
pub(crate) fn text_or_none(alloc: Global, member: Option<&Val>) -> Result<Option<Text>, AllocError>
    ensures { IfOk result (λ t. t ≡ text_or_none (option_map (λ v. tree v.now) member.entry)) }
{
    match member {
        Some(Val::Text(text)) => Ok(Some(text.copy(alloc)?)),
        _ => Ok(None),
    }
}

/// A number from 0 that may be absent.
pub(crate) fn number_or_none(member: Option<&Val>) -> Option<u64>
    ensures { result ≡ number_or_none (option_map (λ v. tree v.now) member.entry) }
{
    match member {
        Some(Val::Int(n)) if *n >= 0 => Some(*n as u64),
        _ => None,
    }
}

/// A number from 0; an absent one is 0.
pub(crate) fn number_or_zero(member: Option<&Val>) -> u64
    ensures { result ≡ number_or_zero (option_map (λ v. tree v.now) member.entry) }
{
    match member {
        Some(Val::Int(n)) if *n >= 0 => *n as u64,
        _ => 0,
    }
}

/// The items of a list; an absent one has none.
#[tactic(auto, using(wf_val::proofs::ValueTreeLemmas::listed))]
pub(crate) fn items_or_none<'a>(member: Option<&'a Val>) -> &'a [Val]
    ensures { map tree result.now ≡ items_or_none (option_map (λ v. tree v.now) member.entry) }
{
    match member {
        Some(Val::List(items)) => items.as_slice(),
        _ => &[],
    }
}

/// The names in a list.
pub(crate) fn names_of(alloc: Global, member: Option<&Val>) -> Result<Names, AllocError>
    ensures { IfOk result (λ names. names ≡ names_of (option_map (λ v. tree v.now) member.entry)) }
{
    let mut names = Names::new(alloc);
    for value in items_or_none(member) {
        names.push(name_of(alloc, value)?)?;
    }
    Ok(names)
}

fn name_of(alloc: Global, value: &Val) -> Result<Text, AllocError>
    ensures { IfOk result (λ name. name ≡ name_of (tree value.now)) }
{
    Text::of(alloc, text_or_empty(Some(value)))
}

/// What a run is handed.
#[tactic(auto, using(wf_val::proofs::ValueTreeLemmas::listed))]
pub(crate) fn given_of(alloc: Global, member: Option<&Val>) -> Result<Given, AllocError>
    ensures { IfOk result (λ given. given ≡ given_of (option_map (λ v. tree v.now) member.entry)) }
{
    match member {
        Some(Val::Obj(fields)) => Ok(Given::Itself(fields.copy(alloc)?)),
        _ => Ok(Given::File(Text::of(alloc, text_or_empty(member))?)),
    }
}

/// What is expected of the records, one by one.
#[tactic(auto, using(wf_val::proofs::ValueTreeLemmas::listed))]
fn records_of(alloc: Global, member: Option<&Val>) -> Result<Vals, AllocError>
    ensures { IfOk result (λ records. records ≡ records_of (option_map (λ v. tree v.now) member.entry)) }
{
    match member {
        Some(Val::List(items)) => items.copy(alloc),
        Some(value) => one(alloc, value),
        None => Ok(Vals::new(alloc)),
    }
}

fn one(alloc: Global, value: &Val) -> Result<Vals, AllocError>
    ensures { IfOk result (λ values. values ≡ tree value.now ∷ []) }
{
    let mut values = Vals::new(alloc);
    values.push(value.copy(alloc)?)?;
    Ok(values)
}

/// What is expected of a test.
pub(crate) fn wanted_of(alloc: Global, value: &Val) -> Result<Wanted, AllocError>
    ensures { IfOk result (λ wanted. wanted ≡ wanted_of (tree value.now)) }
{
    if let Some(count) = number_or_none(value.member("accepts")) {
        return Ok(Wanted::Accepts(count));
    }
    match text_or_none(alloc, value.member("refused"))? {
        Some(line) => Ok(Wanted::Refused(line)),
        None => Ok(Wanted::Records(records_of(alloc, value.member("expect"))?)),
    }
}

/// The greatest peak that is allowed.
pub(crate) fn most_in(member: Option<&Val>) -> Option<u64>
    ensures { result ≡ most_in (option_map (λ v. tree v.now) member.entry) }
{
    number_or_none(member?.member("most"))
}
