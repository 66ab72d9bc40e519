//! What a member of inputs says, and what an absent one stands for. What isn't of the form has been refused before.
ghost use Rattle.std.specs.Prelude.{◌≡◌, IfOk, Some, map, option_map};
ghost use Rattle.wf_answers.specs.AnswerSeen.{answer_tree};
ghost use Rattle.wf_answers.specs.Members.{answer_of, attempt_of, index_of, items_or_none, members_or_none, outcome_of, text_or_empty, text_or_none, value_or};
ghost use Rattle.wf_val.specs.Seen.{tree};
ghost use Rattle.wf_val.specs.ValueTree as value;

use crate::answer::Answer;
use std::alloc::{AllocError, Global};
use wf_retry::Outcome;
use wf_val::{Address, Fields, Indexes, Text, Val};

/// A text; an absent one is empty.
pub(crate) fn text_or_empty(alloc: Global, member: Option<&Val>) -> Result<Text, AllocError>
    ensures { IfOk result (λ t. t ≡ text_or_empty (option_map (λ v. tree v.now) member.entry)) }
{
    match member {
        Some(Val::Text(text)) => Ok(text.copy(alloc)?),
        _ => Ok(Text::from_string(String::new(alloc))),
    }
}

/// A text that may be absent.
pub(crate) fn text_or_none(alloc: Global, member: Option<&Val>) -> Result<Option<Text>, AllocError>
    ensures { IfOk result (λ t. t ≡ text_or_none (option_map (λ v. tree v.now) member.entry)) }
{
    match member {
        Some(Val::Text(text)) => Ok(Some(text.copy(alloc)?)),
        _ => Ok(None),
    }
}

/// The members of an object; an absent one has none.
#[tactic(auto, using(wf_val::proofs::ValueTreeLemmas::listed))]
pub(crate) fn members_or_none(alloc: Global, member: Option<&Val>) -> Result<Fields, AllocError>
    ensures { IfOk result (λ f. f ≡ members_or_none (option_map (λ v. tree v.now) member.entry)) }
{
    match member {
        Some(Val::Obj(fields)) => Ok(fields.copy(alloc)?),
        _ => Ok(Fields::new(alloc)),
    }
}

/// A value; for an absent one another.
pub(crate) fn value_or(alloc: Global, default: Val, member: Option<&Val>) -> Result<Val, AllocError>
    ensures { IfOk result (λ v. tree v ≡ value_or (tree default) (option_map (λ v. tree v.now) member.entry)) }
{
    match member {
        Some(value) => Ok(value.copy(alloc)?),
        None => Ok(default),
    }
}

/// The items of a list; an absent one has none.
#[tactic(auto, using(wf_val::proofs::ValueTreeLemmas::listed))]
pub(crate) fn items_or_none<'a>(member: Option<&'a Val>) -> &'a [Val]
    ensures { map tree result.now ≡ items_or_none (option_map (λ v. tree v.now) member.entry) }
{
    match member {
        Some(Val::List(items)) => items.as_slice(),
        _ => &[],
    }
}

/// The answer that a value says.
pub(crate) fn as_answer(alloc: Global, value: &Val) -> Result<Answer, AllocError>
    ensures { IfOk result (λ a. answer_tree a ≡ answer_of (tree value.now)) }
{
    let name = text_or_empty(alloc, value.member("action"))?;
    let at = indexes_of(alloc, items_or_none(value.member("at")))?;
    let headers = value_or(alloc, Val::Obj(Fields::new(alloc)), value.member("headers"))?;
    let body = value_or(alloc, Val::Null, value.member("body"))?;
    Ok(Answer {
        address: Address { name, at },
        attempt: attempt_of(value.member("attempt")),
        outcome: outcome_of(value.member("status")),
        headers,
        body,
    })
}

fn indexes_of(alloc: Global, values: &[Val]) -> Result<Indexes, AllocError>
    ensures { IfOk result (λ at. at ≡ map index_of (map tree values.now)) }
{
    let mut at = Indexes::new(alloc);
    for value in values {
        at.push(index_of(value))?;
    }
    Ok(at)
}

fn index_of(value: &Val) -> u64
    ensures { result ≡ index_of (tree value.now) }
{
    match value {
        Val::Int(n) if *n >= 0 => *n as u64,
        _ => 0,
    }
}

fn attempt_of(member: Option<&Val>) -> u32
    ensures { result ≡ attempt_of (option_map (λ v. tree v.now) member.entry) }
{
    match member {
        Some(Val::Int(n)) if *n >= 0 => (*n as u64).min(u32::MAX as u64) as u32,
        _ => 1,
    }
}

fn outcome_of(member: Option<&Val>) -> Outcome
    ensures { result ≡ outcome_of (option_map (λ v. tree v.now) member.entry) }
{
    match member {
        Some(Val::Int(n)) if *n >= 0 => Outcome::Code((*n as u64).min(u32::MAX as u64) as u32),
        Some(Val::Text(text)) => outcome_without_code(text.as_str()),
        _ => Outcome::NoConnection,
    }
}

fn outcome_without_code(text: &str) -> Outcome
    ensures { result ≡ outcome_of (Some (value.text text.now)) }
{
    if text == "timedOut" {
        Outcome::TimedOut
    } else {
        Outcome::NoConnection
    }
}
