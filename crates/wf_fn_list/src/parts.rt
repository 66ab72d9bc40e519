//! Length and parts of a text or a list.
ghost use Rattle.std.specs.Prelude.{◌≡◌, IfOk, length, map, take, drop, reverse};
ghost use Rattle.wf_val.specs.Arguments.{seen, Gives};
ghost use Rattle.wf_val.specs.Seen.{tree};
ghost use Rattle.wf_fn_list.specs.Parts.{length_row, first_row, last_row, take_row, skip_row, reverse_row, join_row, count_of};

use std::alloc::{AllocError, Global};
use wf_val::{
    EvalFault, Fun, Val, Vals, bounded, bounded_text, char_count, joined_texts, list_at, number_at,
    split_at_char, text_at, wrong_type,
};

/// `length`: how many characters a text has, or items a list.
#[tactic(auto, using(wf_val::proofs::ValueTreeLemmas::listed))]
pub fn f_length(args: &Vals) -> Result<Val, EvalFault>
    requires { length args.now ≡ 1 }
    ensures { seen result ≡ length_row args.now }
{
    match args.at(0) {
        Some(Val::Text(text)) => Ok(Val::Int(char_count(text.as_str()) as i64)),
        Some(Val::List(items)) => Ok(Val::Int(items.len() as i64)),
        _ => Err(wrong_type(Fun::Length, 0)),
    }
}

/// `first`: the first character or item; of an empty text the empty text, of an empty list null.
#[tactic(auto, using(wf_val::proofs::ValueTreeLemmas::listed))]
pub fn f_first(alloc: Global, args: &Vals) -> Result<Val, EvalFault>
    requires { length args.now ≡ 1 }
    ensures { Gives (seen result) (first_row args.now) }
{
    match args.at(0) {
        Some(Val::Text(text)) => {
            let (first, _) = split_at_char(text.as_str(), 1);
            bounded_text(alloc, first)
        }
        Some(Val::List(items)) => match items.at(0) {
            Some(item) => bounded(item.copy(alloc)?),
            None => Ok(Val::Null),
        },
        _ => Err(wrong_type(Fun::First, 0)),
    }
}

/// `last`: the last character or item; of an empty text the empty text, of an empty list null.
#[tactic(auto, using(wf_val::proofs::ValueTreeLemmas::listed))]
pub fn f_last(alloc: Global, args: &Vals) -> Result<Val, EvalFault>
    requires { length args.now ≡ 1 }
    ensures { Gives (seen result) (last_row args.now) }
{
    match args.at(0) {
        Some(Val::Text(text)) => {
            let before = char_count(text.as_str()).saturating_sub(1);
            let (_, last) = split_at_char(text.as_str(), before);
            bounded_text(alloc, last)
        }
        Some(Val::List(items)) => match items.at(items.len().saturating_sub(1)) {
            Some(item) => bounded(item.copy(alloc)?),
            None => Ok(Val::Null),
        },
        _ => Err(wrong_type(Fun::Last, 0)),
    }
}

/// `take`: the first so many characters or items, or all where there are fewer; `Range` below 0.
#[tactic(auto, using(wf_val::proofs::ValueTreeLemmas::listed))]
pub fn f_take(alloc: Global, args: &Vals) -> Result<Val, EvalFault>
    requires { length args.now ≡ 2 }
    ensures { Gives (seen result) (take_row args.now) }
{
    match args.at(0) {
        Some(Val::Text(text)) => {
            let count = count_of(Fun::Take, number_at(Fun::Take, args, 1)?)?;
            let (front, _) = split_at_char(text.as_str(), count);
            bounded_text(alloc, front)
        }
        Some(Val::List(items)) => {
            let count = count_of(Fun::Take, number_at(Fun::Take, args, 1)?)?;
            let (front, _) = split_items(items.as_slice(), count);
            bounded(Val::List(copied(alloc, front)?))
        }
        _ => Err(wrong_type(Fun::Take, 0)),
    }
}

/// `skip`: what is behind the first so many characters or items; `Range` below 0.
#[tactic(auto, using(wf_val::proofs::ValueTreeLemmas::listed))]
pub fn f_skip(alloc: Global, args: &Vals) -> Result<Val, EvalFault>
    requires { length args.now ≡ 2 }
    ensures { Gives (seen result) (skip_row args.now) }
{
    match args.at(0) {
        Some(Val::Text(text)) => {
            let count = count_of(Fun::Skip, number_at(Fun::Skip, args, 1)?)?;
            let (_, rest) = split_at_char(text.as_str(), count);
            bounded_text(alloc, rest)
        }
        Some(Val::List(items)) => {
            let count = count_of(Fun::Skip, number_at(Fun::Skip, args, 1)?)?;
            let (_, rest) = split_items(items.as_slice(), count);
            bounded(Val::List(copied(alloc, rest)?))
        }
        _ => Err(wrong_type(Fun::Skip, 0)),
    }
}

/// `reverse`: the items from the end.
pub fn f_reverse(alloc: Global, args: &Vals) -> Result<Val, EvalFault>
    requires { length args.now ≡ 1 }
    ensures { Gives (seen result) (reverse_row args.now) }
{
    let items = list_at(Fun::Reverse, args, 0)?;
    bounded(Val::List(reversed(alloc, items.as_slice())?))
}

/// `join`: the texts of a list with another between each two; an item that is no text adds nothing. They are measured
/// before they are joined.
pub fn f_join(alloc: Global, args: &Vals) -> Result<Val, EvalFault>
    requires { length args.now ≡ 2 }
    ensures { Gives (seen result) (join_row args.now) }
{
    let items = list_at(Fun::Join, args, 0)?;
    let between = text_at(Fun::Join, args, 1)?;
    joined_texts(alloc, items.as_slice(), between.as_str())
}

// A count, `Range` below 0.
fn count_of(function: Fun, number: i64) -> Result<u64, EvalFault>
    ensures { result ≡ count_of function number }
{
    match u64::try_from(number) {
        Ok(count) => Ok(count),
        Err(_) => Err(EvalFault::Range { function }),
    }
}

// The first so many values, or all where there are fewer, and the others.
#[tactic(auto, using(crate::proofs::PartLemmas::front, crate::proofs::PartLemmas::rest))]
pub(crate) fn split_items(values: &[Val], count: u64) -> (&[Val], &[Val])
    ensures front { map tree result.0.now ≡ take count (map tree values.now) }
    ensures back { map tree result.1.now ≡ drop count (map tree values.now) }
{
    values.split_at(count.min(values.len() as u64) as usize)
}

// A copy of each value.
pub(crate) fn copied(alloc: Global, values: &[Val]) -> Result<Vals, AllocError>
    ensures { IfOk result (λ v. v ≡ map tree values.now) }
{
    let mut copies = Vals::new(alloc);
    for value in values {
        copies.push(value.copy(alloc)?)?;
    }
    Ok(copies)
}

// A copy of each value, from the end.
fn reversed(alloc: Global, values: &[Val]) -> Result<Vals, AllocError>
    ensures { IfOk result (λ v. v ≡ reverse (map tree values.now)) }
{
    let mut copies = Vals::new(alloc);
    let mut left = values.len();
    while left > 0 {
        left -= 1;
        copies.push(values[left].copy(alloc)?)?;
    }
    Ok(copies)
}
