//! The arguments of a function by their types, and the test of a value's size.
ghost use Rattle.std.specs.Prelude.{◌≡◌, Ok, Err, IfOk, IfErr, option_map};
ghost use Rattle.wf_val.specs.Arguments.{seen, Gives, within, wrong_type, number_at, optional_number_at, text_at, optional_text_at};
ghost use Rattle.wf_val.specs.Arguments.{truth_at, list_at, object_at, value_at, bounded};
ghost use Rattle.wf_val.specs.ValueTree.{text};
ghost use Rattle.wf_val.specs.Seen.{tree};

use crate::fault::EvalFault;
use crate::fields::Fields;
use crate::function::Fun;
use crate::text::Text;
use crate::val::{Size, Val};
use crate::vals::Vals;
use std::alloc::Global;

/// The fault of an argument that isn't of a type that the function takes there. The place is counted from 0 here, and
/// from 1 in the fault; one past the greatest u32 is cut to it.
pub fn wrong_type(function: Fun, place: u64) -> EvalFault
    ensures { result ≡ wrong_type function place }
{
    let place = place.saturating_add(1).min(u32::MAX as u64) as u32;
    EvalFault::WrongType { function, place }
}

/// The number at a place, counted from 0; an argument of another type, or none, is `WrongType`.
pub fn number_at(function: Fun, args: &Vals, place: u64) -> Result<i64, EvalFault>
    ensures { result ≡ number_at function args.now place }
{
    match args.at(place) {
        Some(Val::Int(number)) => Ok(*number),
        _ => Err(wrong_type(function, place)),
    }
}

/// The text at a place, counted from 0; an argument of another type, or none, is `WrongType`.
pub fn text_at<'a>(function: Fun, args: &'a Vals, place: u64) -> Result<&'a Text, EvalFault>
    ensures ok { IfOk result (λ t. text_at function args.now place ≡ Ok t.now) }
    ensures err { IfErr result (λ f. text_at function args.now place ≡ Err f) }
{
    match args.at(place) {
        Some(Val::Text(text)) => Ok(text),
        _ => Err(wrong_type(function, place)),
    }
}

/// The Boolean at a place, counted from 0; an argument of another type, or none, is `WrongType`.
pub fn truth_at(function: Fun, args: &Vals, place: u64) -> Result<bool, EvalFault>
    ensures { result ≡ truth_at function args.now place }
{
    match args.at(place) {
        Some(Val::Bool(truth)) => Ok(*truth),
        _ => Err(wrong_type(function, place)),
    }
}

/// The items of the list at a place, counted from 0; an argument of another type, or none, is `WrongType`.
#[tactic(auto, using(crate::proofs::ValueTreeLemmas::listed))]
pub fn list_at<'a>(function: Fun, args: &'a Vals, place: u64) -> Result<&'a Vals, EvalFault>
    ensures ok { IfOk result (λ v. list_at function args.now place ≡ Ok v.now) }
    ensures err { IfErr result (λ f. list_at function args.now place ≡ Err f) }
{
    match args.at(place) {
        Some(Val::List(items)) => Ok(items),
        _ => Err(wrong_type(function, place)),
    }
}

/// The members of the object at a place, counted from 0; an argument of another type, or none, is `WrongType`.
#[tactic(auto, using(crate::proofs::ValueTreeLemmas::listed))]
pub fn object_at<'a>(function: Fun, args: &'a Vals, place: u64) -> Result<&'a Fields, EvalFault>
    ensures ok { IfOk result (λ v. object_at function args.now place ≡ Ok v.now) }
    ensures err { IfErr result (λ f. object_at function args.now place ≡ Err f) }
{
    match args.at(place) {
        Some(Val::Obj(fields)) => Ok(fields),
        _ => Err(wrong_type(function, place)),
    }
}

/// The argument at a place, counted from 0, of whatever type; where there is none, `WrongType`.
pub fn value_at<'a>(function: Fun, args: &'a Vals, place: u64) -> Result<&'a Val, EvalFault>
    ensures ok { IfOk result (λ v. value_at function args.now place ≡ Ok (tree v.now)) }
    ensures err { IfErr result (λ f. value_at function args.now place ≡ Err f) }
{
    match args.at(place) {
        Some(value) => Ok(value),
        None => Err(wrong_type(function, place)),
    }
}

/// The number at a place, counted from 0, where an argument may be left out; one of another type is `WrongType`.
pub fn optional_number_at(function: Fun, args: &Vals, place: u64) -> Result<Option<i64>, EvalFault>
    ensures { result ≡ optional_number_at function args.now place }
{
    match args.at(place) {
        None => Ok(None),
        Some(Val::Int(number)) => Ok(Some(*number)),
        Some(_) => Err(wrong_type(function, place)),
    }
}

/// The text at a place, counted from 0, where an argument may be left out; one of another type is `WrongType`.
pub fn optional_text_at<'a>(
    function: Fun,
    args: &'a Vals,
    place: u64,
) -> Result<Option<&'a Text>, EvalFault>
    ensures ok { IfOk result (λ o. optional_text_at function args.now place ≡ Ok (option_map (λ t. t.now) o)) }
    ensures err { IfErr result (λ f. optional_text_at function args.now place ≡ Err f) }
{
    match args.at(place) {
        None => Ok(None),
        Some(Val::Text(text)) => Ok(Some(text)),
        Some(_) => Err(wrong_type(function, place)),
    }
}

/// Whether a value of this depth and weight may be an expression's, else `TooBig`. A depth or weight past its type is
/// given as the type's greatest.
pub fn within(depth: u32, weight: u64) -> Result<(), EvalFault>
    ensures { result ≡ within depth weight tt }
{
    if depth <= 64 && weight <= 1 << 20 {
        Ok(())
    } else {
        Err(EvalFault::TooBig { depth, weight })
    }
}

/// The value itself where an expression may have it, else `TooBig`.
pub fn bounded(value: Val) -> Result<Val, EvalFault>
    ensures { seen result ≡ bounded (tree value) }
{
    let Size { depth, weight } = value.size();
    within(depth, weight)?;
    Ok(value)
}

/// A text as a value, else `TooBig`; it is measured before it is copied.
pub fn bounded_text(alloc: Global, written: &str) -> Result<Val, EvalFault>
    ensures { Gives (seen result) (bounded (text written.now)) }
{
    within(0, (written.len() as u64).saturating_add(1))?;
    Ok(Val::Text(Text::of(alloc, written)?))
}
