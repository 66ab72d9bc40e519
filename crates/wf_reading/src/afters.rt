//! What an action waits for.
ghost use Rattle.std.specs.Prelude.{◌≡◌, IfOk, map, option_map};
ghost use Rattle.std.specs.List.{list_any};
ghost use Rattle.wf_val.specs.Seen.{tree, member};
ghost use Rattle.wf_reading.specs.Afters.{after_of, afters_of, entries, is_word, lists, statuses_of};
ghost use Rattle.wf_reading.specs.Numbers.{number_among};

use crate::numbers::Numbers;
use std::alloc::{AllocError, Global};
use wf_def::{After, Afters, Statuses};
use wf_val::{Text, Val};

fn is_word(value: &Val, word: &str) -> bool
    ensures { result ≡ is_word word.now (tree value.now) }
{
    match value {
        Val::Text(text) => text.as_str().eq_ignore_ascii_case(word),
        _ => false,
    }
}

fn any_is_word(values: &[Val], word: &str) -> bool
    ensures { result ≡ list_any (is_word word.now) (map tree values.now) }
{
    for value in values {
        if is_word(value, word) {
            return true;
        }
    }
    false
}

#[tactic(auto, using(wf_val::proofs::ValueTreeLemmas::listed))]
fn lists(value: &Val, word: &str) -> bool
    ensures { result ≡ lists word.now (tree value.now) }
{
    match value {
        Val::List(items) => any_is_word(items.as_slice(), word),
        _ => false,
    }
}

fn statuses_of(value: &Val) -> Statuses
    ensures { result ≡ statuses_of (tree value.now) }
{
    Statuses {
        succeeded: lists(value, "Succeeded"),
        failed: lists(value, "Failed"),
        skipped: lists(value, "Skipped"),
        timed_out: lists(value, "TimedOut"),
    }
}

fn after_of(
    alloc: Global,
    numbers: &Numbers<'_>,
    name: &Text,
    value: &Val,
) -> Result<After, AllocError>
    ensures { IfOk result (λ a. a ≡ after_of (number_among numbers.now) (name.now, tree value.now)) }
{
    Ok(After {
        name: name.copy(alloc)?,
        number: numbers.of_name(name),
        statuses: statuses_of(value),
    })
}

/// The members of an object.
#[tactic(auto, using(wf_val::proofs::ValueTreeLemmas::listed))]
pub(crate) fn entries<'a>(value: Option<&'a Val>) -> &'a [(Text, Val)]
    ensures { map member result.now ≡ entries (option_map (λ v. tree v.now) value.entry) }
{
    match value {
        Some(Val::Obj(fields)) => fields.as_slice(),
        _ => &[],
    }
}

/// The entries of a `runAfter`.
pub(crate) fn afters_of(
    alloc: Global,
    numbers: &Numbers<'_>,
    value: Option<&Val>,
) -> Result<Afters, AllocError>
    ensures { IfOk result (λ as'. as' ≡ afters_of (number_among numbers.now) (option_map (λ v. tree v.now) value.entry)) }
{
    let mut afters = Afters::new(alloc);
    for (name, entry) in entries(value) {
        afters.push(after_of(alloc, numbers, name, entry)?)?;
    }
    Ok(afters)
}
