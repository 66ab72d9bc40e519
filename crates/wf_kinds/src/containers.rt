//! What is asked of actions that hold actions.
ghost use Rattle.std.specs.Prelude.{◌≡◌, map, option_map};
ghost use Rattle.std.specs.List.{list_any};
ghost use Rattle.wf_val.specs.Seen.{tree, member};
ghost use Rattle.wf_kinds.specs.Containers.{are_apart, are_cases, case_of, foreach_has, if_has, is_concurrency, is_literal, is_same, is_time, is_turns, limit, repetitions, scope_has, switch_has, until_has};
ghost use Rattle.wf_kinds.specs.Parts.{absent_or};

use crate::condition::is_a_condition;
use crate::parts::{is_list, is_text};
use wf_retry::is_duration;
use wf_val::{Text, Val};

pub(crate) fn scope_has(action: &Val) -> bool
    ensures { result ≡ scope_has (tree action.now) }
{
    action.member("actions").is_some()
}

pub(crate) fn if_has(action: &Val) -> bool
    ensures { result ≡ if_has (tree action.now) }
{
    is_a_condition(action.member("expression"))
}

// ---- a Switch

fn is_literal(value: &Val) -> bool
    ensures { result ≡ is_literal (tree value.now) }
{
    matches!(value, Val::Text(_) | Val::Int(_))
}

fn is_same(value: &Val, other: Option<&Val>) -> bool
    ensures { result ≡ is_same (tree value.now) (option_map (λ v. tree v.now) other.entry) }
{
    match other {
        Some(other) => value.order(other).is_eq(),
        None => false,
    }
}

fn is_any_same(value: &Val, cases: &[(Text, Val)]) -> bool
    ensures { result ≡ list_any (is_same (tree value.now)) (map case_of (map member cases.now)) }
{
    for (_, case) in cases {
        if is_same(value, case.member("case")) {
            return true;
        }
    }
    false
}

fn are_apart(cases: &[(Text, Val)]) -> bool
    ensures { result ≡ are_apart (map case_of (map member cases.now)) }
{
    for (place, (_, case)) in cases.iter().enumerate() {
        match case.member("case") {
            None => return false,
            Some(value) => {
                if !is_literal(value) || is_any_same(value, &cases[place + 1..]) {
                    return false;
                }
            }
        }
    }
    true
}

#[tactic(auto, using(wf_val::proofs::ValueTreeLemmas::listed))]
fn are_cases(value: Option<&Val>) -> bool
    ensures { result ≡ are_cases (option_map (λ v. tree v.now) value.entry) }
{
    match value {
        Some(Val::Obj(fields)) => are_apart(fields.as_slice()),
        _ => false,
    }
}

pub(crate) fn switch_has(action: &Val) -> bool
    ensures { result ≡ switch_has (tree action.now) }
{
    is_text(action.member("expression")) && are_cases(action.member("cases"))
}

// ---- loops

/// How many iterations of a Foreach may run at once, where it says so.
pub fn repetitions<'a>(action: &'a Val) -> Option<&'a Val>
    ensures { option_map (λ v. tree v.now) result ≡ repetitions (tree action.now) }
{
    let configuration = action.member("runtimeConfiguration")?;
    let concurrency = configuration.member("concurrency")?;
    concurrency.member("repetitions")
}

fn is_absent_or_concurrency(value: Option<&Val>) -> bool
    ensures { result ≡ absent_or is_concurrency (option_map (λ v. tree v.now) value.entry) }
{
    match value {
        None => true,
        Some(Val::Int(n)) => 1 <= *n && *n <= 50,
        Some(_) => false,
    }
}

pub(crate) fn foreach_has(action: &Val) -> bool
    ensures { result ≡ foreach_has (tree action.now) }
{
    (is_text(action.member("foreach")) || is_list(action.member("foreach")))
        && is_absent_or_concurrency(repetitions(action))
}

/// A member of an Until's `limit`; none where that is no object.
pub fn limit<'a>(action: &'a Val, name: &str) -> Option<&'a Val>
    ensures { option_map (λ v. tree v.now) result ≡ limit name.now (tree action.now) }
{
    action.member("limit")?.member(name)
}

fn is_absent_or_turns(value: Option<&Val>) -> bool
    ensures { result ≡ absent_or is_turns (option_map (λ v. tree v.now) value.entry) }
{
    match value {
        None => true,
        Some(Val::Int(n)) => 1 <= *n && *n <= 5000,
        Some(_) => false,
    }
}

fn is_absent_or_time(value: Option<&Val>) -> bool
    ensures { result ≡ absent_or is_time (option_map (λ v. tree v.now) value.entry) }
{
    match value {
        None => true,
        Some(Val::Text(text)) => is_duration(text.as_str()),
        Some(_) => false,
    }
}

pub(crate) fn until_has(action: &Val) -> bool
    ensures { result ≡ until_has (tree action.now) }
{
    is_a_condition(action.member("expression"))
        && is_absent_or_turns(limit(action, "count"))
        && is_absent_or_time(limit(action, "timeout"))
}
