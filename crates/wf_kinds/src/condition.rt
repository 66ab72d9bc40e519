//! The form of a condition.
ghost use Rattle.std.specs.Prelude.{◌≡◌, option_map};
ghost use Rattle.wf_val.specs.Seen.{tree};
ghost use Rattle.wf_val.specs.ValueTree.{members, trees};
ghost use Rattle.wf_kinds.specs.Conditions.{are_conditions, comparison_named, is_a_condition, is_condition, is_list_of_conditions, is_one_operation, is_operation, is_pair};

use wf_val::{Fields, Fun, Val, Vals};

const COMPARISONS: [Fun; 8] = [
    Fun::Equals,
    Fun::Greater,
    Fun::GreaterOrEquals,
    Fun::Less,
    Fun::LessOrEquals,
    Fun::Contains,
    Fun::StartsWith,
    Fun::EndsWith,
];

/// The comparison that a condition names; letter case counts.
pub fn comparison_named(name: &str) -> Option<Fun>
    ensures { result ≡ comparison_named name.now }
{
    COMPARISONS
        .iter()
        .copied()
        .find(|function| name == function.name())
}

#[tactic(auto, using(wf_val::proofs::ValueTreeLemmas::listed))]
fn is_pair(value: &Val) -> bool
    ensures { result ≡ is_pair (tree value.now) }
{
    match value {
        Val::List(items) => items.len() == 2,
        _ => false,
    }
}

/// Whether a value is of the form of a condition: a text, or an object with one member, which names an operation.
#[cycle(condition)]
pub fn is_condition(value: &Val) -> bool
    ensures { result ≡ is_condition (tree value.now) }
{
    match value {
        Val::Text(_) => true,
        Val::Obj(fields) => is_one_operation(fields),
        _ => false,
    }
}

#[cycle(condition)]
fn is_one_operation(fields: &Fields) -> bool
    ensures { result ≡ is_one_operation (members fields.now) }
{
    match fields.as_slice() {
        [] => false,
        [(name, operand)] => is_operation(name.as_str(), operand),
        [_, _, ..] => false,
    }
}

#[cycle(condition)]
fn is_operation(name: &str, operand: &Val) -> bool
    ensures { result ≡ is_operation name.now
        (is_list_of_conditions (tree operand.now)) (is_condition (tree operand.now)) (is_pair (tree operand.now)) }
{
    if name == "and" || name == "or" {
        is_list_of_conditions(operand)
    } else if name == "not" {
        is_condition(operand)
    } else {
        comparison_named(name).is_some() && is_pair(operand)
    }
}

#[cycle(condition)]
fn is_list_of_conditions(value: &Val) -> bool
    ensures { result ≡ is_list_of_conditions (tree value.now) }
{
    match value {
        Val::List(items) => are_conditions(items),
        _ => false,
    }
}

#[cycle(condition)]
fn are_conditions(items: &Vals) -> bool
    ensures { result ≡ are_conditions (trees items.now) }
{
    for item in items.as_slice() {
        if !is_condition(item) {
            return false;
        }
    }
    true
}

pub(crate) fn is_a_condition(value: Option<&Val>) -> bool
    ensures { result ≡ is_a_condition (option_map (λ v. tree v.now) value.entry) }
{
    match value {
        Some(value) => is_condition(value),
        None => false,
    }
}
