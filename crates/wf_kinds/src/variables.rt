//! What is asked of actions on variables.
ghost use Rattle.std.specs.Prelude.{◌≡◌, map, option_map};
ghost use Rattle.std.specs.List.{list_all, list_any};
ghost use Rattle.std.specs.Str.{str_eq_ignore_ascii_case};
ghost use Rattle.wf_val.specs.Seen.{tree};
ghost use Rattle.wf_kinds.specs.Variables.{are_initials, count_has, initialize_has, is_initial, is_variable_type, set_has, variable_types};

use crate::parts::{input, is_text};
use wf_val::Val;

fn is_variable_type(value: Option<&Val>) -> bool
    ensures { result ≡ is_variable_type (option_map (λ v. tree v.now) value.entry) }
{
    match value {
        Some(Val::Text(name)) => names_variable_type(name.as_str()),
        _ => false,
    }
}

fn names_variable_type(name: &str) -> bool
    ensures { result ≡ list_any (str_eq_ignore_ascii_case name.now) variable_types }
{
    name.eq_ignore_ascii_case("boolean")
        || name.eq_ignore_ascii_case("integer")
        || name.eq_ignore_ascii_case("string")
        || name.eq_ignore_ascii_case("array")
        || name.eq_ignore_ascii_case("object")
}

fn is_initial(value: &Val) -> bool
    ensures { result ≡ is_initial (tree value.now) }
{
    is_text(value.member("name")) && is_variable_type(value.member("type"))
}

fn are_all_initial(initials: &[Val]) -> bool
    ensures { result ≡ list_all is_initial (map tree initials.now) }
{
    for initial in initials {
        if !is_initial(initial) {
            return false;
        }
    }
    true
}

// One action may make several variables.
#[tactic(auto, using(wf_val::proofs::ValueTreeLemmas::listed))]
fn are_initials(value: Option<&Val>) -> bool
    ensures { result ≡ are_initials (option_map (λ v. tree v.now) value.entry) }
{
    match value {
        Some(Val::List(initials)) => {
            1 <= initials.len() && initials.len() <= 20 && are_all_initial(initials.as_slice())
        }
        _ => false,
    }
}

pub(crate) fn initialize_has(action: &Val) -> bool
    ensures { result ≡ initialize_has (tree action.now) }
{
    are_initials(input(action, "variables"))
}

pub(crate) fn set_has(action: &Val) -> bool
    ensures { result ≡ set_has (tree action.now) }
{
    is_text(input(action, "name")) && input(action, "value").is_some()
}

pub(crate) fn count_has(action: &Val) -> bool
    ensures { result ≡ count_has (tree action.now) }
{
    is_text(input(action, "name"))
}
