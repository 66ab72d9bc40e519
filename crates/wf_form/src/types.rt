//! V5: the types of actions, triggers and parameters.
ghost use Rattle.std.specs.Prelude.{◌≡◌, IfOk, option_map, string_bytes};
ghost use Rattle.std.specs.List.{list_any};
ghost use Rattle.std.specs.Str.{str_eq_ignore_ascii_case};
ghost use Rattle.wf_after.specs.Pointer.{least};
ghost use Rattle.wf_val.specs.Seen.{tree};
ghost use Rattle.wf_form.specs.Types.{is_bad_type, is_parameter_type, is_trigger_type, parameter_types, types};

use crate::role::Role;
use std::alloc::Global;
use wf_after::pointer::here;
use wf_texts::ActionType;
use wf_val::Val;

fn is_trigger_type(value: Option<&Val>) -> bool
    ensures { result ≡ is_trigger_type (option_map (λ v. tree v.now) value.entry) }
{
    match value {
        Some(Val::Text(text)) => !text.as_str().eq_ignore_ascii_case("Batch"),
        _ => false,
    }
}

fn names_parameter_type(text: &str) -> bool
    ensures { result ≡ list_any (str_eq_ignore_ascii_case text.now) parameter_types }
{
    text.eq_ignore_ascii_case("int")
        || text.eq_ignore_ascii_case("string")
        || text.eq_ignore_ascii_case("bool")
        || text.eq_ignore_ascii_case("array")
        || text.eq_ignore_ascii_case("object")
        || text.eq_ignore_ascii_case("securestring")
        || text.eq_ignore_ascii_case("secureobject")
}

fn is_parameter_type(value: Option<&Val>) -> bool
    ensures { result ≡ is_parameter_type (option_map (λ v. tree v.now) value.entry) }
{
    match value {
        Some(Val::Text(text)) => names_parameter_type(text.as_str()),
        _ => false,
    }
}

fn is_bad_type(role: Role, value: &Val) -> bool
    ensures { result ≡ is_bad_type role (tree value.now) }
{
    match role {
        Role::Action(_) => ActionType::of(value).is_none(),
        Role::Trigger => !is_trigger_type(value.member("type")),
        Role::Parameter => !is_parameter_type(value.member("type")),
        _ => false,
    }
}

#[tactic(auto, unfolding(crate::specs::Types::types))]
pub(crate) fn types(alloc: Global, role: Role, value: &Val) -> Option<String>
    ensures { option_map string_bytes result ≡ least (types role (tree value.now)) }
{
    here(alloc, is_bad_type(role, value))
}
