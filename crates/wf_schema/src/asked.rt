//! What a schema asks of a value as a whole.
ghost use Rattle.std.specs.Prelude.{◌≡◌, map, option_map};
ghost use Rattle.std.specs.List.{list_all, list_any};
ghost use Rattle.wf_schema.specs.Asked.{has_name, has_required, is_as_asked, is_listed, is_of_named, is_of_type, is_of_types, is_same};
ghost use Rattle.wf_val.specs.Seen.{tree};

use wf_val::Val;

fn is_of_type(name: &str, value: &Val) -> bool
    ensures { result ≡ is_of_type name.now (tree value.now) }
{
    match value {
        Val::Null => name == "null",
        Val::Bool(_) => name == "boolean",
        Val::Int(_) => name == "integer" || name == "number",
        Val::Text(_) => name == "string",
        Val::List(_) => name == "array",
        Val::Obj(_) => name == "object",
    }
}

fn is_of_named(value: &Val, name: &Val) -> bool
    ensures { result ≡ is_of_named (tree value.now) (tree name.now) }
{
    match name {
        Val::Text(name) => is_of_type(name.as_str(), value),
        _ => false,
    }
}

fn is_of_any(value: &Val, names: &[Val]) -> bool
    ensures { result ≡ list_any (is_of_named (tree value.now)) (map tree names.now) }
{
    for name in names {
        if is_of_named(value, name) {
            return true;
        }
    }
    false
}

#[tactic(auto, using(wf_val::proofs::ValueTreeLemmas::listed))]
fn is_of_types(types: Option<&Val>, value: &Val) -> bool
    ensures { result ≡ is_of_types (option_map (λ t. tree t.now) types.entry) (tree value.now) }
{
    match types {
        None => true,
        Some(Val::List(names)) => is_of_any(value, names.as_slice()),
        Some(name) => is_of_named(value, name),
    }
}

fn has_name(value: &Val, name: &Val) -> bool
    ensures { result ≡ has_name (tree value.now) (tree name.now) }
{
    match name {
        Val::Text(name) => value.get(name).is_some(),
        _ => true,
    }
}

fn has_names(value: &Val, names: &[Val]) -> bool
    ensures { result ≡ list_all (has_name (tree value.now)) (map tree names.now) }
{
    for name in names {
        if !has_name(value, name) {
            return false;
        }
    }
    true
}

#[tactic(auto, using(wf_val::proofs::ValueTreeLemmas::listed))]
fn has_required(names: Option<&Val>, value: &Val) -> bool
    ensures { result ≡ has_required (option_map (λ t. tree t.now) names.entry) (tree value.now) }
{
    match (names, value) {
        (Some(Val::List(names)), Val::Obj(_)) => has_names(value, names.as_slice()),
        _ => true,
    }
}

fn is_one_of(value: &Val, others: &[Val]) -> bool
    ensures { result ≡ list_any (is_same (tree value.now)) (map tree others.now) }
{
    for other in others {
        if value.order(other).is_eq() {
            return true;
        }
    }
    false
}

#[tactic(auto, using(wf_val::proofs::ValueTreeLemmas::listed))]
fn is_listed(values: Option<&Val>, value: &Val) -> bool
    ensures { result ≡ is_listed (option_map (λ t. tree t.now) values.entry) (tree value.now) }
{
    match values {
        Some(Val::List(others)) => is_one_of(value, others.as_slice()),
        _ => true,
    }
}

/// Whether a value is as a schema asks, what is in it apart.
pub(crate) fn is_as_asked(schema: &Val, value: &Val) -> bool
    ensures { result ≡ is_as_asked (tree schema.now) (tree value.now) }
{
    is_of_types(schema.member("type"), value)
        && has_required(schema.member("required"), value)
        && is_listed(schema.member("enum"), value)
}
