//! What the outputs of an action on variables tell.
ghost use Rattle.std.specs.Prelude.{◌≡◌, bytes_eq, map, option_map};
ghost use Rattle.wf_def.specs.ActionSeen.{initial_tree};
ghost use Rattle.wf_says.specs.Says.{body_in, initialized, is_name_of, is_of, sole_body, tells, tells_body, tells_each, tells_initials};
ghost use Rattle.wf_says.specs.Says.{tells_list, tells_members, tells_one};
ghost use Rattle.wf_val.specs.Seen.{member, tree};

use wf_def::{Initial, Sort};
use wf_val::{Text, Val};

fn is_of(sort: Option<Sort>, value: &Val) -> bool
    ensures { result ≡ is_of sort (tree value.now) }
{
    match sort {
        Some(sort) => sort.has(value),
        None => false,
    }
}

fn is_name_of(name: &Text, value: &Val) -> bool
    ensures { result ≡ is_name_of name.now (tree value.now) }
{
    match value {
        Val::Text(text) => text.as_str() == name.as_str(),
        _ => false,
    }
}

fn is_named(one: &str, name: &str) -> bool
    ensures { result ≡ bytes_eq one.now name.now }
{
    one == name
}

fn tells_members(name: &Text, sort: Option<Sort>, members: &[(Text, Val)]) -> bool
    ensures { result ≡ tells_members (name.now, sort) (map member members.now) }
{
    match members {
        [(first, own), (second, value)] => {
            is_named(first.as_str(), "name")
                && is_name_of(name, own)
                && is_named(second.as_str(), "value")
                && is_of(sort, value)
        }
        _ => false,
    }
}

// Whether it is exactly the variable's name and a value of its type.
#[tactic(auto, using(wf_val::proofs::ValueTreeLemmas::listed))]
fn tells(name: &Text, sort: Option<Sort>, value: &Val) -> bool
    ensures { result ≡ tells (name.now, sort) (tree value.now) }
{
    match value {
        Val::Obj(fields) => tells_members(name, sort, fields.as_slice()),
        _ => false,
    }
}

// Whether these tell exactly these variables, in their order.
fn tells_each(initials: &[Initial], values: &[Val]) -> bool
    ensures { result ≡ tells_each (map initialized (map initial_tree initials.now)) (map tree values.now) }
{
    if initials.len() != values.len() {
        return false;
    }
    for (place, initial) in initials.iter().enumerate() {
        if !tells(&initial.name, Some(initial.sort), &values[place]) {
            return false;
        }
    }
    true
}

#[tactic(auto, using(wf_val::proofs::ValueTreeLemmas::listed))]
fn tells_list(initials: &[Initial], value: &Val) -> bool
    ensures { result ≡ tells_list (map initialized (map initial_tree initials.now)) (tree value.now) }
{
    match value {
        Val::List(values) => tells_each(initials, values.as_slice()),
        _ => false,
    }
}

fn tells_body(initials: &[Initial], value: &Val) -> bool
    ensures { result ≡ tells_body (map initialized (map initial_tree initials.now)) (tree value.now) }
{
    match initials {
        [initial] => tells(&initial.name, Some(initial.sort), value),
        _ => tells_list(initials, value),
    }
}

fn sole_body(members: &[(Text, Val)]) -> Option<&Val>
    ensures { option_map (λ v. tree v.now) result ≡ sole_body (map member members.now) }
{
    match members {
        [(name, value)] if is_named(name.as_str(), "body") => Some(value),
        _ => None,
    }
}

// The body of outputs that have nothing else.
#[tactic(auto, using(wf_val::proofs::ValueTreeLemmas::listed))]
fn body_in(outputs: &Val) -> Option<&Val>
    ensures { option_map (λ v. tree v.now) result ≡ body_in (tree outputs.now) }
{
    match outputs {
        Val::Obj(fields) => sole_body(fields.as_slice()),
        _ => None,
    }
}

/// Whether the outputs of an InitializeVariable tell exactly its variables.
pub(crate) fn tells_initials(initials: &[Initial], outputs: &Val) -> bool
    ensures { result ≡ tells_initials (map initial_tree initials.now) (tree outputs.now) }
{
    if initials.is_empty() {
        return true;
    }
    match body_in(outputs) {
        Some(body) => tells_body(initials, body),
        None => false,
    }
}

/// Whether outputs tell exactly one variable of a type.
pub(crate) fn tells_one(name: &Text, sort: Option<Sort>, outputs: &Val) -> bool
    ensures { result ≡ tells_one name.now sort (tree outputs.now) }
{
    match body_in(outputs) {
        Some(body) => tells(name, sort, body),
        None => false,
    }
}
