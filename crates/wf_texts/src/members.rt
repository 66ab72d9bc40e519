//! The least pointer of a bad text in the members that hold templates.
ghost use Rattle.std.specs.Prelude.{◌≡◌, [], ◌∷◌, IfOk, option_map, string_bytes, codes};
ghost use Rattle.wf_val.specs.Seen.{tree};
ghost use Rattle.wf_val.specs.ValueTree.{members, trees};
ghost use Rattle.wf_kinds.specs.Pointer.{least, lesser};
ghost use Rattle.wf_texts.specs.Bad.{bad_texts as bad_texts_of};
ghost use Rattle.wf_texts.specs.Members.{along, along_all, bad_texts_of_action, bad_texts_of_output, bad_texts_of_trigger, in_items, in_member, in_members_but, in_other, to, to_all_but, to_each, to_input, type_ways};

use crate::bad::bad_texts;
use std::alloc::{AllocError, Global};
use wf_kinds::ActionType;
use wf_kinds::pointer::{lesser, with_item, with_member};
use wf_val::{Fields, Val, Vals};

// ---- along the ways to them

// In the member of a name, whose value this is.
#[tactic(auto, using(crate::proofs::TextLemmas::least_front))]
fn in_member(alloc: Global, name: &str, value: Option<&Val>) -> Result<Option<String>, AllocError>
    ensures { IfOk result (λ p. option_map string_bytes p
        ≡ least (in_member name.now bad_texts_of (option_map (λ v. tree v.now) value.entry))) }
{
    match value {
        None => Ok(None),
        Some(value) => {
            let found = bad_texts(alloc, value)?;
            with_member(alloc, None, name, found)
        }
    }
}

fn along_member(alloc: Global, name: &str, value: &Val) -> Result<Option<String>, AllocError>
    ensures { IfOk result (λ p. option_map string_bytes p ≡ least (along (to name.now ∷ []) (tree value.now))) }
{
    in_member(alloc, name, value.member(name))
}

#[tactic(auto, using(crate::proofs::TextLemmas::least_front))]
fn along_input(alloc: Global, name: &str, action: &Val) -> Result<Option<String>, AllocError>
    ensures { IfOk result (λ p. option_map string_bytes p ≡ least (along (to_input name.now) (tree action.now))) }
{
    match action.member("inputs") {
        None => Ok(None),
        Some(inputs) => {
            let found = along_member(alloc, name, inputs)?;
            with_member(alloc, None, "inputs", found)
        }
    }
}

// In the member of a name of each item.
fn in_items(alloc: Global, name: &str, items: &Vals) -> Result<Option<String>, AllocError>
    ensures { IfOk result (λ p. option_map string_bytes p
        ≡ least (in_items (λ u. along (to name.now ∷ []) u) 0 (trees items.now))) }
{
    let mut best = None;
    for (place, item) in items.as_slice().iter().enumerate() {
        let rest = along_member(alloc, name, item)?;
        best = with_item(alloc, best, place, rest)?;
    }
    Ok(best)
}

fn along_items(alloc: Global, name: &str, value: &Val) -> Result<Option<String>, AllocError>
    ensures { IfOk result (λ p. option_map string_bytes p
        ≡ least (along (to_each ∷ to name.now ∷ []) (tree value.now))) }
{
    match value {
        Val::List(items) => in_items(alloc, name, items),
        _ => Ok(None),
    }
}

// In the member of a name of each item of a list, which is the member of another.
#[tactic(auto, using(crate::proofs::TextLemmas::least_front))]
fn along_listed(
    alloc: Global,
    list: &str,
    name: &str,
    value: &Val,
) -> Result<Option<String>, AllocError>
    ensures { IfOk result (λ p. option_map string_bytes p
        ≡ least (along (to list.now ∷ to_each ∷ to name.now ∷ []) (tree value.now))) }
{
    match value.member(list) {
        None => Ok(None),
        Some(items) => {
            let found = along_items(alloc, name, items)?;
            with_member(alloc, None, list, found)
        }
    }
}

#[tactic(auto, using(crate::proofs::TextLemmas::least_front))]
fn along_variables(alloc: Global, action: &Val) -> Result<Option<String>, AllocError>
    ensures { IfOk result (λ p. option_map string_bytes p
        ≡ least (along (to (codes "inputs") ∷ to (codes "variables") ∷ to_each ∷ to (codes "value") ∷ []) (tree action.now))) }
{
    match action.member("inputs") {
        None => Ok(None),
        Some(inputs) => {
            let found = along_listed(alloc, "variables", "value", inputs)?;
            with_member(alloc, None, "inputs", found)
        }
    }
}

// The lesser of the best pointer so far and the one in a member, unless that has the name.
#[tactic(auto, using(crate::proofs::TextLemmas::least_front, crate::proofs::TextLemmas::lesser_none))]
fn with_other(
    alloc: Global,
    best: Option<String>,
    name: &str,
    key: &str,
    member: &Val,
) -> Result<Option<String>, AllocError>
    ensures { IfOk result (λ p. option_map string_bytes p
        ≡ lesser (option_map string_bytes best) (least (in_other name.now bad_texts_of key.now (tree member.now)))) }
{
    if key == name {
        Ok(best)
    } else {
        let rest = bad_texts(alloc, member)?;
        with_member(alloc, best, key, rest)
    }
}

// In each member but the one of a name.
fn in_members_but(alloc: Global, name: &str, fields: &Fields) -> Result<Option<String>, AllocError>
    ensures { IfOk result (λ p. option_map string_bytes p
        ≡ least (in_members_but name.now bad_texts_of (members fields.now))) }
{
    let mut best = None;
    for (key, member) in fields.as_slice() {
        best = with_other(alloc, best, name, key.as_str(), member)?;
    }
    Ok(best)
}

fn along_others(alloc: Global, name: &str, value: &Val) -> Result<Option<String>, AllocError>
    ensures { IfOk result (λ p. option_map string_bytes p ≡ least (along (to_all_but name.now ∷ []) (tree value.now))) }
{
    match value {
        Val::Obj(fields) => in_members_but(alloc, name, fields),
        _ => Ok(None),
    }
}

#[tactic(auto, using(crate::proofs::TextLemmas::least_front))]
fn along_inputs_but(alloc: Global, name: &str, action: &Val) -> Result<Option<String>, AllocError>
    ensures { IfOk result (λ p. option_map string_bytes p
        ≡ least (along (to (codes "inputs") ∷ to_all_but name.now ∷ []) (tree action.now))) }
{
    match action.member("inputs") {
        None => Ok(None),
        Some(inputs) => {
            let found = along_others(alloc, name, inputs)?;
            with_member(alloc, None, "inputs", found)
        }
    }
}

// ---- by types

#[tactic(auto, using(crate::proofs::TextLemmas::least_append, crate::proofs::TextLemmas::least_end))]
fn along_two_inputs(
    alloc: Global,
    one: &str,
    other: &str,
    action: &Val,
) -> Result<Option<String>, AllocError>
    ensures { IfOk result (λ p. option_map string_bytes p
        ≡ least (along_all (to_input one.now ∷ to_input other.now ∷ []) (tree action.now))) }
{
    let first = along_input(alloc, one, action)?;
    let second = along_input(alloc, other, action)?;
    Ok(lesser(first, second))
}

#[tactic(auto, using(crate::proofs::TextLemmas::least_end))]
fn along_type(
    alloc: Global,
    action_type: Option<ActionType>,
    action: &Val,
) -> Result<Option<String>, AllocError>
    ensures { IfOk result (λ p. option_map string_bytes p
        ≡ least (along_all (type_ways action_type) (tree action.now))) }
{
    match action_type {
        None => Ok(None),
        Some(ActionType::Compose) => along_member(alloc, "inputs", action),
        Some(ActionType::Connector) => along_inputs_but(alloc, "retryPolicy", action),
        Some(ActionType::Wait) => along_member(alloc, "inputs", action),
        Some(ActionType::Response) => along_member(alloc, "inputs", action),
        Some(ActionType::Terminate) => along_member(alloc, "inputs", action),
        Some(ActionType::Select) => along_two_inputs(alloc, "from", "select", action),
        Some(ActionType::Query) => along_two_inputs(alloc, "from", "where", action),
        Some(ActionType::Join) => along_two_inputs(alloc, "from", "joinWith", action),
        Some(ActionType::ParseJson) => along_input(alloc, "content", action),
        Some(ActionType::InitializeVariable) => along_variables(alloc, action),
        Some(ActionType::SetVariable) => along_input(alloc, "value", action),
        Some(ActionType::IncrementVariable) => along_input(alloc, "value", action),
        Some(ActionType::DecrementVariable) => along_input(alloc, "value", action),
        Some(ActionType::AppendToArrayVariable) => along_input(alloc, "value", action),
        Some(ActionType::AppendToStringVariable) => along_input(alloc, "value", action),
        Some(ActionType::Scope) => Ok(None),
        Some(ActionType::If) => along_member(alloc, "expression", action),
        Some(ActionType::Switch) => along_member(alloc, "expression", action),
        Some(ActionType::Foreach) => along_member(alloc, "foreach", action),
        Some(ActionType::Until) => along_member(alloc, "expression", action),
    }
}

/// The least pointer, from an action on, of a bad text where its type has templates. Of an unknown type only what it tracks
/// is looked at.
#[tactic(auto, using(crate::proofs::TextLemmas::least_append), unfolding(crate::specs::Members::bad_texts_of_action))]
pub fn bad_texts_of_action(alloc: Global, action: &Val) -> Result<Option<String>, AllocError>
    ensures { IfOk result (λ p. option_map string_bytes p ≡ least (bad_texts_of_action (tree action.now))) }
{
    let tracked = along_member(alloc, "trackedProperties", action)?;
    let own = along_type(alloc, ActionType::of(action), action)?;
    Ok(lesser(tracked, own))
}

/// The least pointer, from a trigger on, of a bad text in what it splits on or in the expression of a condition.
#[tactic(auto, using(crate::proofs::TextLemmas::least_append, crate::proofs::TextLemmas::least_end), unfolding(crate::specs::Members::bad_texts_of_trigger))]
pub fn bad_texts_of_trigger(alloc: Global, trigger: &Val) -> Result<Option<String>, AllocError>
    ensures { IfOk result (λ p. option_map string_bytes p ≡ least (bad_texts_of_trigger (tree trigger.now))) }
{
    let split = along_member(alloc, "splitOn", trigger)?;
    let condition = along_listed(alloc, "conditions", "expression", trigger)?;
    Ok(lesser(split, condition))
}

/// The least pointer, from an output on, of a bad text in its value.
#[tactic(auto, using(crate::proofs::TextLemmas::least_end), unfolding(crate::specs::Members::bad_texts_of_output))]
pub fn bad_texts_of_output(alloc: Global, output: &Val) -> Result<Option<String>, AllocError>
    ensures { IfOk result (λ p. option_map string_bytes p ≡ least (bad_texts_of_output (tree output.now))) }
{
    along_member(alloc, "value", output)
}
