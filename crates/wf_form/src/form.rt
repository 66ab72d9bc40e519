//! V1: the forms of values.
ghost use Rattle.std.specs.Prelude.{◌≡◌, map, IfOk, option_map, string_bytes};
ghost use Rattle.std.specs.List.{list_all};
ghost use Rattle.wf_after.specs.Pointer.{least};
ghost use Rattle.wf_val.specs.Get.{is_object};
ghost use Rattle.wf_val.specs.Seen.{tree, member};
ghost use Rattle.wf_form.specs.Form.{breaks, form, has_shape, is_list_of_texts, is_run_after, is_text, members_form, misshapen};
ghost use Rattle.wf_form.specs.declared.role.Role.{Role as RoleOf};

use crate::role::Role;
use std::alloc::{AllocError, Global};
use wf_after::pointer::{flagged, here, lesser};
use wf_val::{Text, Val};

/// What a member has to be.
#[derive(Clone, Copy, PartialEq, Eq)]
pub(crate) enum Shape {
    Text,
    List,
    Object,
    /// An object of lists of texts.
    RunAfter,
}

fn is_text(value: &Val) -> bool
    ensures { result ≡ is_text (tree value.now) }
{
    matches!(value, Val::Text(_))
}

fn are_texts(values: &[Val]) -> bool
    ensures { result ≡ list_all is_text (map tree values.now) }
{
    for value in values {
        if !is_text(value) {
            return false;
        }
    }
    true
}

#[tactic(auto, using(wf_val::proofs::ValueTreeLemmas::listed))]
fn is_list_of_texts(value: &Val) -> bool
    ensures { result ≡ is_list_of_texts (tree value.now) }
{
    match value {
        Val::List(items) => are_texts(items.as_slice()),
        _ => false,
    }
}

fn are_lists_of_texts(members: &[(Text, Val)]) -> bool
    ensures { result ≡ list_all (λ m. is_list_of_texts m.1) (map member members.now) }
{
    for (_, value) in members {
        if !is_list_of_texts(value) {
            return false;
        }
    }
    true
}

#[tactic(auto, using(wf_val::proofs::ValueTreeLemmas::listed))]
fn is_run_after(value: &Val) -> bool
    ensures { result ≡ is_run_after (tree value.now) }
{
    match value {
        Val::Obj(fields) => are_lists_of_texts(fields.as_slice()),
        _ => false,
    }
}

fn is_object(value: &Val) -> bool
    ensures { result ≡ is_object (tree value.now) }
{
    matches!(value, Val::Obj(_))
}

impl Shape {
    fn is_of(self, value: &Val) -> bool
        ensures { result ≡ has_shape self (tree value.now) }
    {
        match self {
            Shape::Text => is_text(value),
            Shape::List => matches!(value, Val::List(_)),
            Shape::Object => is_object(value),
            Shape::RunAfter => is_run_after(value),
        }
    }

    fn is_broken_by(self, value: Option<&Val>) -> bool
        ensures { result ≡ breaks self (option_map (λ v. tree v.now) value.entry) }
    {
        match value {
            Some(value) => !self.is_of(value),
            None => false,
        }
    }
}

// The member of the key, where there is one that isn't of the shape.
fn misshapen(
    alloc: Global,
    shape: Shape,
    key: &str,
    value: &Val,
) -> Result<Option<String>, AllocError>
    ensures { IfOk result (λ p. option_map string_bytes p ≡ least (misshapen shape key.now (tree value.now))) }
{
    flagged(alloc, shape.is_broken_by(value.member(key)), key)
}

#[tactic(auto, using(crate::proofs::WalkLemmas::least_append))]
fn action_form(alloc: Global, level: u32, action: &Val) -> Result<Option<String>, AllocError>
    ensures { IfOk result (λ p. option_map string_bytes p ≡ least (members_form (RoleOf.Action level) (tree action.now))) }
{
    let after = misshapen(alloc, Shape::RunAfter, "runAfter", action)?;
    let tracked = misshapen(alloc, Shape::Object, "trackedProperties", action)?;
    let configuration = misshapen(alloc, Shape::Object, "runtimeConfiguration", action)?;
    Ok(lesser(after, lesser(tracked, configuration)))
}

fn members_form(alloc: Global, role: Role, value: &Val) -> Result<Option<String>, AllocError>
    ensures { IfOk result (λ p. option_map string_bytes p ≡ least (members_form role (tree value.now))) }
{
    match role {
        Role::Definition => misshapen(alloc, Shape::Text, "contentVersion", value),
        Role::Parameter => misshapen(alloc, Shape::List, "allowedValues", value),
        Role::Action(level) => action_form(alloc, level, value),
        _ => Ok(None),
    }
}

#[tactic(auto, unfolding(crate::specs::Form::form))]
pub(crate) fn form(alloc: Global, role: Role, value: &Val) -> Result<Option<String>, AllocError>
    ensures { IfOk result (λ p. option_map string_bytes p ≡ least (form role (tree value.now))) }
{
    if is_object(value) {
        members_form(alloc, role, value)
    } else {
        Ok(here(alloc, true))
    }
}
