//! What breaks a rule where it stands.
ghost use Rattle.std.specs.Prelude.{◌≡◌, IfOk, option_map, string_bytes};
ghost use Rattle.wf_after.specs.Pointer.{least};
ghost use Rattle.wf_val.specs.Seen.{tree};
ghost use Rattle.wf_form.specs.Judge.{expressions, judge, lacking, lacks_members, run_after, run_after_in};
ghost use Rattle.wf_form.specs.KnownSeen.{whole_seen};

use crate::form::form;
use crate::known::Known;
use crate::limits::limits;
use crate::naming::naming;
use crate::role::Role;
use crate::rule::Rule;
use crate::schema::schema;
use crate::types::types;
use std::alloc::{AllocError, Global};
use wf_after::bad_run_after;
use wf_after::pointer::here;
use wf_texts::{
    action_has_members, bad_texts_of_action, bad_texts_of_output, bad_texts_of_trigger,
    output_has_members, trigger_has_members,
};
use wf_val::Val;

fn lacks_members(role: Role, value: &Val) -> bool
    ensures { result ≡ lacks_members role (tree value.now) }
{
    match role {
        Role::Action(_) => !action_has_members(value),
        Role::Trigger => !trigger_has_members(value),
        Role::Output => !output_has_members(value),
        _ => false,
    }
}

#[tactic(auto, unfolding(crate::specs::Judge::lacking))]
fn lacking(alloc: Global, role: Role, value: &Val) -> Option<String>
    ensures { option_map string_bytes result ≡ least (lacking role (tree value.now)) }
{
    here(alloc, lacks_members(role, value))
}

fn run_after_in(alloc: Global, graph: &Val) -> Result<Option<String>, AllocError>
    ensures { IfOk result (λ p. option_map string_bytes p ≡ least (run_after_in (tree graph.now))) }
{
    match graph {
        Val::Obj(actions) => bad_run_after(alloc, actions),
        _ => Ok(None),
    }
}

#[tactic(auto, unfolding(crate::specs::Judge::expressions))]
fn expressions(alloc: Global, role: Role, value: &Val) -> Result<Option<String>, AllocError>
    ensures { IfOk result (λ p. option_map string_bytes p ≡ least (expressions role (tree value.now))) }
{
    match role {
        Role::Action(_) => bad_texts_of_action(alloc, value),
        Role::Trigger => bad_texts_of_trigger(alloc, value),
        Role::Output => bad_texts_of_output(alloc, value),
        _ => Ok(None),
    }
}

#[tactic(auto, unfolding(crate::specs::Judge::run_after))]
fn run_after(alloc: Global, role: Role, value: &Val) -> Result<Option<String>, AllocError>
    ensures { IfOk result (λ p. option_map string_bytes p ≡ least (run_after role (tree value.now))) }
{
    match role {
        Role::Graph(_) => run_after_in(alloc, value),
        _ => Ok(None),
    }
}

/// The least pointer, from a value on, of what breaks the rule where the value stands.
pub(crate) fn judge(
    alloc: Global,
    rule: Rule,
    known: &Known,
    role: Role,
    key: &str,
    value: &Val,
) -> Result<Option<String>, AllocError>
    ensures { IfOk result (λ p. option_map string_bytes p ≡ least (judge rule (whole_seen known.now) role key.now (tree value.now))) }
{
    match rule {
        Rule::Form => form(alloc, role, value),
        Rule::Schema => schema(alloc, role, value),
        Rule::Limits => limits(alloc, known, role, value),
        Rule::Names => Ok(naming(alloc, known, role, key)),
        Rule::Types => Ok(types(alloc, role, value)),
        Rule::Members => Ok(lacking(alloc, role, value)),
        Rule::Expressions => expressions(alloc, role, value),
        Rule::RunAfter => run_after(alloc, role, value),
    }
}
