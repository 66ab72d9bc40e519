//! V3: limits.
ghost use Rattle.std.specs.Prelude.{◌≡◌, ◌||◌, nat_lt, IfOk, option_map, string_bytes};
ghost use Rattle.wf_after.specs.Pointer.{least};
ghost use Rattle.wf_val.specs.Seen.{tree};
ghost use Rattle.wf_form.specs.KnownSeen.{whole_seen};
ghost use Rattle.wf_form.specs.Limits.{limits, limits_at, member_count, too_many};
ghost use Rattle.wf_form.specs.declared.role.Role.{Role as RoleOf};

use crate::known::Known;
use crate::role::Role;
use std::alloc::{AllocError, Global};
use wf_after::pointer::{flagged, here, lesser};
use wf_val::Val;

const MOST_ACTIONS: usize = 500;

const MOST_PARAMETERS: u64 = 50;

const MOST_TRIGGERS: u64 = 10;

const MOST_OUTPUTS: u64 = 10;

const MOST_CASES: u64 = 25;

const DEEPEST_LEVEL: u32 = 8;

#[tactic(auto, using(wf_val::proofs::ValueTreeLemmas::listed))]
fn member_count(value: Option<&Val>) -> u64
    ensures { result ≡ member_count (option_map (λ v. tree v.now) value.entry) }
{
    match value {
        Some(Val::Obj(fields)) => fields.len(),
        _ => 0,
    }
}

// The object under the key, where it has more members than so many.
fn too_many(alloc: Global, most: u64, key: &str, value: &Val) -> Result<Option<String>, AllocError>
    ensures { IfOk result (λ p. option_map string_bytes p ≡ least (too_many most key.now (tree value.now))) }
{
    flagged(alloc, member_count(value.member(key)) > most, key)
}

fn are_too_many(known: &Known) -> bool
    ensures { result ≡ (nat_lt 500 (whole_seen known.now).actions || (whole_seen known.now).has_too_many_variables) }
{
    known.actions() > MOST_ACTIONS || known.has_too_many_variables()
}

#[tactic(auto, using(crate::proofs::WalkLemmas::least_append))]
fn definition_limits(
    alloc: Global,
    known: &Known,
    value: &Val,
) -> Result<Option<String>, AllocError>
    ensures { IfOk result (λ p. option_map string_bytes p ≡ least (limits_at (whole_seen known.now) RoleOf.Definition (tree value.now))) }
{
    let actions = flagged(alloc, are_too_many(known), "actions")?;
    let parameters = too_many(alloc, MOST_PARAMETERS, "parameters", value)?;
    let triggers = too_many(alloc, MOST_TRIGGERS, "triggers", value)?;
    let outputs = too_many(alloc, MOST_OUTPUTS, "outputs", value)?;
    Ok(lesser(actions, lesser(parameters, lesser(triggers, outputs))))
}

#[tactic(auto, unfolding(crate::specs::Limits::limits))]
pub(crate) fn limits(
    alloc: Global,
    known: &Known,
    role: Role,
    value: &Val,
) -> Result<Option<String>, AllocError>
    ensures { IfOk result (λ p. option_map string_bytes p ≡ least (limits (whole_seen known.now) role (tree value.now))) }
{
    match role {
        Role::Definition => definition_limits(alloc, known, value),
        Role::Action(level) => Ok(here(alloc, level > DEEPEST_LEVEL)),
        Role::Cases(_) => Ok(here(alloc, member_count(Some(value)) > MOST_CASES)),
        _ => Ok(None),
    }
}
