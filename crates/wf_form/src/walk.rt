//! The least place that breaks a rule.
ghost use Rattle.std.specs.Prelude.{◌≡◌, IfOk, option_map, string_bytes};
ghost use Rattle.wf_after.specs.Pointer.{least, lesser};
ghost use Rattle.wf_val.specs.Seen.{tree};
ghost use Rattle.wf_val.specs.ValueTree.{members};
ghost use Rattle.wf_form.specs.Actions.{in_part};
ghost use Rattle.wf_form.specs.KnownSeen.{whole_seen};
ghost use Rattle.wf_form.specs.Places.{in_members, places};

use crate::judge::judge;
use crate::known::Known;
use crate::role::{Holder, Role};
use crate::rule::Rule;
use std::alloc::{AllocError, Global};
use wf_after::pointer::with_member;
use wf_val::{Fields, Val};

/// The least pointer, from a value on, of what breaks the rule in it. A value that breaks nothing costs no memory.
#[cycle(least)]
#[tactic(auto, using(crate::proofs::WalkLemmas::own_and_members))]
pub(crate) fn least_in(
    alloc: Global,
    rule: Rule,
    known: &Known,
    role: Role,
    key: &str,
    value: &Val,
) -> Result<Option<String>, AllocError>
    ensures { IfOk result (λ p. option_map string_bytes p
        ≡ least (places rule (whole_seen known.now) role key.now (tree value.now))) }
{
    let own = judge(alloc, rule, known, role, key, value)?;
    match value {
        Val::Obj(fields) => least_with_members(
            alloc,
            rule,
            known,
            role,
            Holder::of(value),
            own,
            fields,
        ),
        _ => Ok(own),
    }
}

// The lesser of a pointer and the least in the members.
#[cycle(least)]
fn least_with_members(
    alloc: Global,
    rule: Rule,
    known: &Known,
    role: Role,
    holder: Holder,
    own: Option<String>,
    fields: &Fields,
) -> Result<Option<String>, AllocError>
    ensures { IfOk result (λ p. option_map string_bytes p
        ≡ lesser (option_map string_bytes own) (least (in_members rule (whole_seen known.now) role holder (members fields.now)))) }
{
    let mut best = own;
    for (key, value) in fields.as_slice() {
        let part = role.child(holder, key.as_str());
        let rest = least_in_part(alloc, rule, known, part, key.as_str(), value)?;
        best = with_member(alloc, best, key.as_str(), rest)?;
    }
    Ok(best)
}

// The same of a member, where the rules look at it.
#[cycle(least)]
fn least_in_part(
    alloc: Global,
    rule: Rule,
    known: &Known,
    part: Option<Role>,
    key: &str,
    value: &Val,
) -> Result<Option<String>, AllocError>
    ensures { IfOk result (λ p. option_map string_bytes p
        ≡ least (in_part part (λ role. places rule (whole_seen known.now) role key.now (tree value.now)))) }
{
    match part {
        None => Ok(None),
        Some(role) => least_in(alloc, rule, known, role, key, value),
    }
}
