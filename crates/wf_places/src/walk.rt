//! The least place at which a value isn't of a form.
ghost use Rattle.std.specs.Prelude.{◌≡◌, IfOk, option_map, string_bytes};
ghost use Rattle.wf_json.specs.Pointer.{least, lesser};
ghost use Rattle.wf_places.specs.Form.{in_items, in_members, in_part, places};
ghost use Rattle.wf_places.specs.Least.{IsLeastOf};
ghost use Rattle.wf_val.specs.Seen.{tree};
ghost use Rattle.wf_val.specs.ValueTree.{members, trees};

use crate::form::Form;
use crate::own::own;
use std::alloc::{AllocError, Global};
use wf_json::pointer::{here, with_item, with_member};
use wf_val::{Fields, Val, Vals};

/// The least pointer, from the value on, of the places at which something that its role asks isn't so; none where all
/// is.
#[tactic(auto, using(crate::proofs::WalkLemmas::least_of))]
pub fn least_place<F: Form>(
    alloc: Global,
    role: F,
    value: &Val,
) -> Result<Option<String>, AllocError>
    ensures exact { IfOk result (λ p. option_map string_bytes p ≡ least (places F.table role (tree value.now))) }
    ensures least { IfOk result (λ p. IsLeastOf (places F.table role (tree value.now)) (option_map string_bytes p)) }
{
    let place = least_in(alloc, role, value)?;
    Ok(place)
}

// The same, for the walk.
#[cycle(least)]
#[tactic(auto, using(crate::proofs::WalkLemmas::own_and_members, crate::proofs::WalkLemmas::own_and_items))]
fn least_in<F: Form>(alloc: Global, role: F, value: &Val) -> Result<Option<String>, AllocError>
    ensures { IfOk result (λ p. option_map string_bytes p ≡ least (places F.table role (tree value.now))) }
{
    let own = own(alloc, role, value)?;
    match value {
        Val::Obj(fields) => least_with_members(alloc, role, own, fields),
        Val::List(items) => match role.item() {
            None => Ok(own),
            Some(part) => least_with_items(alloc, part, own, items),
        },
        _ => Ok(own),
    }
}

// The lesser of a pointer and the least in the members.
#[cycle(least)]
fn least_with_members<F: Form>(
    alloc: Global,
    role: F,
    own: Option<String>,
    fields: &Fields,
) -> Result<Option<String>, AllocError>
    ensures { IfOk result (λ p. option_map string_bytes p
        ≡ lesser (option_map string_bytes own) (least (in_members F.table role (members fields.now)))) }
{
    let mut best = own;
    let closed = role.is_closed();
    for (name, member) in fields.as_slice() {
        let rest = least_in_part(alloc, closed, role.member(name.as_str()), member)?;
        best = with_member(alloc, best, name.as_str(), rest)?;
    }
    Ok(best)
}

// The least in a member, from it on.
#[cycle(least)]
fn least_in_part<F: Form>(
    alloc: Global,
    closed: bool,
    part: Option<F>,
    value: &Val,
) -> Result<Option<String>, AllocError>
    ensures { IfOk result (λ p. option_map string_bytes p
        ≡ least (in_part closed part (λ role. places F.table role (tree value.now)))) }
{
    match part {
        None => Ok(here(alloc, closed)),
        Some(role) => least_in(alloc, role, value),
    }
}

// The lesser of a pointer and the least in the items, which have one role.
#[cycle(least)]
fn least_with_items<F: Form>(
    alloc: Global,
    role: F,
    own: Option<String>,
    items: &Vals,
) -> Result<Option<String>, AllocError>
    ensures { IfOk result (λ p. option_map string_bytes p
        ≡ lesser (option_map string_bytes own) (least (in_items F.table role 0 (trees items.now)))) }
{
    let mut best = own;
    for (place, item) in items.as_slice().iter().enumerate() {
        let rest = least_in(alloc, role, item)?;
        best = with_item(alloc, best, place, rest)?;
    }
    Ok(best)
}
