//! What is amiss at a value itself.
ghost use Rattle.std.specs.Prelude.{◌≡◌, IfOk, is_none, map, option_map, string_bytes};
ghost use Rattle.wf_json.specs.Pointer.{flagged, least, lesser};
ghost use Rattle.wf_places.specs.Form.{lacking, own};
ghost use Rattle.wf_val.specs.Get.{get};
ghost use Rattle.wf_val.specs.Seen.{tree};

use crate::form::Form;
use std::alloc::{AllocError, Global};
use wf_json::pointer::{flagged, here, lesser};
use wf_val::Val;

// The least pointer of what is amiss at the value itself and of the members that it lacks.
#[tactic(auto, using(crate::proofs::WalkLemmas::least_append))]
pub(crate) fn own<F: Form>(
    alloc: Global,
    role: F,
    value: &Val,
) -> Result<Option<String>, AllocError>
    ensures { IfOk result (λ p. option_map string_bytes p ≡ least (own F.table role (tree value.now))) }
{
    let whole = here(alloc, !role.is_right(value));
    let lacking = lacking(alloc, role.needed(), value)?;
    let beside = role.beside(alloc, value)?;
    Ok(lesser(whole, lesser(lacking, beside)))
}

// The least pointer of a member that the value must have and lacks.
#[tactic(auto, using(crate::proofs::WalkLemmas::lacking_step))]
fn lacking(alloc: Global, names: &[&str], value: &Val) -> Result<Option<String>, AllocError>
    ensures { IfOk result (λ p. option_map string_bytes p ≡ least (lacking (map (λ name. name.now) names.now) (tree value.now))) }
{
    let mut best = None;
    for name in names {
        best = lacking_too(alloc, best, name, value)?;
    }
    Ok(best)
}

// The lesser of the best pointer so far and that of a further member, if the value lacks it.
fn lacking_too(
    alloc: Global,
    best: Option<String>,
    name: &str,
    value: &Val,
) -> Result<Option<String>, AllocError>
    ensures { IfOk result (λ p. option_map string_bytes p
        ≡ lesser (option_map string_bytes best) (least (flagged (is_none (get name.now (tree value.now))) name.now))) }
{
    let found = flagged(alloc, value.member(name).is_none(), name)?;
    Ok(lesser(best, found))
}
