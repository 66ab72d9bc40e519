//! The least pointer of a bad text in a value.
ghost use Rattle.std.specs.Prelude.{◌≡◌, IfOk, option_map, string_bytes};
ghost use Rattle.wf_val.specs.Seen.{tree};
ghost use Rattle.wf_val.specs.ValueTree.{members, trees};
ghost use Rattle.wf_kinds.specs.Pointer.{here, least};
ghost use Rattle.wf_texts.specs.Bad.{bad_items, bad_members, bad_texts};
ghost use Rattle.wf_texts.specs.Sound.{is_bad as is_bad_text};

use crate::sound::is_bad;
use std::alloc::{AllocError, Global};
use wf_kinds::pointer::{here, with_item, with_member};
use wf_val::{Fields, Text, Val, Vals};

fn bad_text(alloc: Global, text: &Text) -> Result<Option<String>, AllocError>
    ensures { IfOk result (λ p. option_map string_bytes p ≡ least (here (is_bad_text text.now))) }
{
    let bad = is_bad(alloc, text)?;
    Ok(here(alloc, bad))
}

/// The least pointer of a bad text, from a value on. A value without one costs no memory but that of its templates, one
/// after another.
#[cycle(bad)]
pub(crate) fn bad_texts(alloc: Global, value: &Val) -> Result<Option<String>, AllocError>
    ensures { IfOk result (λ p. option_map string_bytes p ≡ least (bad_texts (tree value.now))) }
{
    match value {
        Val::Null | Val::Bool(_) | Val::Int(_) => Ok(None),
        Val::Text(text) => bad_text(alloc, text),
        Val::List(items) => bad_items(alloc, items),
        Val::Obj(fields) => bad_members(alloc, fields),
    }
}

#[cycle(bad)]
fn bad_items(alloc: Global, items: &Vals) -> Result<Option<String>, AllocError>
    ensures { IfOk result (λ p. option_map string_bytes p ≡ least (bad_items 0 (trees items.now))) }
{
    let mut best = None;
    for (place, item) in items.as_slice().iter().enumerate() {
        let rest = bad_texts(alloc, item)?;
        best = with_item(alloc, best, place, rest)?;
    }
    Ok(best)
}

#[cycle(bad)]
fn bad_members(alloc: Global, fields: &Fields) -> Result<Option<String>, AllocError>
    ensures { IfOk result (λ p. option_map string_bytes p ≡ least (bad_members (members fields.now))) }
{
    let mut best = None;
    for (key, member) in fields.as_slice() {
        let rest = bad_texts(alloc, member)?;
        best = with_member(alloc, best, key.as_str(), rest)?;
    }
    Ok(best)
}
