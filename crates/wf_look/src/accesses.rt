//! Accesses to members and items.
ghost use Rattle.std.specs.Prelude.{◌≡◌, IfOk, option_map};
ghost use Rattle.wf_val.specs.Arguments.{Gives, seen};
ghost use Rattle.wf_val.specs.Seen.{tree};
ghost use Rattle.wf_look.specs.Accesses.{member_row, item_at, index_row};

use std::alloc::{AllocError, Global};
use wf_val::{EvalFault, Fun, Text, Val, wrong_type};

/// The member of a name.
pub fn member_of(alloc: Global, value: Val, name: &Text, soft: bool) -> Result<Val, EvalFault>
    ensures { Gives (seen result) (member_row name.now soft (tree value)) }
{
    match value.into_member(alloc, name)? {
        Some(member) => Ok(member),
        None => {
            if soft {
                Ok(Val::Null)
            } else {
                Err(EvalFault::NoMember {
                    name: name.copy(alloc)?,
                })
            }
        }
    }
}

// The item at a place, which may be below 0.
fn item_at(alloc: Global, value: Val, place: i64) -> Result<Option<Val>, AllocError>
    ensures { IfOk result (λ found. option_map tree found ≡ item_at place (tree value)) }
{
    if place >= 0 {
        value.into_item(alloc, place as u64)
    } else {
        Ok(None)
    }
}

/// The member or the item that a key names.
pub fn index_of(alloc: Global, value: Val, key: &Val, soft: bool) -> Result<Val, EvalFault>
    ensures { Gives (seen result) (index_row soft (tree value) (tree key.now)) }
{
    match key {
        Val::Text(name) => member_of(alloc, value, name, soft),
        Val::Int(place) => match item_at(alloc, value, *place)? {
            Some(item) => Ok(item),
            None => {
                if soft {
                    Ok(Val::Null)
                } else {
                    Err(EvalFault::NoMember {
                        name: Text::from_string(format!(in alloc; "{place}")?),
                    })
                }
            }
        },
        _ => Err(wrong_type(Fun::Index, 1)),
    }
}
