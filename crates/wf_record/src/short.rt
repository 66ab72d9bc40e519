//! The JSON text of a value, written where it goes. A writer of JSON has a buffer of its own, which for the many small values of a record is
//! most of the work.
ghost use Rattle.std.specs.Prelude.{◌≡◌, ◌++◌, OnOk, flat_map};
ghost use Rattle.wf_json.specs.Json.{escaped, json};
ghost use Rattle.wf_val.specs.Seen.{tree};
ghost use Rattle.wf_val.specs.ValueTree as value;

use crate::plain::is_plain;
use std::alloc::AllocError;
use wf_lines::put_number;
use wf_val::{Fields, Val, Vals};

/// Writes the JSON text of a value behind what there is.
#[cycle(put)]
pub(crate) fn put_value(bytes: &mut Vec<u8>, value: &Val) -> Result<(), AllocError>
    ensures { OnOk result (bytes.new.items ≡ bytes.old.items ++ json (tree value.now)) }
{
    match value {
        Val::Null => bytes.extend_from_slice(b"null"),
        Val::Bool(true) => bytes.extend_from_slice(b"true"),
        Val::Bool(false) => bytes.extend_from_slice(b"false"),
        Val::Int(number) => put_number(bytes, *number),
        Val::Text(text) => put_text(bytes, text.as_str()),
        Val::List(items) => put_items(bytes, items),
        Val::Obj(fields) => put_fields(bytes, fields),
    }
}

/// Writes the JSON text of a list behind what there is.
#[cycle(put)]
#[tactic(auto, using(crate::proofs::ShortLemmas::no_values_left, std::proofs::Common::append_assoc))]
fn put_items(bytes: &mut Vec<u8>, items: &Vals) -> Result<(), AllocError>
    ensures { OnOk result (bytes.new.items ≡ bytes.old.items ++ json (value.list (value.trees items.now))) }
{
    bytes.push(b'[')?;
    for (place, item) in items.as_slice().iter().enumerate() {
        if place > 0 {
            bytes.push(b',')?;
        }
        put_value(bytes, item)?;
    }
    bytes.push(b']')?;
    Ok(())
}

/// Writes the JSON text of an object that has these members behind what there is.
#[cycle(put)]
#[tactic(auto, using(crate::proofs::ShortLemmas::no_members_left, std::proofs::Common::append_assoc))]
pub(crate) fn put_fields(bytes: &mut Vec<u8>, fields: &Fields) -> Result<(), AllocError>
    ensures { OnOk result (bytes.new.items ≡ bytes.old.items ++ json (value.object (value.members fields.now))) }
{
    bytes.push(b'{')?;
    for (place, member) in fields.as_slice().iter().enumerate() {
        if place > 0 {
            bytes.push(b',')?;
        }
        let (name, value) = member;
        put_text(bytes, name.as_str())?;
        bytes.push(b':')?;
        put_value(bytes, value)?;
    }
    bytes.push(b'}')?;
    Ok(())
}

/// Writes a text, in quotation marks, behind what there is.
pub(crate) fn put_text(bytes: &mut Vec<u8>, text: &str) -> Result<(), AllocError>
    ensures { OnOk result (bytes.new.items ≡ bytes.old.items ++ json (value.text text.now)) }
{
    if !is_plain(text.as_bytes()) {
        return wf_json::quote_to(bytes, text);
    }
    put_plain(bytes, text.as_bytes())
}

/// Writes a text of which each byte stands for itself, in quotation marks, behind what there is.
pub(crate) fn put_plain(bytes: &mut Vec<u8>, text: &[u8]) -> Result<(), AllocError>
    requires { flat_map escaped text.now ≡ text.now }
    ensures { OnOk result (bytes.new.items ≡ bytes.old.items ++ json (value.text text.now)) }
{
    bytes.push(b'"')?;
    bytes.extend_from_slice(text)?;
    bytes.push(b'"')?;
    Ok(())
}
