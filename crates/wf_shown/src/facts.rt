//! Members with their values.
ghost use Rattle.std.specs.Prelude.{◌≡◌, IfOk};
ghost use Rattle.wf_html.specs.Html.{written};
ghost use Rattle.wf_shown.specs.Facts.{fact, fact_of_members, fact_text, is_bare};
ghost use Rattle.wf_val.specs.Seen.{tree};

use std::alloc::{AllocError, Global};
use wf_html::{Tag, close, open, say_bytes, say_in};
use wf_val::Val;

/// A member's name, and a text that stands for its value.
pub fn fact_text(bytes: Vec<u8>, name: &str, text: &[u8]) -> Result<Vec<u8>, AllocError>
    ensures { IfOk result (λ b. b.items ≡ written bytes.items (fact_text name.now text.now)) }
{
    let bytes = say_in(bytes, Tag::Term, name)?;
    let bytes = open(bytes, Tag::Value)?;
    let bytes = open(bytes, Tag::Data)?;
    let bytes = say_bytes(bytes, text)?;
    let bytes = close(bytes, Tag::Data)?;
    let bytes = close(bytes, Tag::Value)?;
    Ok(bytes)
}

/// A member's name and its value in JSON (RFC 8259); nothing where the value is null.
pub fn fact(alloc: Global, bytes: Vec<u8>, name: &str, value: &Val) -> Result<Vec<u8>, AllocError>
    ensures { IfOk result (λ b. b.items ≡ written bytes.items (fact name.now (tree value.now))) }
{
    match value {
        Val::Null => Ok(bytes),
        _ => {
            let text = wf_json::write(alloc, value)?;
            fact_text(bytes, name, &text)
        }
    }
}

#[tactic(auto, using(crate::proofs::FactLemmas::bare_by_length))]
fn is_bare(value: &Val) -> bool
    ensures { result ≡ is_bare (tree value.now) }
{
    match value {
        Val::Obj(fields) => fields.len() == 0,
        _ => false,
    }
}

/// The same of an object of values by their names; nothing where it has no member.
pub fn fact_of_members(
    alloc: Global,
    bytes: Vec<u8>,
    name: &str,
    value: &Val,
) -> Result<Vec<u8>, AllocError>
    ensures { IfOk result (λ b. b.items ≡ written bytes.items (fact_of_members name.now (tree value.now))) }
{
    if is_bare(value) {
        return Ok(bytes);
    }
    fact(alloc, bytes, name, value)
}
