ghost use Rattle.std.specs.Prelude.{◌≡◌, ◌++◌, [], IfOk, IsUtf8, OnOk, OnErr, length};
ghost use Rattle.wf_val.specs.Seen.{tree};
ghost use Rattle.wf_val.specs.ValueTree.{list, object, trees, members as member_trees};
ghost use Rattle.wf_json.specs.Json.{json, string, text as text_of};
ghost use Rattle.wf_json.specs.Tokens.{tokens_of};

use json::Writer;
use std::alloc::{AllocError, Global};
use wf_val::{Fields, Text, Val, Vals};

/// The JSON text of a value, without white space and with the members in the byte order of their
/// names.
#[tactic(auto, using(crate::proofs::PrintLemmas::printed_value))]
pub fn write(alloc: Global, value: &Val) -> Result<Vec<u8>, AllocError>
    ensures text { IfOk result (λ b. b.items ≡ json (tree value.now)) }
    ensures utf8 { IfOk result (λ b. IsUtf8 b.items) }
{
    let mut writer = Writer::new(Vec::new(alloc));
    put(value, &mut writer)?;
    Ok(writer.into_inner())
}

/// Writes the JSON text of a value behind what there is. It is written by itself first, since a writer fills the bytes behind it in advance, as
/// many as there are before it: once for each of the many small values of a record, that would be most of the work.
pub fn write_to(out: &mut Vec<u8>, value: &Val) -> Result<(), AllocError>
    ensures ok { OnOk result (out.new.items ≡ out.old.items ++ json (tree value.now)) }
    ensures err { OnErr result (out.new.items ≡ out.old.items) }
{
    let bytes = write(*out.allocator(), value)?;
    out.extend_from_slice(&bytes)
}

/// Writes the JSON text of an object that has these members behind what there is.
#[tactic(auto, using(crate::proofs::PrintLemmas::printed_members))]
pub fn write_fields_to(out: &mut Vec<u8>, fields: &Fields) -> Result<(), AllocError>
    ensures ok { OnOk result
        (out.new.items ≡ out.old.items ++ json (object (member_trees fields.now))) }
    ensures err { OnErr result (out.new.items ≡ out.old.items) }
{
    let mut writer = Writer::new(Vec::new(*out.allocator()));
    put_members(fields, &mut writer)?;
    out.extend_from_slice(&writer.into_inner())
}

/// Writes a text as a JSON text behind what there is.
pub fn quote_to(out: &mut Vec<u8>, text: &str) -> Result<(), AllocError>
    ensures ok { OnOk result (out.new.items ≡ out.old.items ++ string text.now) }
    ensures err { OnErr result (out.new.items ≡ out.old.items) }
{
    let quoted = quoted(*out.allocator(), text)?;
    out.extend_from_slice(quoted.as_str().as_bytes())
}

/// A text as a JSON text: between quotation marks, with escapes.
#[tactic(auto, using(crate::proofs::PrintLemmas::printed_text))]
pub fn quoted(alloc: Global, text: &str) -> Result<Text, AllocError>
    ensures { IfOk result (λ t. t ≡ string text.now) }
{
    let mut writer = Writer::new(Vec::new(alloc));
    writer.string(text)?;
    Ok(Text::from_string(String::from_utf8(writer.into_inner()).unwrap()))
}

/// A value as text: a text is itself, null is empty, and all else is its JSON text.
pub fn text(alloc: Global, value: &Val) -> Result<Text, AllocError>
    ensures { IfOk result (λ t. t ≡ text_of (tree value.now)) }
{
    match value {
        Val::Text(text) => text.copy(alloc),
        Val::Null => Text::of(alloc, ""),
        _ => {
            let bytes = write(alloc, value)?;
            Ok(Text::from_string(String::from_utf8(bytes).unwrap()))
        }
    }
}

#[cycle(put)]
fn put(value: &Val, out: &mut Writer) -> Result<(), AllocError>
    ensures ok { OnOk result (out.new.tokens ≡ out.old.tokens ++ tokens_of (tree value.now)) }
    ensures before { out.new.before ≡ out.old.before }
{
    match value {
        Val::Null => out.null(),
        Val::Bool(b) => out.boolean(*b),
        Val::Int(n) => out.i64(*n),
        Val::Text(text) => out.string(text.as_str()),
        Val::List(items) => put_items(items, out),
        Val::Obj(fields) => put_members(fields, out),
    }
}

#[cycle(put)]
fn put_items(items: &Vals, out: &mut Writer) -> Result<(), AllocError>
    ensures ok { OnOk result
        (out.new.tokens ≡ out.old.tokens ++ tokens_of (list (trees items.now))) }
    ensures before { out.new.before ≡ out.old.before }
{
    out.begin_array()?;
    for item in items.as_slice() {
        put(item, out)?;
    }
    out.end_array()
}

#[cycle(put)]
fn put_members(fields: &Fields, out: &mut Writer) -> Result<(), AllocError>
    ensures ok { OnOk result
        (out.new.tokens ≡ out.old.tokens ++ tokens_of (object (member_trees fields.now))) }
    ensures before { out.new.before ≡ out.old.before }
{
    out.begin_object()?;
    for (name, value) in fields.as_slice() {
        out.key(name.as_str())?;
        put(value, out)?;
    }
    out.end_object()
}
