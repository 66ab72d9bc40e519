//! Whether a value is a schema.
ghost use Rattle.std.specs.Prelude.{◌≡◌, map};
ghost use Rattle.std.specs.List.{list_all};
ghost use Rattle.wf_schema.specs.Keywords.{are_keywords, are_names, are_properties, are_schemas, are_types, is_keyword, is_schema};
ghost use Rattle.wf_schema.specs.SchemaForm.{is_text, is_type};
ghost use Rattle.wf_val.specs.Seen.{tree};
ghost use Rattle.wf_val.specs.ValueTree.{members};

use crate::part::{is_list, is_text, is_type};
use wf_val::{Fields, Val};

fn are_all_types(items: &[Val]) -> bool
    ensures { result ≡ list_all is_type (map tree items.now) }
{
    for item in items {
        if !is_type(item) {
            return false;
        }
    }
    true
}

fn are_all_texts(items: &[Val]) -> bool
    ensures { result ≡ list_all is_text (map tree items.now) }
{
    for item in items {
        if !is_text(item) {
            return false;
        }
    }
    true
}

#[tactic(auto, using(wf_val::proofs::ValueTreeLemmas::listed))]
fn are_types(value: &Val) -> bool
    ensures { result ≡ are_types (tree value.now) }
{
    match value {
        Val::List(items) => items.len() > 0 && are_all_types(items.as_slice()),
        _ => is_type(value),
    }
}

#[tactic(auto, using(wf_val::proofs::ValueTreeLemmas::listed))]
fn are_names(value: &Val) -> bool
    ensures { result ≡ are_names (tree value.now) }
{
    match value {
        Val::List(items) => are_all_texts(items.as_slice()),
        _ => false,
    }
}

/// Whether a value is a schema: an object, whose members of five names are as they have to be. This takes no memory.
#[cycle(schema)]
pub fn is_schema(value: &Val) -> bool
    ensures { result ≡ is_schema (tree value.now) }
{
    match value {
        Val::Obj(fields) => are_keywords(fields),
        _ => false,
    }
}

#[cycle(schema)]
fn are_keywords(fields: &Fields) -> bool
    ensures { result ≡ are_keywords (members fields.now) }
{
    for (name, value) in fields.as_slice() {
        if !is_keyword(name.as_str(), value) {
            return false;
        }
    }
    true
}

#[cycle(schema)]
fn is_keyword(name: &str, value: &Val) -> bool
    ensures { result ≡ is_keyword name.now (tree value.now) (is_schema (tree value.now)) (are_properties (tree value.now)) }
{
    match name {
        "enum" => is_list(value),
        "items" => is_list(value) || is_schema(value),
        "properties" => are_properties(value),
        "required" => are_names(value),
        "type" => are_types(value),
        _ => true,
    }
}

#[cycle(schema)]
fn are_properties(value: &Val) -> bool
    ensures { result ≡ are_properties (tree value.now) }
{
    match value {
        Val::Obj(fields) => are_schemas(fields),
        _ => false,
    }
}

#[cycle(schema)]
fn are_schemas(fields: &Fields) -> bool
    ensures { result ≡ are_schemas (members fields.now) }
{
    for (_, value) in fields.as_slice() {
        if !is_schema(value) {
            return false;
        }
    }
    true
}
