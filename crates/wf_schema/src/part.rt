//! The form of a schema.
ghost use Rattle.std.specs.Prelude.{◌≡◌};
ghost use Rattle.wf_schema.specs.SchemaForm.{is_list, is_text, is_type, is_type_or_list, schema_form, schema_member};
ghost use Rattle.wf_val.specs.Get.{is_object};
ghost use Rattle.wf_val.specs.Seen.{tree};

use std::alloc::{AllocError, Global};
use wf_places::Form;
use wf_val::Val;

/// What a value in a schema stands for.
#[derive(Clone, Copy, PartialEq, Eq)]
pub(crate) enum Part {
    Schema,
    /// The member `type`.
    Types,
    /// An item of it, where it is a list.
    Type,
    Properties,
    Required,
    /// A name that is required.
    Name,
    Items,
    Enum,
}

fn is_object(value: &Val) -> bool
    ensures { result ≡ is_object (tree value.now) }
{
    matches!(value, Val::Obj(_))
}

pub(crate) fn is_list(value: &Val) -> bool
    ensures { result ≡ is_list (tree value.now) }
{
    matches!(value, Val::List(_))
}

pub(crate) fn is_text(value: &Val) -> bool
    ensures { result ≡ is_text (tree value.now) }
{
    matches!(value, Val::Text(_))
}

pub(crate) fn is_type(value: &Val) -> bool
    ensures { result ≡ is_type (tree value.now) }
{
    match value {
        Val::Text(name) => matches!(
            name.as_str(),
            "null" | "boolean" | "integer" | "number" | "string" | "array" | "object"
        ),
        _ => false,
    }
}

// A type, or a list that isn't empty.
#[tactic(auto, using(wf_val::proofs::ValueTreeLemmas::listed))]
fn is_type_or_list(value: &Val) -> bool
    ensures { result ≡ is_type_or_list (tree value.now) }
{
    match value {
        Val::List(items) => items.len() > 0,
        _ => is_type(value),
    }
}

impl Form for Part {
    ghost table = { schema_form };

    fn is_right(self, value: &Val) -> bool {
        match self {
            Part::Schema | Part::Properties => is_object(value),
            Part::Types => is_type_or_list(value),
            Part::Type => is_type(value),
            Part::Required | Part::Enum => is_list(value),
            Part::Name => is_text(value),
            Part::Items => is_object(value) || is_list(value),
        }
    }

    fn needed(self) -> &'static [&'static str] {
        &[]
    }

    fn is_closed(self) -> bool {
        false
    }

    fn member(self, name: &str) -> Option<Part> {
        match self {
            Part::Schema | Part::Items => schema_member(name),
            Part::Properties => Some(Part::Schema),
            _ => None,
        }
    }

    fn item(self) -> Option<Part> {
        match self {
            Part::Types => Some(Part::Type),
            Part::Required => Some(Part::Name),
            _ => None,
        }
    }

    fn beside(self, _alloc: Global, _value: &Val) -> Result<Option<String>, AllocError> {
        Ok(None)
    }
}

fn schema_member(name: &str) -> Option<Part>
    ensures { result ≡ schema_member name.now }
{
    match name {
        "enum" => Some(Part::Enum),
        "items" => Some(Part::Items),
        "properties" => Some(Part::Properties),
        "required" => Some(Part::Required),
        "type" => Some(Part::Types),
        _ => None,
    }
}
