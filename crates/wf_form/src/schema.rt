//! V2: the schema.
ghost use Rattle.std.specs.Prelude.{◌≡◌, bytes_eq, IfOk, option_map, string_bytes};
ghost use Rattle.wf_after.specs.Pointer.{least};
ghost use Rattle.wf_val.specs.Seen.{tree};
ghost use Rattle.wf_val.specs.ValueTree as value;
ghost use Rattle.wf_form.specs.Schema.{is_other_schema, is_schema, schema};

use crate::role::Role;
use std::alloc::{AllocError, Global};
use wf_after::pointer::flagged;
use wf_val::Val;

fn is_same(one: &str, other: &str) -> bool
    ensures { result ≡ bytes_eq one.now other.now }
{
    one == other
}

fn is_schema_text(text: &str) -> bool
    ensures { result ≡ is_schema (value.text text.now) }
{
    is_same(
        text,
        "https://schema.management.azure.com/providers/Microsoft.Logic/schemas/2016-06-01/workflowdefinition.json#",
    ) || is_same(
        text,
        "https://schema.management.azure.com/providers/Microsoft.Logic/schemas/2016-06-01/workflowdefinition.json",
    )
}

fn is_schema(value: &Val) -> bool
    ensures { result ≡ is_schema (tree value.now) }
{
    match value {
        Val::Text(text) => is_schema_text(text.as_str()),
        _ => false,
    }
}

fn is_other_schema(value: Option<&Val>) -> bool
    ensures { result ≡ is_other_schema (option_map (λ v. tree v.now) value.entry) }
{
    match value {
        Some(value) => !is_schema(value),
        None => false,
    }
}

#[tactic(auto, unfolding(crate::specs::Schema::schema))]
pub(crate) fn schema(alloc: Global, role: Role, value: &Val) -> Result<Option<String>, AllocError>
    ensures { IfOk result (λ p. option_map string_bytes p ≡ least (schema role (tree value.now))) }
{
    match role {
        Role::Definition => flagged(alloc, is_other_schema(value.member("$schema")), "$schema"),
        _ => Ok(None),
    }
}
