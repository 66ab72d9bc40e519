//! Where a value fails its schema.
ghost use Rattle.std.specs.Prelude.{◌≡◌, IfOk, option_map, string_bytes, false};
ghost use Rattle.wf_places.specs.Pointer.{here, least, lesser};
ghost use Rattle.wf_places.specs.Form.{in_items, in_members, in_part, places};
ghost use Rattle.wf_places.specs.Least.{IsLeastOf};
ghost use Rattle.wf_schema.specs.Fails.{by_schema, fails, item_schema, property};
ghost use Rattle.wf_schema.specs.Asked.{is_as_asked};
ghost use Rattle.wf_schema.specs.Reading.{schema_tree};
ghost use Rattle.wf_val.specs.Seen.{tree};
ghost use Rattle.wf_val.specs.ValueTree.{members, trees};

use crate::asked::is_as_asked;
use crate::schema::Schema;
use std::alloc::{AllocError, Global};
use wf_places::pointer::{here, with_item, with_member};
use wf_val::{Fields, Text, Val, Vals};

/// The least pointer of the places at which a value isn't as a schema asks; none where it is valid.
#[tactic(auto, using(wf_places::proofs::WalkLemmas::least_of))]
pub fn mismatch(alloc: Global, schema: &Schema, value: &Val) -> Result<Option<Text>, AllocError>
    ensures exact { IfOk result (λ p. p ≡ least (fails (schema_tree schema.now) (tree value.now))) }
    ensures least { IfOk result (λ p. IsLeastOf (fails (schema_tree schema.now) (tree value.now)) p) }
{
    let place = least_in(alloc, &schema.value, value)?;
    Ok(place.map(Text::from_string))
}

// The schema of a member.
#[tactic(auto, using(wf_val::proofs::ValueTreeLemmas::listed))]
fn property<'a>(schema: &'a Val, name: &str) -> Option<&'a Val>
    ensures { option_map (λ v. tree v.now) result ≡ property (tree schema.now) name.now }
{
    match schema.member("properties") {
        Some(properties) => properties.member(name),
        None => None,
    }
}

// The schema of each item.
#[tactic(auto, using(wf_val::proofs::ValueTreeLemmas::listed))]
fn item_schema(schema: &Val) -> Option<&Val>
    ensures { option_map (λ v. tree v.now) result ≡ item_schema (tree schema.now) }
{
    match schema.member("items") {
        Some(Val::Obj(_)) => schema.member("items"),
        _ => None,
    }
}

#[cycle(least)]
#[tactic(auto, using(crate::proofs::OwnLemmas::own_alone, crate::proofs::OwnLemmas::with_members, crate::proofs::OwnLemmas::with_items))]
fn least_in(alloc: Global, schema: &Val, value: &Val) -> Result<Option<String>, AllocError>
    ensures { IfOk result (λ p. option_map string_bytes p ≡ least (fails (tree schema.now) (tree value.now))) }
{
    let own = here(alloc, !is_as_asked(schema, value));
    match value {
        Val::Obj(fields) => least_with_members(alloc, schema, own, fields),
        Val::List(items) => match item_schema(schema) {
            None => Ok(own),
            Some(part) => least_with_items(alloc, part, own, items),
        },
        _ => Ok(own),
    }
}

// The lesser of a pointer and the least in the members.
#[cycle(least)]
fn least_with_members(
    alloc: Global,
    schema: &Val,
    own: Option<String>,
    fields: &Fields,
) -> Result<Option<String>, AllocError>
    ensures { IfOk result (λ p. option_map string_bytes p
        ≡ lesser (option_map string_bytes own) (least (in_members by_schema (tree schema.now) (members fields.now)))) }
{
    let mut best = own;
    for (name, member) in fields.as_slice() {
        let rest = least_in_part(alloc, property(schema, name.as_str()), member)?;
        best = with_member(alloc, best, name.as_str(), rest)?;
    }
    Ok(best)
}

// The least in a member, from it on.
#[cycle(least)]
fn least_in_part(
    alloc: Global,
    schema: Option<&Val>,
    value: &Val,
) -> Result<Option<String>, AllocError>
    ensures { IfOk result (λ p. option_map string_bytes p
        ≡ least (in_part false (option_map (λ s. tree s.now) schema.entry) (λ s. places by_schema s (tree value.now)))) }
{
    match schema {
        None => Ok(None),
        Some(schema) => least_in(alloc, schema, value),
    }
}

// The lesser of a pointer and the least in the items.
#[cycle(least)]
fn least_with_items(
    alloc: Global,
    schema: &Val,
    own: Option<String>,
    items: &Vals,
) -> Result<Option<String>, AllocError>
    ensures { IfOk result (λ p. option_map string_bytes p
        ≡ lesser (option_map string_bytes own) (least (in_items by_schema (tree schema.now) 0 (trees items.now)))) }
{
    let mut best = own;
    for (place, item) in items.as_slice().iter().enumerate() {
        let rest = least_in(alloc, schema, item)?;
        best = with_item(alloc, best, place, rest)?;
    }
    Ok(best)
}
