//! The rows of a record as a value, and the one of an address.
ghost use Rattle.std.specs.Prelude.{◌≡◌, ℕ, List, IfOk, OnOk, cond, map, option_map, Some, None};
ghost use Rattle.std.specs.BTreeMap.{get};
ghost use Rattle.std.specs.Option.{option_or};
ghost use Rattle.std.specs.Ordering.{is_eq};
ghost use Rattle.wf_match.specs.Rows.{address_of, items_of, name_text, place_of, rows_of};
ghost use Rattle.wf_val.specs.NameOrder.{bytes_cmp};
ghost use Rattle.wf_val.specs.Seen.{tree};

use std::alloc::{AllocError, Global};
use std::collections::BTreeMap;
use wf_json::text;
use wf_val::{Text, Val};

// The rows of a record; none where it has no list of them.
pub(crate) fn rows_of(record: &Val) -> &[Val]
    ensures { map tree result.now ≡ rows_of (tree record.now) }
{
    items_of(record.member("rows"))
}

// The place of the first row of each address.
pub(crate) fn places_of(alloc: Global, rows: &[Val]) -> Result<BTreeMap<Text, usize>, AllocError>
    ensures { IfOk result (λ m. (q : List ℕ) → get bytes_cmp m q ≡ place_of q (map tree rows.now)) }
{
    let mut places = BTreeMap::new(alloc);
    for (place, row) in rows.iter().enumerate() {
        add_place(&mut places, address_of(alloc, row)?, place)?;
    }
    Ok(places)
}

// Adds a place, where the address has none.
fn add_place(
    places: &mut BTreeMap<Text, usize>,
    address: Text,
    place: usize,
) -> Result<(), AllocError>
    ensures { OnOk result ((q : List ℕ) → get bytes_cmp places.new q
        ≡ option_or (get bytes_cmp places.old q) (cond (is_eq (bytes_cmp address q)) (Some place) None)) }
{
    if !places.contains_key(&address) {
        let _none = places.insert(address, place)?;
    }
    Ok(())
}

// The address of a row as messages write it.
fn address_of(alloc: Global, row: &Val) -> Result<Text, AllocError>
    ensures { IfOk result (λ t. t ≡ address_of (tree row.now)) }
{
    let mut address = String::from_str(alloc, name_text(row.member("name")))?;
    for number in items_of(row.member("at")) {
        address.push_str("/")?;
        address.push_str(text(alloc, number)?.as_str())?;
    }
    Ok(Text::from_string(address))
}

// The text that a name is, else nothing.
fn name_text<'a>(name: Option<&'a Val>) -> &'a str
    ensures { result.now ≡ name_text (option_map (λ v. tree v.now) name.entry) }
{
    match name {
        Some(Val::Text(text)) => text.as_str(),
        _ => "",
    }
}

// The items of a list; none where it is no list.
#[tactic(auto, using(wf_val::proofs::ValueTreeLemmas::listed))]
fn items_of<'a>(list: Option<&'a Val>) -> &'a [Val]
    ensures { map tree result.now ≡ items_of (option_map (λ v. tree v.now) list.entry) }
{
    match list {
        Some(Val::List(items)) => items.as_slice(),
        _ => &[],
    }
}
