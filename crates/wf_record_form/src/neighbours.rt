//! Rows that aren't above the row before them.
ghost use Rattle.std.specs.Prelude.{◌≡◌, IfOk, map, option_map, string_bytes};
ghost use Rattle.wf_json.specs.Pointer.{least, lesser};
ghost use Rattle.wf_record_form.specs.RecordForm.{address_in, are_unordered, flagged_item, indexes_of, row_address, unordered};
ghost use Rattle.wf_val.specs.Seen.{tree};

use std::alloc::{AllocError, Global};
use wf_json::pointer::{here, with_item};
use wf_val::{Address, Indexes, Val};

/// The least pointer to such a row. A row that names no address is compared with none.
pub(crate) fn unordered(alloc: Global, rows: &[Val]) -> Result<Option<String>, AllocError>
    ensures { IfOk result (λ p. option_map string_bytes p ≡ least (unordered (map tree rows.now))) }
{
    let mut best = None;
    let mut before = None;
    for (place, row) in rows.iter().enumerate() {
        let address = row_address(alloc, row)?;
        let flawed = are_unordered(&before, &address);
        best = with_flagged(alloc, best, place, flawed)?;
        before = address;
    }
    Ok(best)
}

#[tactic(auto, using(crate::proofs::NeighbourLemmas::step_alone))]
fn with_flagged(
    alloc: Global,
    best: Option<String>,
    place: usize,
    flawed: bool,
) -> Result<Option<String>, AllocError>
    ensures { IfOk result (λ p. option_map string_bytes p ≡ lesser (option_map string_bytes best) (least (flagged_item flawed place))) }
{
    let best = with_item(alloc, best, place, here(alloc, flawed))?;
    Ok(best)
}

fn are_unordered(before: &Option<Address>, address: &Option<Address>) -> bool
    ensures { result ≡ are_unordered before.now address.now }
{
    match (before, address) {
        (Some(before), Some(address)) => !before.order(address).is_lt(),
        _ => false,
    }
}

// The address that a row's value names, if it names one.
fn row_address(alloc: Global, row: &Val) -> Result<Option<Address>, AllocError>
    ensures { IfOk result (λ a. a ≡ row_address (tree row.now)) }
{
    let address = address_in(alloc, row.member("name"), row.member("at"))?;
    Ok(address)
}

#[tactic(auto, using(wf_val::proofs::ValueTreeLemmas::listed))]
fn address_in(
    alloc: Global,
    name: Option<&Val>,
    at: Option<&Val>,
) -> Result<Option<Address>, AllocError>
    ensures { IfOk result (λ a. a ≡ address_in (option_map (λ v. tree v.now) name.entry) (option_map (λ v. tree v.now) at.entry)) }
{
    match (name, at) {
        (Some(Val::Text(name)), Some(Val::List(items))) => {
            match indexes_of(alloc, items.as_slice())? {
                Some(at) => Ok(Some(Address {
                    name: name.copy(alloc)?,
                    at,
                })),
                None => Ok(None),
            }
        }
        _ => Ok(None),
    }
}

fn indexes_of(alloc: Global, values: &[Val]) -> Result<Option<Indexes>, AllocError>
    ensures { IfOk result (λ at. at ≡ indexes_of (map tree values.now)) }
{
    let mut at = Indexes::new(alloc);
    for value in values {
        match value {
            Val::Int(n) if *n >= 0 => at.push(*n as u64)?,
            _ => return Ok(None),
        }
    }
    Ok(Some(at))
}
