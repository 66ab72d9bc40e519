//! Where a record differs from what a test expects of it.
ghost use Rattle.std.specs.Prelude.{◌≡◌, ◌↔◌, ◌++◌, ◌∷◌, [], IfOk, OnOk, map, string_bytes};
ghost use Rattle.wf_match.specs.OfRecord.{in_member, in_record, in_row, in_rows, record_differences, row_pointer, tells_actions};
ghost use Rattle.wf_match.specs.OfRecordHolds.{RecordHolds};
ghost use Rattle.wf_match.specs.Differences.{differences};
ghost use Rattle.wf_match.specs.Told.{told};
ghost use Rattle.wf_json.specs.Pointer.{member_step};
ghost use Rattle.wf_val.specs.Get.{get};
ghost use Rattle.wf_val.specs.Seen.{tree};
ghost use Rattle.wf_val.specs.ValueTree.{members, object};

use crate::difference::Difference;
use crate::of_value::{differ, tell};
use crate::rows::{places_of, rows_of};
use std::alloc::{AllocError, Global};
use wf_json::pointer::step_to;
use wf_val::{Fields, Text, Val};

/// Where a record differs from what a test expects of it, in the order of the expectation; pointers are from the record
/// on. An address with no row is told at `/rows`, with what is expected of it.
pub fn differences_of_record(
    alloc: Global,
    expected: &Val,
    record: &Val,
) -> Result<Vec<Difference>, AllocError>
    ensures exact { IfOk result (λ v. map told v.items ≡ record_differences (tree expected.now) (tree record.now)) }
    ensures none { IfOk result (λ v. (v.items ≡ []) ↔ RecordHolds (tree expected.now) (tree record.now)) }
{
    let mut all = Vec::new(alloc);
    differ_in_all(alloc, &mut all, expected, record)?;
    expected.always_well_formed();
    Ok(all)
}

// Adds the differences of a record.
#[tactic(auto, using(wf_val::proofs::ValueTreeLemmas::listed))]
fn differ_in_all(
    alloc: Global,
    all: &mut Vec<Difference>,
    expected: &Val,
    record: &Val,
) -> Result<(), AllocError>
    ensures { OnOk result (map told all.new.items
        ≡ map told all.old.items ++ record_differences (tree expected.now) (tree record.now)) }
{
    match expected {
        Val::Obj(members) => differ_in_record(alloc, all, members, record),
        _ => differ(alloc, all, "", expected, Some(record)),
    }
}

// Adds the differences in the members that are expected.
fn differ_in_record(
    alloc: Global,
    all: &mut Vec<Difference>,
    expected: &Fields,
    record: &Val,
) -> Result<(), AllocError>
    ensures { OnOk result (map told all.new.items
        ≡ map told all.old.items ++ in_record expected.now (tree record.now)) }
{
    for (name, member) in expected.as_slice() {
        differ_in_member(alloc, all, name.as_str(), member, record)?;
    }
    Ok(())
}

// Adds the differences in a member, or in the rows where it tells what is expected of actions.
#[tactic(auto, using(wf_val::proofs::ValueTreeLemmas::listed))]
fn differ_in_member(
    alloc: Global,
    all: &mut Vec<Difference>,
    name: &str,
    expected: &Val,
    record: &Val,
) -> Result<(), AllocError>
    ensures { OnOk result (map told all.new.items
        ≡ map told all.old.items ++ in_member name.now (tree expected.now) (tree record.now)) }
{
    match expected {
        Val::Obj(actions) if tells_actions(name) => differ_in_rows(
            alloc,
            all,
            actions,
            rows_of(record),
        ),
        _ => differ_at_member(alloc, all, name, expected, record),
    }
}

fn tells_actions(name: &str) -> bool
    ensures { result ≡ tells_actions name.now }
{
    name == "actions"
}

// Adds the differences in a member that the record has too.
fn differ_at_member(
    alloc: Global,
    all: &mut Vec<Difference>,
    name: &str,
    expected: &Val,
    record: &Val,
) -> Result<(), AllocError>
    ensures { OnOk result (map told all.new.items
        ≡ map told all.old.items ++ differences (member_step name.now) (tree expected.now) (get name.now (tree record.now))) }
{
    let at = step_to(alloc, name)?;
    differ(alloc, all, at.as_str(), expected, record.member(name))
}

// Adds the differences in the rows of the addresses that are expected.
fn differ_in_rows(
    alloc: Global,
    all: &mut Vec<Difference>,
    expected: &Fields,
    rows: &[Val],
) -> Result<(), AllocError>
    ensures { OnOk result (map told all.new.items
        ≡ map told all.old.items ++ in_rows (map tree rows.now) expected.now) }
{
    let places = places_of(alloc, rows)?;
    for (address, row) in expected.as_slice() {
        differ_in_row(alloc, all, address, row, rows, places.get(address).copied())?;
    }
    Ok(())
}

// Adds the differences in the row of an address, which stands at a place, or that there is none.
fn differ_in_row(
    alloc: Global,
    all: &mut Vec<Difference>,
    address: &Text,
    expected: &Val,
    rows: &[Val],
    place: Option<usize>,
) -> Result<(), AllocError>
    ensures { OnOk result (map told all.new.items
        ≡ map told all.old.items ++ in_row (map tree rows.now) address.now (tree expected.now) place) }
{
    match place {
        None => tell(
            alloc,
            all,
            "/rows",
            &addressed(alloc, address, expected)?,
            None,
        ),
        Some(place) => {
            let at = row_pointer(alloc, place)?;
            differ(alloc, all, at.as_str(), expected, rows.get(place))
        }
    }
}

fn row_pointer(alloc: Global, place: usize) -> Result<String, AllocError>
    ensures { IfOk result (λ p. string_bytes p ≡ row_pointer place) }
{
    format!(in alloc; "/rows/{place}")
}

// What is expected of an address, under it.
fn addressed(alloc: Global, address: &Text, expected: &Val) -> Result<Val, AllocError>
    ensures { IfOk result (λ v. tree v ≡ object (members ((address.now, tree expected.now) ∷ []))) }
{
    let mut fields = Fields::new(alloc);
    fields.put(address.copy(alloc)?, expected.copy(alloc)?)?;
    Ok(Val::Obj(fields))
}
