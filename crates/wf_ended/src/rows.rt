//! The rows of a record.
ghost use Rattle.std.specs.Prelude.{◌≡◌, ◌++◌, ◌∷◌, [], IfOk, OnOk, map};
ghost use Rattle.wf_lists.specs.KeyOrder.{IsAboveKeys, IsInKeyOrder};
ghost use Rattle.wf_val.specs.Address.{address_cmp};
ghost use Rattle.wf_asks.specs.Instances.{address_of};
ghost use Rattle.wf_catalog.specs.Look.{instance, name_of};
ghost use Rattle.wf_catalog.specs.ReadSeen.{def_tree};
ghost use Rattle.wf_record.specs.Record as recorded;
ghost use Rattle.wf_record.specs.Seen.{row_tree};
ghost use Rattle.wf_ended.specs.Found.{as_row, own_address};

use std::alloc::{AllocError, Global};
use wf_asks::RowAt;
use wf_catalog::Places;
use wf_lists::TryCopy;
use wf_record::{Row, Rows};
use wf_val::{Address, Name, Text};

// The name of the action of a number.
#[tactic(auto, using(wf_catalog::proofs::PlaceLemmas::name_is))]
fn name_of(alloc: Global, places: &Places<'_>, number: u32) -> Result<Name, AllocError>
    ensures { IfOk result (λ n. n ≡ name_of (def_tree places.now) number) }
{
    match places.action(number) {
        Some(action) => action.name.copy(alloc),
        None => Text::of(alloc, ""),
    }
}

// A row at the address of its instance.
fn as_row(alloc: Global, places: &Places<'_>, found: RowAt<Row>) -> Result<Row, AllocError>
    ensures { IfOk result (λ r. row_tree r ≡ as_row (def_tree places.now) found) }
{
    let name = name_of(alloc, places, found.instance.action)?;
    let mut row = found.row;
    row.address = Address {
        name,
        at: found.instance.at,
    };
    Ok(row)
}

fn add_row(
    alloc: Global,
    places: &Places<'_>,
    there: &mut Rows,
    found: RowAt<Row>,
) -> Result<(), AllocError>
    requires { IsAboveKeys address_cmp own_address (instance (def_tree places.now) (address_of found.instance)) there.old }
    ensures { OnOk result (map row_tree there.new ≡ map row_tree there.old ++ as_row (def_tree places.now) found ∷ []) }
{
    let row = as_row(alloc, places, found)?;
    there.append(row)
}

/// Rows by instances as the rows of a record, where their addresses ascend.
pub(crate) fn rows_of(
    alloc: Global,
    places: &Places<'_>,
    found: Vec<RowAt<Row>>,
) -> Result<Rows, AllocError>
    requires { IsInKeyOrder address_cmp recorded.address_of (map (as_row (def_tree places.now)) found.items) }
    ensures { IfOk result (λ there. map row_tree there ≡ map (as_row (def_tree places.now)) found.items) }
{
    let mut there = Rows::new(alloc);
    for row in found {
        add_row(alloc, places, &mut there, row)?;
    }
    Ok(there)
}
