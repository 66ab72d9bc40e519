//! The rows that are kept.
ghost use Rattle.std.specs.Prelude.{◌≡◌, IfOk, OnOk, None, Some, cond, map};
ghost use Rattle.wf_layers.specs.Address.{Address, is_own};
ghost use Rattle.wf_layers.specs.Resubmission.{kept};
ghost use Rattle.wf_order.specs.OrderSeen.{order_tree};
ghost use Rattle.wf_paths.specs.Table.{from as at_places, slot};
ghost use Rattle.wf_turns.specs.ReadSeen.{def_tree};
ghost use Rattle.wf_record.specs.Seen.{row_tree};
ghost use Rattle.wf_redo.specs.Sets.{again_any, redo_any};
ghost use Rattle.wf_sight_laws.specs.Seen.{row_content, rows_seen};
ghost use Rattle.wf_regained.specs.Kept.{with_all_kept, with_kept};

use std::alloc::{AllocError, Global};
use wf_asks::{Instance, RowAt, Rows};
use wf_lists::TryCopy;
use wf_order::Order;
use wf_record::Row;
use wf_redo::{again_any, redo_any};
use wf_sight_laws::{Places, number_of};

// Whether the rows of an action are kept where the actions of a set are resubmitted.
fn keeps(order: &Order, from: &[u32], y: u32) -> bool
    ensures { result ≡ kept (redo_any (order_tree order.now) from.now) (again_any (order_tree order.now) from.now) y }
{
    !(redo_any(order, from, y) || again_any(order, from, y))
}

/// Of which actions rows are kept, by their numbers.
pub(crate) fn kept_numbers(
    alloc: Global,
    order: &Order,
    from: &[u32],
    count: u32,
) -> Result<Vec<bool>, AllocError>
    ensures { IfOk result (λ all. all.items ≡ at_places 0 count (kept (redo_any (order_tree order.now) from.now)
        (again_any (order_tree order.now) from.now))) }
{
    let mut all = Vec::with_capacity(alloc, count as usize)?;
    for y in 0..count {
        all.push(keeps(order, from, y))?;
    }
    Ok(all)
}

fn slot(all: &[bool], number: u32) -> bool
    ensures { result ≡ slot all.now number }
{
    match all.get(number as usize) {
        Some(value) => *value,
        None => false,
    }
}

// What a row says, at an instance.
fn row_at(alloc: Global, place: Instance, row: &Row) -> Result<RowAt<Row>, AllocError>
    ensures place { IfOk result (λ r. r.instance ≡ place) }
    ensures row { IfOk result (λ r. row_content r.row ≡ row_content row.now) }
{
    Ok(RowAt {
        instance: place,
        row: Row {
            address: row.address.copy(alloc)?,
            status: row.status,
            code: row.code.copy(alloc)?,
            inputs: row.inputs.copy(alloc)?,
            outputs: row.outputs.copy(alloc)?,
            error: row.error.copy(alloc)?,
            tracked: row.tracked.copy(alloc)?,
            attempts: row.attempts.copy(alloc)?,
        },
    })
}

// Adds a row at the instance of an action.
fn put_row(alloc: Global, rows: &mut Rows<Row>, action: u32, row: &Row) -> Result<(), AllocError>
    ensures { OnOk result ((x : Address) → rows_seen rows.new.0 x
        ≡ cond (is_own action (row_tree row.now).address.at x) (Some (row_content row.now)) (rows_seen rows.old.0 x)) }
{
    let at = row.address.at.copy(alloc)?;
    let found = row_at(alloc, Instance { action, at }, row)?;
    rows.make_room(1)?;
    rows.put(found);
    Ok(())
}

// Adds a row of a record where its action is one whose rows are kept.
fn add_row(
    alloc: Global,
    places: &Places<'_>,
    kept: &[bool],
    rows: &mut Rows<Row>,
    row: &Row,
) -> Result<(), AllocError>
    ensures { OnOk result ((x : Address) → rows_seen rows.new.0 x
        ≡ with_kept (def_tree places.now) (slot kept.now) (rows_seen rows.old.0) (row_tree row.now) x) }
{
    match places.named(&row.address.name) {
        Some(action) if slot(kept, number_of(action)) => {
            put_row(alloc, rows, number_of(action), row)
        }
        _ => Ok(()),
    }
}

/// The rows of a record whose actions are such as are kept, each at the instance of its action. What they hold is copied.
pub(crate) fn kept_rows(
    alloc: Global,
    places: &Places<'_>,
    kept: &[bool],
    log: &[Row],
) -> Result<Rows<Row>, AllocError>
    ensures { IfOk result (λ rows. (x : Address) → rows_seen rows.0 x
        ≡ with_all_kept (def_tree places.now) (slot kept.now) (λ y. None) (map row_tree log.now) x) }
{
    let mut rows = Rows::new(alloc);
    for row in log {
        add_row(alloc, places, kept, &mut rows, row)?;
    }
    Ok(rows)
}
