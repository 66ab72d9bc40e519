//! Rows by instances, and what they tell.
ghost use Rattle.std.specs.Prelude.{◌≡◌, ◌++◌, ◌∷◌, [], IfOk, OnOk, option_map};
ghost use Rattle.wf_val.specs.Get.{name_of};
ghost use Rattle.wf_val.specs.NameOrder.{put_named};
ghost use Rattle.wf_val.specs.Seen.{tree};
ghost use Rattle.wf_val.specs.ValueTree.{text};
ghost use Rattle.wf_layers.specs.Address.{address};
ghost use Rattle.wf_def.specs.ActionSeen.{action_tree, kind_tree};
ghost use Rattle.wf_catalog.specs.Rows.{iterations_of, turns_said, view_of};
ghost use Rattle.wf_views.specs.Seen.{row_content, rows_seen};

use std::alloc::{AllocError, Global};
use wf_asks::{Instance, Rows};
use wf_catalog::{items_said, kind_of, rounds_said};
use wf_def::{Action, Kind};
use wf_record::Row;
use wf_val::{Fields, Indexes, Name, Text, Val};

/// Indexes of their own.
pub fn indexes(alloc: Global, at: &[u64]) -> Result<Indexes, AllocError>
    ensures { IfOk result (λ is. is ≡ at.now) }
{
    let mut indexes = Indexes::new(alloc);
    for index in at {
        indexes.push(*index)?;
    }
    Ok(indexes)
}

/// The same, and an index of one loop more.
pub fn indexes_then(alloc: Global, at: &[u64], last: u64) -> Result<Indexes, AllocError>
    ensures { IfOk result (λ is. is ≡ at.now ++ last ∷ []) }
{
    let mut all = indexes(alloc, at)?;
    all.push(last)?;
    Ok(all)
}

/// The row of an instance.
pub(crate) fn row_at<'a>(
    alloc: Global,
    rows: &'a Rows<Row>,
    action: u32,
    at: &[u64],
) -> Result<Option<&'a Row>, AllocError>
    ensures { IfOk result (λ r. option_map (λ r. row_content r.now) r ≡ rows_seen rows.now.0 (address action at.now)) }
{
    let place = Instance {
        action,
        at: indexes(alloc, at)?,
    };
    Ok(row_of(rows, &place))
}

/// The row of an instance.
pub fn row_of<'a>(rows: &'a Rows<Row>, place: &Instance) -> Option<&'a Row>
    ensures { option_map (λ r. row_content r.now) result ≡ rows_seen rows.now.0 (address place.now.action place.now.at) }
{
    match rows.get(place) {
        Some(found) => Some(&found.row),
        None => None,
    }
}

fn put_text(alloc: Global, fields: &mut Fields, name: &str, value: &str) -> Result<(), AllocError>
    ensures { OnOk result (fields.new ≡ put_named name_of (name.now, text value.now) fields.old) }
{
    fields.put(Text::of(alloc, name)?, Val::Text(Text::of(alloc, value)?))
}

fn put_copy(alloc: Global, fields: &mut Fields, name: &str, value: &Val) -> Result<(), AllocError>
    ensures { OnOk result (fields.new ≡ put_named name_of (name.now, tree value.now) fields.old) }
{
    fields.put(Text::of(alloc, name)?, value.copy(alloc)?)
}

/// What expressions see of the action of a name that has this row.
pub(crate) fn view_of(alloc: Global, name: &Name, row: &Row) -> Result<Val, AllocError>
    ensures { IfOk result (λ v. tree v ≡ view_of name.now (row_content row.now)) }
{
    let mut fields = Fields::new(alloc);
    put_text(alloc, &mut fields, "code", row.code.as_str())?;
    put_copy(alloc, &mut fields, "error", &row.error)?;
    put_copy(alloc, &mut fields, "inputs", &row.inputs)?;
    put_text(alloc, &mut fields, "name", name.as_str())?;
    put_copy(alloc, &mut fields, "outputs", &row.outputs)?;
    put_text(alloc, &mut fields, "status", row.status.name())?;
    Ok(Val::Obj(fields))
}

fn turns_said(kind: &Kind, row: &Row) -> u64
    ensures { result ≡ turns_said (kind_tree kind.now) (row_content row.now) }
{
    match kind {
        Kind::Foreach {
            list: _,
            repetitions: _,
            graph: _,
        } => items_said(row),
        Kind::Until {
            test: _,
            count: _,
            fails: _,
            graph: _,
        } => rounds_said(row),
        _ => 0,
    }
}

/// How many iterations the row of an action says that it had; without one it had none, and no action has none.
pub(crate) fn iterations_of(action: Option<&Action>, row: Option<&Row>) -> u64
    ensures { result
        ≡ iterations_of (option_map (λ a. action_tree a.now) action.entry) (option_map (λ r. row_content r.now) row.entry) }
{
    match action {
        Some(action) => match row {
            Some(row) => turns_said(kind_of(action), row),
            None => 0,
        },
        None => 0,
    }
}
