//! The rows of an action, among those of a record.
ghost use Rattle.std.specs.Prelude.{◌≡◌, map};
ghost use Rattle.wf_record.specs.Seen.{row_tree};
ghost use Rattle.wf_shown.specs.Rows.{rows_of};

use wf_record::{Row, Rows};
use wf_val::Name;

/// The rows of the action of a name, by two binary searches: rows are in the order of their addresses, and these begin with names.
pub fn rows_of<'a>(rows: &'a Rows, name: &Name) -> &'a [Row]
    ensures { map row_tree result.now ≡ rows_of name.now (map row_tree rows.now) }
{
    let all = rows.as_slice();
    let from = all.partition_point(|row| row.address.name.order(name).is_lt());
    let rest = &all[from..];
    let many = rest.partition_point(|row| row.address.name.order(name).is_eq());
    &rest[..many]
}
