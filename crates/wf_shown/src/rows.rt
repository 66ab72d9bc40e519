//! The rows of an action.
ghost use Rattle.std.specs.Prelude.{◌≡◌, IfOk, drop, map, option_map, take};
ghost use Rattle.wf_html.specs.Html.{written};
ghost use Rattle.wf_record.specs.Seen.{record_tree, row_tree};
ghost use Rattle.wf_shown.specs.Rows.{all_counted, all_shown, counted, most_shown, row_pieces, rows_pieces, several, several_head};
ghost use Rattle.wf_shown.specs.Changes.{change_of};

use crate::change::change_of;
use crate::counts::counts;
use crate::row::show_row;
use std::alloc::{AllocError, Global};
use wf_html::{Look, Tag, close, open, say, say_in};
use wf_record::{Record, Row};

/// How many rows of one action are shown at most.
const MOST_SHOWN: usize = 100;

fn show_one(
    alloc: Global,
    bytes: Vec<u8>,
    closes: bool,
    earlier: Option<&Record>,
    row: &Row,
) -> Result<Vec<u8>, AllocError>
    ensures { IfOk result (λ b. b.items ≡ written bytes.items
        (row_pieces (change_of closes (option_map (λ r. (record_tree r.now).rows) earlier.entry) (row_tree row.now)) (row_tree row.now))) }
{
    let change = change_of(alloc, closes, earlier, row)?;
    show_row(alloc, bytes, change, row)
}

#[tactic(auto, using(wf_html::proofs::PieceLemmas::written_append))]
fn show_all(
    alloc: Global,
    bytes: Vec<u8>,
    closes: bool,
    earlier: Option<&Record>,
    rows: &[Row],
) -> Result<Vec<u8>, AllocError>
    ensures { IfOk result (λ b. b.items ≡ written bytes.items
        (all_shown closes (option_map (λ r. (record_tree r.now).rows) earlier.entry) (map row_tree rows.now))) }
{
    let mut bytes = bytes;
    for row in rows {
        bytes = show_one(alloc, bytes, closes, earlier, row)?;
    }
    Ok(bytes)
}

// The rows that are shown.
fn shown(rows: &[Row]) -> &[Row]
    ensures { map row_tree result.now ≡ take most_shown (map row_tree rows.now) }
{
    let most = MOST_SHOWN.min(rows.len());
    &rows[..most]
}

// And those that are counted.
fn folded(rows: &[Row]) -> &[Row]
    ensures { map row_tree result.now ≡ drop most_shown (map row_tree rows.now) }
{
    let most = MOST_SHOWN.min(rows.len());
    &rows[most..]
}

#[tactic(auto, using(wf_html::proofs::PieceLemmas::written_append))]
fn count_some(alloc: Global, bytes: Vec<u8>, rows: &[Row]) -> Result<Vec<u8>, AllocError>
    ensures { IfOk result (λ b. b.items ≡ written bytes.items (counted (map row_tree rows.now))) }
{
    let n = rows.len();
    let text = format!(in alloc; "{n} more:")?;
    let bytes = open(bytes, Tag::Line)?;
    let bytes = say(bytes, text.as_str())?;
    let bytes = counts(alloc, bytes, rows)?;
    close(bytes, Tag::Line)
}

fn count_all(alloc: Global, bytes: Vec<u8>, rows: &[Row]) -> Result<Vec<u8>, AllocError>
    ensures { IfOk result (λ b. b.items ≡ written bytes.items (all_counted (map row_tree rows.now))) }
{
    match rows {
        [] => Ok(bytes),
        _ => count_some(alloc, bytes, rows),
    }
}

#[tactic(auto, using(wf_html::proofs::PieceLemmas::written_append))]
fn several_head(alloc: Global, bytes: Vec<u8>, rows: &[Row]) -> Result<Vec<u8>, AllocError>
    ensures { IfOk result (λ b. b.items ≡ written bytes.items (several_head (map row_tree rows.now))) }
{
    let n = rows.len();
    let text = format!(in alloc; "{n} rows")?;
    let bytes = open(bytes, Tag::Summary)?;
    let bytes = say_in(bytes, Tag::Mark(Look::Several), text.as_str())?;
    let bytes = counts(alloc, bytes, rows)?;
    close(bytes, Tag::Summary)
}

#[tactic(auto, using(wf_html::proofs::PieceLemmas::written_append))]
fn show_several(
    alloc: Global,
    bytes: Vec<u8>,
    closes: bool,
    earlier: Option<&Record>,
    rows: &[Row],
) -> Result<Vec<u8>, AllocError>
    ensures { IfOk result (λ b. b.items ≡ written bytes.items
        (several closes (option_map (λ r. (record_tree r.now).rows) earlier.entry) (map row_tree rows.now))) }
{
    let bytes = open(bytes, Tag::Fold)?;
    let bytes = several_head(alloc, bytes, rows)?;
    let bytes = open(bytes, Tag::Rows)?;
    let bytes = show_all(alloc, bytes, closes, earlier, shown(rows))?;
    let bytes = count_all(alloc, bytes, folded(rows))?;
    let bytes = close(bytes, Tag::Rows)?;
    close(bytes, Tag::Fold)
}

/// The rows of an action. `closes` says whether it is a Scope, an If or a Switch.
pub fn show_rows(
    alloc: Global,
    bytes: Vec<u8>,
    closes: bool,
    earlier: Option<&Record>,
    rows: &[Row],
) -> Result<Vec<u8>, AllocError>
    ensures { IfOk result (λ b. b.items ≡ written bytes.items
        (rows_pieces closes (option_map (λ r. (record_tree r.now).rows) earlier.entry) (map row_tree rows.now))) }
{
    match rows {
        [] => say_in(bytes, Tag::Mark(Look::Absent), "no row"),
        [row] => show_one(alloc, bytes, closes, earlier, row),
        _ => show_several(alloc, bytes, closes, earlier, rows),
    }
}
