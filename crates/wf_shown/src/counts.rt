//! How many rows have each status.
ghost use Rattle.std.specs.Prelude.{◌≡◌, IfOk, count_by, map};
ghost use Rattle.wf_html.specs.Html.{written};
ghost use Rattle.wf_record.specs.Seen.{row_tree};
ghost use Rattle.wf_shown.specs.Counts.{count_mark, count_of, counts, has_status};

use crate::look::mark;
use std::alloc::{AllocError, Global};
use wf_html::say;
use wf_record::{Row, Status};

fn has_status(status: Status, row: &Row) -> bool
    ensures { result ≡ has_status status (row_tree row.now) }
{
    status.name() == row.status.name()
}

fn count(status: Status, rows: &[Row]) -> usize
    ensures { result ≡ count_by (has_status status) (map row_tree rows.now) }
{
    rows.iter().filter(|row| has_status(status, row)).count()
}

// How many have a status, and its word.
fn count_mark(
    alloc: Global,
    bytes: Vec<u8>,
    status: Status,
    n: usize,
) -> Result<Vec<u8>, AllocError>
    ensures { IfOk result (λ b. b.items ≡ written bytes.items (count_mark status n)) }
{
    if n == 0 {
        return Ok(bytes);
    }
    let name = status.name();
    let text = format!(in alloc; "{n} {name}")?;
    let bytes = say(bytes, " ")?;
    mark(bytes, status, text.as_str())
}

fn count_of(
    alloc: Global,
    bytes: Vec<u8>,
    status: Status,
    rows: &[Row],
) -> Result<Vec<u8>, AllocError>
    ensures { IfOk result (λ b. b.items ≡ written bytes.items (count_of status (map row_tree rows.now))) }
{
    count_mark(alloc, bytes, status, count(status, rows))
}

/// Of each status how many rows have it, where any has.
#[tactic(auto, using(wf_html::proofs::PieceLemmas::written_append))]
pub fn counts(alloc: Global, bytes: Vec<u8>, rows: &[Row]) -> Result<Vec<u8>, AllocError>
    ensures { IfOk result (λ b. b.items ≡ written bytes.items (counts (map row_tree rows.now))) }
{
    let bytes = count_of(alloc, bytes, Status::Succeeded, rows)?;
    let bytes = count_of(alloc, bytes, Status::Failed, rows)?;
    let bytes = count_of(alloc, bytes, Status::Skipped, rows)?;
    let bytes = count_of(alloc, bytes, Status::TimedOut, rows)?;
    count_of(alloc, bytes, Status::Cancelled, rows)
}
