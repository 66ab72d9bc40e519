//! How a status looks.
ghost use Rattle.std.specs.Prelude.{◌≡◌, IfOk, map};
ghost use Rattle.wf_html.specs.Html.{written};
ghost use Rattle.wf_record.specs.Seen.{row_tree};
ghost use Rattle.wf_shown.specs.Looks.{look_of, look_of_rows, mark};

use std::alloc::AllocError;
use wf_html::{Look, Tag, say_in};
use wf_record::{Row, Status};

/// How a status looks.
pub fn look_of(status: Status) -> Look
    ensures { result ≡ look_of status }
{
    match status {
        Status::Succeeded => Look::Succeeded,
        Status::Failed => Look::Failed,
        Status::Skipped => Look::Skipped,
        Status::TimedOut => Look::TimedOut,
        Status::Cancelled => Look::Cancelled,
    }
}

/// How an action looks that has these rows.
pub fn look_of_rows(rows: &[Row]) -> Look
    ensures { result ≡ look_of_rows (map row_tree rows.now) }
{
    match rows {
        [] => Look::Absent,
        [row] => look_of(row.status),
        _ => Look::Several,
    }
}

/// A word that stands for a status.
pub fn mark(bytes: Vec<u8>, status: Status, word: &str) -> Result<Vec<u8>, AllocError>
    ensures { IfOk result (λ b. b.items ≡ written bytes.items (mark status word.now)) }
{
    say_in(bytes, Tag::Mark(look_of(status)), word)
}
