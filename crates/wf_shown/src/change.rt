//! What became of a row of an earlier record.
ghost use Rattle.std.specs.Prelude.{◌≡◌, ◌∷◌, IfOk, codes, option_map};
ghost use Rattle.wf_html.specs.Html.{said, with_text, written};
ghost use Rattle.wf_record.specs.Seen.{record_tree, row_tree};
ghost use Rattle.wf_shown.specs.Changes.{change_mark, change_of, changed, same_row, same_value, was};
ghost use Rattle.wf_val.specs.Seen.{tree};

use crate::attempts::attempts_text;
use std::alloc::{AllocError, Global};
use wf_html::{Tag, close, open, say, say_in};
use wf_record::{Record, Row, Status};
use wf_val::Val;

/// What became of a row of an earlier record.
#[derive(Clone, Copy)]
pub enum Change {
    /// It is as it was.
    Kept,
    /// It is that of a container which kept what it had decided, and had this status before.
    Closed(Status),
    /// It was done again. It had this status before, where there was one.
    Redone(Option<Status>),
}

fn same_value(one: &Val, other: &Val) -> bool
    ensures { result ≡ same_value (tree one.now) (tree other.now) }
{
    one.order(other).is_eq()
}

// Whether a row is as the other one was.
fn same_row(alloc: Global, one: &Row, other: &Row) -> Result<bool, AllocError>
    ensures { IfOk result (λ same. same ≡ same_row (row_tree one.now) (row_tree other.now)) }
{
    let old = attempts_text(alloc, &one.attempts)?;
    let new = attempts_text(alloc, &other.attempts)?;
    Ok(
        one.status.name() == other.status.name()
            && one.code.as_str() == other.code.as_str()
            && same_value(&one.inputs, &other.inputs)
            && same_value(&one.outputs, &other.outputs)
            && same_value(&one.error, &other.error)
            && same_value(&one.tracked, &other.tracked)
            && old.as_str() == new.as_str(),
    )
}

// What became of a row, where the earlier record may have one of its address.
fn changed(alloc: Global, closes: bool, old: Option<&Row>, row: &Row) -> Result<Change, AllocError>
    ensures { IfOk result (λ c. c ≡ changed closes (option_map (λ r. row_tree r.now) old.entry) (row_tree row.now)) }
{
    match old {
        None => Ok(Change::Redone(None)),
        Some(old) => {
            if same_row(alloc, old, row)? {
                Ok(Change::Kept)
            } else if closes && same_value(&old.inputs, &row.inputs) {
                Ok(Change::Closed(old.status))
            } else {
                Ok(Change::Redone(Some(old.status)))
            }
        }
    }
}

/// What became of a row, where there is an earlier record. `closes` says whether it is a Scope's, an If's or a Switch's.
pub fn change_of(
    alloc: Global,
    closes: bool,
    earlier: Option<&Record>,
    row: &Row,
) -> Result<Option<Change>, AllocError>
    ensures { IfOk result (λ c. c ≡ change_of closes (option_map (λ r. (record_tree r.now).rows) earlier.entry) (row_tree row.now)) }
{
    match earlier {
        None => Ok(None),
        Some(log) => {
            let changed = changed(alloc, closes, log.row(&row.address), row)?;
            Ok(Some(changed))
        }
    }
}

// A mark that tells how the row ended before.
#[tactic(auto, using(wf_html::proofs::PieceLemmas::written_append, std::proofs::Common::append_assoc))]
fn marked_was(bytes: Vec<u8>, tag: Tag, word: &str, status: Status) -> Result<Vec<u8>, AllocError>
    ensures { IfOk result (λ b. b.items ≡ written bytes.items (said (codes " ") ∷ with_text tag (was word.now status))) }
{
    let bytes = say(bytes, " ")?;
    let bytes = open(bytes, tag)?;
    let bytes = say(bytes, word)?;
    let bytes = say(bytes, ", was ")?;
    let bytes = say(bytes, status.name())?;
    close(bytes, tag)
}

/// The mark of what became of a row.
pub fn change_mark(bytes: Vec<u8>, change: Option<Change>) -> Result<Vec<u8>, AllocError>
    ensures { IfOk result (λ b. b.items ≡ written bytes.items (change_mark change)) }
{
    match change {
        None => Ok(bytes),
        Some(Change::Kept) => say_in(say(bytes, " ")?, Tag::Kept, "kept"),
        Some(Change::Closed(status)) => marked_was(bytes, Tag::Closed, "closed again", status),
        Some(Change::Redone(None)) => say_in(say(bytes, " ")?, Tag::Redone, "redone"),
        Some(Change::Redone(Some(status))) => marked_was(bytes, Tag::Redone, "redone", status),
    }
}
