//! One row.
ghost use Rattle.std.specs.Prelude.{◌≡◌, IfOk, string_bytes};
ghost use Rattle.wf_html.specs.Html.{written};
ghost use Rattle.wf_record.specs.Seen.{row_tree};
ghost use Rattle.wf_val.specs.Address.{indexes_text};
ghost use Rattle.wf_shown.specs.Rows.{attempts_fact, row_facts, row_head, row_pieces};

use crate::attempts::attempts_text;
use crate::change::{Change, change_mark};
use crate::facts::{fact, fact_of_members, fact_text};
use crate::look::mark;
use std::alloc::{AllocError, Global};
use wf_html::{Tag, close, open, say, say_in};
use wf_record::{Row, Tries};
use wf_val::{Indexes, push_indexes};

// The numbers of the iterations that a row is of.
fn indexes_text(alloc: Global, at: &Indexes) -> Result<String, AllocError>
    ensures { IfOk result (λ text. string_bytes text ≡ indexes_text at.now) }
{
    let mut text = String::new(alloc);
    push_indexes(&mut text, at.as_slice())?;
    Ok(text)
}

fn attempts_fact(alloc: Global, bytes: Vec<u8>, attempts: &Tries) -> Result<Vec<u8>, AllocError>
    ensures { IfOk result (λ b. b.items ≡ written bytes.items (attempts_fact attempts.now)) }
{
    match attempts.as_slice() {
        [] => Ok(bytes),
        _ => {
            let text = attempts_text(alloc, attempts)?;
            fact_text(bytes, "attempts", text.as_bytes())
        }
    }
}

// What is seen of a row while it is folded.
#[tactic(auto, using(wf_html::proofs::PieceLemmas::written_append))]
fn row_head(
    alloc: Global,
    bytes: Vec<u8>,
    change: Option<Change>,
    row: &Row,
) -> Result<Vec<u8>, AllocError>
    ensures { IfOk result (λ b. b.items ≡ written bytes.items (row_head change (row_tree row.now))) }
{
    let place = indexes_text(alloc, &row.address.at)?;
    let bytes = open(bytes, Tag::Summary)?;
    let bytes = say_in(bytes, Tag::Place, place.as_str())?;
    let bytes = mark(bytes, row.status, row.status.name())?;
    let bytes = say(bytes, " ")?;
    let bytes = say_in(bytes, Tag::Code, row.code.as_str())?;
    let bytes = change_mark(bytes, change)?;
    close(bytes, Tag::Summary)
}

// What is behind that.
#[tactic(auto, using(wf_html::proofs::PieceLemmas::written_append))]
fn row_facts(alloc: Global, bytes: Vec<u8>, row: &Row) -> Result<Vec<u8>, AllocError>
    ensures { IfOk result (λ b. b.items ≡ written bytes.items (row_facts (row_tree row.now))) }
{
    let bytes = open(bytes, Tag::Facts)?;
    let bytes = fact(alloc, bytes, "inputs", &row.inputs)?;
    let bytes = fact(alloc, bytes, "outputs", &row.outputs)?;
    let bytes = fact(alloc, bytes, "error", &row.error)?;
    let bytes = fact_of_members(alloc, bytes, "tracked", &row.tracked)?;
    let bytes = attempts_fact(alloc, bytes, &row.attempts)?;
    close(bytes, Tag::Facts)
}

/// A row, folded.
#[tactic(auto, using(wf_html::proofs::PieceLemmas::written_append))]
pub fn show_row(
    alloc: Global,
    bytes: Vec<u8>,
    change: Option<Change>,
    row: &Row,
) -> Result<Vec<u8>, AllocError>
    ensures { IfOk result (λ b. b.items ≡ written bytes.items (row_pieces change (row_tree row.now))) }
{
    let bytes = open(bytes, Tag::Fold)?;
    let bytes = row_head(alloc, bytes, change, row)?;
    let bytes = row_facts(alloc, bytes, row)?;
    close(bytes, Tag::Fold)
}
