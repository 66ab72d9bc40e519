//! What is told of an End and of a Close.
ghost use Rattle.std.specs.Prelude.{◌≡◌, ◌∷◌, ◌++◌, codes, IfOk, OnOk};
ghost use Rattle.wf_record.specs.Record.{status_name};
ghost use Rattle.wf_record.specs.Seen.{row_tree};
ghost use Rattle.wf_trace.specs.Texts.{end_text};
ghost use Rattle.wf_trace.specs.Told.{line_at};

use crate::line::front;
use std::alloc::{AllocError, Global};
use wf_json::write_to;
use wf_record::Row;
use wf_val::{Indexes, Name};

// Adds a status and outputs.
#[tactic(auto, using(std::proofs::Common::append_assoc))]
fn add_ending(line: &mut Vec<u8>, row: &Row) -> Result<(), AllocError>
    ensures { OnOk result (line.new.items ≡ line.old.items ++ end_text (row_tree row.now).row) }
{
    line.extend_from_slice(row.status.name().as_bytes())?;
    line.push(b' ')?;
    write_to(line, &row.outputs)
}

/// A leaf has ended with this row.
#[tactic(auto, using(crate::proofs::LineLemmas::spaced_line))]
pub fn end_line(alloc: Global, name: &Name, at: &Indexes, row: &Row) -> Result<Vec<u8>, AllocError>
    ensures { IfOk result (λ line. line.items ≡ line_at (codes "End") name.now at.now (32 ∷ end_text (row_tree row.now).row)) }
{
    let mut line = front(alloc, "End", name, at)?;
    line.push(b' ')?;
    add_ending(&mut line, row)?;
    Ok(line)
}

/// A container has closed with this row.
#[tactic(auto, using(crate::proofs::LineLemmas::spaced_line))]
pub fn close_line(
    alloc: Global,
    name: &Name,
    at: &Indexes,
    row: &Row,
) -> Result<Vec<u8>, AllocError>
    ensures { IfOk result (λ line. line.items ≡ line_at (codes "Close") name.now at.now (32 ∷ status_name row.now.status)) }
{
    let mut line = front(alloc, "Close", name, at)?;
    line.push(b' ')?;
    line.extend_from_slice(row.status.name().as_bytes())?;
    Ok(line)
}
