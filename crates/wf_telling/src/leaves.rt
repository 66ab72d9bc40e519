//! Lines of events of leaves.
ghost use Rattle.std.specs.Prelude.{◌≡◌, ◌-◌, IfOk, Some, map, option_map, slice_get};
ghost use Rattle.wf_answers.specs.AnswerSeen.{answer_tree};
ghost use Rattle.wf_trace.specs.DoneSeen.{begun_tree};
ghost use Rattle.wf_trace.specs.Leaf.{tries_in};
ghost use Rattle.wf_doing.specs.ViewsSeen.{row_content};
ghost use Rattle.wf_tables.specs.Tables.{leaf_tree};
ghost use Rattle.wf_doing.specs.Places.{named};
ghost use Rattle.wf_telling.specs.Lines.{attempt_by, end_by, start_by};

use std::alloc::{AllocError, Global};
use wf_answers::Answers;
use wf_doing::tries;
use wf_record::{Row, Try};
use wf_tables::LeafAt;
use wf_trace::{Begun, end_line, start_line, try_line};
use wf_val::{Indexes, Name};

/// A leaf has started.
pub(crate) fn start(
    alloc: Global,
    name: &Name,
    at: &Indexes,
    leaf: Option<&LeafAt<Begun>>,
) -> Result<Vec<u8>, AllocError>
    ensures { IfOk result (λ line. line.items ≡ start_by name.now at.now (option_map (λ l. leaf_tree begun_tree l.now) leaf.entry)) }
{
    match leaf {
        Some(leaf) => start_line(alloc, name, at, &leaf.begun),
        None => Ok(Vec::new(alloc)),
    }
}

// What the attempt of a number came to, counted from 1; nothing where there is no such attempt.
fn attempt_of(
    alloc: Global,
    answers: &Answers,
    name: &Name,
    at: &Indexes,
    begun: &Begun,
    number: u64,
) -> Result<Option<Try>, AllocError>
    ensures { IfOk result (λ t. t
        ≡ slice_get (tries_in (map answer_tree answers.now) (named name.now at.now) (begun_tree begun.now)) (number - 1)) }
{
    let made = tries(alloc, begun, answers, name, at)?;
    Ok(made.at(number.saturating_sub(1)).copied())
}

fn attempt_line(
    alloc: Global,
    answers: &Answers,
    name: &Name,
    at: &Indexes,
    leaf: &LeafAt<Begun>,
) -> Result<Vec<u8>, AllocError>
    ensures { IfOk result (λ line. line.items
        ≡ attempt_by (map answer_tree answers.now) name.now at.now (Some (leaf_tree begun_tree leaf.now))) }
{
    let attempt = attempt_of(alloc, answers, name, at, &leaf.begun, leaf.tries)?;
    try_line(alloc, name, at, leaf.tries, attempt)
}

/// A leaf has made one more attempt, the last so far.
pub(crate) fn attempt(
    alloc: Global,
    answers: &Answers,
    name: &Name,
    at: &Indexes,
    leaf: Option<&LeafAt<Begun>>,
) -> Result<Vec<u8>, AllocError>
    ensures { IfOk result (λ line. line.items
        ≡ attempt_by (map answer_tree answers.now) name.now at.now (option_map (λ l. leaf_tree begun_tree l.now) leaf.entry)) }
{
    match leaf {
        Some(leaf) => attempt_line(alloc, answers, name, at, leaf),
        None => Ok(Vec::new(alloc)),
    }
}

/// A leaf has ended.
pub(crate) fn end(
    alloc: Global,
    name: &Name,
    at: &Indexes,
    row: Option<&Row>,
) -> Result<Vec<u8>, AllocError>
    ensures { IfOk result (λ line. line.items ≡ end_by name.now at.now (option_map (λ r. row_content r.now) row.entry)) }
{
    match row {
        Some(row) => end_line(alloc, name, at, row),
        None => Ok(Vec::new(alloc)),
    }
}
