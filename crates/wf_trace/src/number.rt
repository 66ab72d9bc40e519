//! What is told of events that have a number: of a Try, a Begin and a Test.
ghost use Rattle.std.specs.Prelude.{◌≡◌, ◌∷◌, ◌++◌, codes, decimal, IfOk, OnOk};
ghost use Rattle.wf_opening.specs.DecisionSeen.{verdict_tree};
ghost use Rattle.wf_trace.specs.Texts.{try_text, verdict_text};
ghost use Rattle.wf_trace.specs.Told.{attempt_text, line_at, of_attempt, test_text};

use crate::fault::add_fault;
use crate::line::{add, front};
use std::alloc::{AllocError, Global};
use wf_lines::put_number;
use wf_opening::Verdict;
use wf_record::Try;
use wf_val::{Indexes, Name};

// Adds what an attempt came to.
fn add_try(line: &mut Vec<u8>, attempt: Try) -> Result<(), AllocError>
    ensures { OnOk result (line.new.items ≡ line.old.items ++ try_text attempt) }
{
    match attempt {
        Try::Code(code) => put_number(line, code as u64),
        Try::NoConnection => add(line, "noConnection"),
        Try::TimedOut => add(line, "timedOut"),
        Try::NoAnswer => add(line, "noAnswer"),
        Try::Unknown => add(line, "unknown"),
    }
}

// Adds a blank, the number of an attempt, and what it came to.
#[tactic(auto, using(std::proofs::Common::append_assoc))]
fn add_attempt(line: &mut Vec<u8>, number: u64, attempt: Try) -> Result<(), AllocError>
    ensures { OnOk result (line.new.items ≡ line.old.items ++ 32 ∷ attempt_text number attempt) }
{
    line.push(b' ')?;
    put_number(line, number)?;
    line.push(b' ')?;
    add_try(line, attempt)
}

// The same, and nothing where it isn't known what the attempt came to.
fn add_known_attempt(
    line: &mut Vec<u8>,
    number: u64,
    attempt: Option<Try>,
) -> Result<(), AllocError>
    ensures { OnOk result (line.new.items ≡ line.old.items ++ of_attempt number attempt) }
{
    match attempt {
        Some(attempt) => add_attempt(line, number, attempt),
        None => add(line, ""),
    }
}

/// A leaf has made an attempt, counted from 1, and this is what came of it. Where that isn't known, only that there was one is told.
#[tactic(auto, using(crate::proofs::LineLemmas::line_is))]
pub fn try_line(
    alloc: Global,
    name: &Name,
    at: &Indexes,
    number: u64,
    attempt: Option<Try>,
) -> Result<Vec<u8>, AllocError>
    ensures { IfOk result (λ line. line.items ≡ line_at (codes "Try") name.now at.now (of_attempt number attempt)) }
{
    let mut line = front(alloc, "Try", name, at)?;
    add_known_attempt(&mut line, number, attempt)?;
    Ok(line)
}

/// An iteration of a loop has begun, which has this index.
#[tactic(auto, using(crate::proofs::LineLemmas::spaced_line))]
pub fn begin_line(
    alloc: Global,
    name: &Name,
    at: &Indexes,
    index: u64,
) -> Result<Vec<u8>, AllocError>
    ensures { IfOk result (λ line. line.items ≡ line_at (codes "Begin") name.now at.now (32 ∷ decimal index)) }
{
    let mut line = front(alloc, "Begin", name, at)?;
    line.push(b' ')?;
    put_number(&mut line, index)?;
    Ok(line)
}

// Adds what the test of an Until gave.
fn add_verdict(alloc: Global, line: &mut Vec<u8>, verdict: &Verdict) -> Result<(), AllocError>
    ensures { OnOk result (line.new.items ≡ line.old.items ++ verdict_text (verdict_tree verdict.now)) }
{
    match verdict {
        Verdict::Met(true) => add(line, "true"),
        Verdict::Met(false) => add(line, "false"),
        Verdict::Astray(fault) => add_fault(alloc, line, fault),
    }
}

// Adds the index of an iteration, and what the test behind it gave.
#[tactic(auto, using(std::proofs::Common::append_assoc))]
fn add_test(
    alloc: Global,
    line: &mut Vec<u8>,
    index: u64,
    verdict: &Verdict,
) -> Result<(), AllocError>
    ensures { OnOk result (line.new.items ≡ line.old.items ++ test_text index (verdict_tree verdict.now)) }
{
    put_number(line, index)?;
    line.push(b' ')?;
    add_verdict(alloc, line, verdict)
}

/// An Until was tested behind the iteration of this index.
#[tactic(auto, using(crate::proofs::LineLemmas::spaced_line))]
pub fn test_line(
    alloc: Global,
    name: &Name,
    at: &Indexes,
    index: u64,
    verdict: &Verdict,
) -> Result<Vec<u8>, AllocError>
    ensures { IfOk result (λ line. line.items ≡ line_at (codes "Test") name.now at.now (32 ∷ test_text index (verdict_tree verdict.now))) }
{
    let mut line = front(alloc, "Test", name, at)?;
    line.push(b' ')?;
    add_test(alloc, &mut line, index, verdict)?;
    Ok(line)
}
