//! Failures in plain words.
ghost use Rattle.std.specs.Prelude.{◌≡◌, ◌++◌, ◌∷◌, [], IfOk, OnOk, bytes_eq, map, string_bytes};
ghost use Rattle.wf_judged.specs.Failures.{accepted, end_words, ended_so, ended_with, first_of, of_wanted, other_end, quoted, unless};
ghost use Rattle.wf_judged.specs.Why.{why};
ghost use Rattle.wf_suite.specs.declared.suite.Wanted.{Wanted};
ghost use Rattle.wf_lines.specs.Lines.{lines_of};

use crate::lines::{Ended, lines_of};
use std::alloc::{AllocError, Global};
use wf_lists::Series;
use wf_tap::Failure;
use wf_val::Text;

/// Failures, in the order in which they are told.
pub(crate) type Failures = Series<Failure>;

/// Tells words unless something holds.
pub(crate) fn unless(holds: bool, words: Text, all: &mut Failures) -> Result<(), AllocError>
    ensures { OnOk result (map why all.new ≡ map why all.old ++ unless holds words) }
{
    if !holds {
        all.push(Failure::Says(words))?;
    }
    Ok(())
}

// The first line of a text.
fn first_line<'a>(alloc: Global, text: &'a [u8]) -> Result<&'a [u8], AllocError>
    ensures { IfOk result (λ line. line.now ≡ first_of (lines_of text.now)) }
{
    let lines = lines_of(alloc, text)?;
    match lines.first() {
        Some(line) => Ok(*line),
        None => Ok(&text[..0]),
    }
}

// A line as a JSON text.
fn quoted(alloc: Global, line: &[u8]) -> Result<Text, AllocError>
    ensures { IfOk result (λ t. t ≡ quoted line.now) }
{
    let line = String::from_utf8_lossy(alloc, line)?;
    wf_json::quoted(alloc, line.as_str())
}

#[tactic(auto, unfolding(crate::specs::Failures::end_words))]
fn end_words(alloc: Global, status: u8, line: &[u8]) -> Result<String, AllocError>
    ensures { IfOk result (λ words. string_bytes words ≡ end_words status line.now) }
{
    let line = quoted(alloc, line)?;
    let line = line.as_str();
    format!(in alloc; ", and it ended with {status} {line}")
}

/// How a command ended: its status, and the first line.
pub(crate) fn ended_with(alloc: Global, ended: &Ended) -> Result<String, AllocError>
    ensures { IfOk result (λ words. string_bytes words ≡ ended_with ended.now.status ended.now.text.items) }
{
    end_words(alloc, ended.status, first_line(alloc, &ended.text)?)
}

// The same without the line where it may be a record.
#[tactic(auto, unfolding(crate::specs::Failures::zero_words))]
fn ended_so(alloc: Global, ended: &Ended) -> Result<String, AllocError>
    ensures { IfOk result (λ words. string_bytes words ≡ ended_so ended.now.status ended.now.text.items) }
{
    if ended.status == 0 {
        String::from_str(alloc, ", and it ended with 0")
    } else {
        ended_with(alloc, ended)
    }
}

/// Says that an end isn't the one that is expected.
#[tactic(auto, unfolding(crate::specs::Failures::other_end))]
pub(crate) fn other_end(alloc: Global, wanted: &str, end: &str) -> Result<Text, AllocError>
    ensures { IfOk result (λ words. words ≡ other_end wanted.now end.now) }
{
    Ok(Text::from_string(format!(in alloc; "expected {wanted}{end}")?))
}

#[tactic(auto, unfolding(crate::specs::Failures::accepted))]
fn accepted(alloc: Global, count: u64) -> Result<String, AllocError>
    ensures { IfOk result (λ line. string_bytes line ≡ accepted count) }
{
    format!(in alloc; "accepted {count}")
}

// Whether a text is this line and nothing else.
fn is_line(alloc: Global, text: &[u8], line: &str) -> Result<bool, AllocError>
    ensures { IfOk result (λ is. is ≡ bytes_eq text.now (line.now ++ 10 ∷ [])) }
{
    let wanted = format!(in alloc; "{line}\n")?;
    Ok(text == wanted.as_bytes())
}

/// Tells where a check isn't accepted with this number of actions.
pub(crate) fn of_accepts(
    alloc: Global,
    count: u64,
    ended: &Ended,
    all: &mut Failures,
) -> Result<(), AllocError>
    ensures { OnOk result (map why all.new ≡ map why all.old ++ of_wanted (Wanted.Accepts count) ended.now.status ended.now.text.items) }
{
    let line = accepted(alloc, count)?;
    let holds = ended.status == 0 && is_line(alloc, &ended.text, line.as_str())?;
    let wanted = quoted(alloc, line.as_bytes())?;
    let end = ended_with(alloc, ended)?;
    unless(holds, other_end(alloc, wanted.as_str(), end.as_str())?, all)
}

/// Tells where an end isn't a refusal with this line.
pub(crate) fn of_refused(
    alloc: Global,
    line: &Text,
    ended: &Ended,
    all: &mut Failures,
) -> Result<(), AllocError>
    ensures { OnOk result (map why all.new ≡ map why all.old ++ of_wanted (Wanted.Refused line.now) ended.now.status ended.now.text.items) }
{
    let holds = ended.status != 0 && is_line(alloc, &ended.text, line.as_str())?;
    let wanted = quoted(alloc, line.as_str().as_bytes())?;
    let end = ended_so(alloc, ended)?;
    unless(holds, other_end(alloc, wanted.as_str(), end.as_str())?, all)
}
