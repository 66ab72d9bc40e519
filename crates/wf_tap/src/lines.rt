//! What a report says of a failure, and lines with their ends.
ghost use Rattle.std.specs.Prelude.{◌≡◌, ◌++◌, ◌∷◌, [], IfOk, OnOk, option_map, string_bytes};
ghost use Rattle.wf_json.specs.Json.{json};
ghost use Rattle.wf_match.specs.Told.{told};
ghost use Rattle.wf_tap.specs.Lines.{failure_line, found_text, line_of, told_line};
ghost use Rattle.wf_val.specs.Seen.{tree};

use crate::escapes::{Place, escaped};
use crate::report::Failure;
use std::alloc::{AllocError, Global};
use std::fmt::Write;
use wf_json::{quoted, write};
use wf_match::Difference;
use wf_val::Val;

/// What a report says of a failure, on one line.
pub(crate) fn failure_line(alloc: Global, failure: &Failure) -> Result<String, AllocError>
    ensures { IfOk result (λ s. string_bytes s ≡ failure_line failure.now) }
{
    match failure {
        Failure::Differs(difference) => told_line(alloc, difference),
        Failure::Says(words) => escaped(alloc, Place::Line, words.as_str()),
    }
}

fn told_line(alloc: Global, difference: &Difference) -> Result<String, AllocError>
    ensures { IfOk result (λ s. string_bytes s ≡ told_line (told difference.now)) }
{
    let pointer = quoted(alloc, difference.pointer.as_str())?;
    let expected = json_text(alloc, &difference.expected)?;
    let found = found_text(alloc, &difference.found)?;
    let line = line_of(alloc, pointer.as_str(), expected.as_str(), found.as_str())?;
    Ok(line)
}

fn line_of(alloc: Global, pointer: &str, expected: &str, found: &str) -> Result<String, AllocError>
    ensures { IfOk result (λ s. string_bytes s ≡ line_of pointer.now expected.now found.now) }
{
    format!(in alloc; "{pointer}: expected {expected}, found {found}")
}

fn found_text(alloc: Global, found: &Option<Val>) -> Result<String, AllocError>
    ensures { IfOk result (λ s. string_bytes s ≡ found_text (option_map tree found.now)) }
{
    match found {
        None => String::from_str(alloc, "nothing"),
        Some(value) => json_text(alloc, value),
    }
}

fn json_text(alloc: Global, value: &Val) -> Result<String, AllocError>
    ensures { IfOk result (λ s. string_bytes s ≡ json (tree value.now)) }
{
    let bytes = write(alloc, value)?;
    Ok(String::from_utf8(bytes).unwrap())
}

/// Adds a line and its end.
pub(crate) fn push_line(out: &mut String, line: &str) -> Result<(), AllocError>
    ensures { OnOk result (string_bytes out.new ≡ string_bytes out.old ++ (line.now ++ 10 ∷ [])) }
{
    writeln!(out, "{line}")?;
    Ok(())
}
