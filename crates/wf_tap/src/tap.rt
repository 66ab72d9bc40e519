//! The text of a report in the Test Anything Protocol.
ghost use Rattle.std.specs.Prelude.{◌≡◌, ◌++◌, ◌∷◌, [], IfOk, OnOk, map, string_bytes};
ghost use Rattle.wf_tap.specs.Lines.{ended};
ghost use Rattle.wf_tap.specs.Tap.{comment_line, comment_lines, file_line, file_lines, lines_from, plan_line, points, point_line};
ghost use Rattle.wf_tap.specs.Tap.{tap_of, verdict};
ghost use Rattle.wf_tap.specs.TapSeen.{point_seen};

use crate::escapes::{Place, escaped};
use crate::lines::{failure_line, push_line};
use crate::report::{Failure, Outcome, Results};
use std::alloc::{AllocError, Global};
use wf_json::quoted;
use wf_val::Text;

/// The text of a report in the Test Anything Protocol, version 14.
pub fn tap_text(alloc: Global, results: &[Results]) -> Result<Text, AllocError>
    ensures { IfOk result (λ t. t ≡ tap_of results.now) }
{
    let points = points_of(alloc, results)?;
    let mut out = String::new(alloc);
    push_line(&mut out, "TAP version 14")?;
    push_line(&mut out, plan_line(alloc, points.len())?.as_str())?;
    write_points(alloc, &mut out, results.len() > 1, points.as_slice())?;
    Ok(Text::from_string(out))
}

fn plan_line(alloc: Global, count: usize) -> Result<String, AllocError>
    ensures { IfOk result (λ s. string_bytes s ≡ plan_line count) }
{
    format!(in alloc; "1..{count}")
}

/// An outcome, and the file that it is of.
#[derive(Clone, Copy)]
pub(crate) struct Point<'a> {
    pub(crate) file: &'a Text,
    pub(crate) outcome: &'a Outcome,
}

// The outcomes of all files, in order.
fn points_of<'a>(alloc: Global, results: &'a [Results]) -> Result<Vec<Point<'a>>, AllocError>
    ensures { IfOk result (λ v. map point_seen v.items ≡ points results.now) }
{
    let mut points = Vec::new(alloc);
    for one in results {
        push_points(&mut points, one)?;
    }
    Ok(points)
}

fn push_points<'a>(points: &mut Vec<Point<'a>>, results: &'a Results) -> Result<(), AllocError>
    ensures { OnOk result (map point_seen points.new.items
        ≡ map point_seen points.old.items ++ map (λ o. (results.now.file, o)) results.now.outcomes) }
{
    for outcome in results.outcomes.as_slice() {
        points.push(Point {
            file: &results.file,
            outcome,
        })?;
    }
    Ok(())
}

// Adds the lines of outcomes, the first of which has the number 1.
#[tactic(auto, using(crate::proofs::LineLemmas::ended_append))]
fn write_points(
    alloc: Global,
    out: &mut String,
    several: bool,
    points: &[Point<'_>],
) -> Result<(), AllocError>
    ensures { OnOk result (string_bytes out.new
        ≡ string_bytes out.old ++ ended (lines_from several 1 (map point_seen points.now))) }
{
    for (place, point) in points.iter().enumerate() {
        write_point(alloc, out, several, place + 1, point)?;
    }
    Ok(())
}

// Adds the line of an outcome, and those behind it.
fn write_point(
    alloc: Global,
    out: &mut String,
    several: bool,
    number: usize,
    point: &Point<'_>,
) -> Result<(), AllocError>
    ensures { OnOk result (string_bytes out.new ≡ string_bytes out.old
        ++ ended (point_line number point.now.outcome.now
        ∷ comment_lines several point.now.file.now point.now.outcome.now.failures)) }
{
    push_line(out, point_line(alloc, number, point.outcome)?.as_str())?;
    write_comments(
        alloc,
        out,
        several,
        point.file,
        point.outcome.failures.as_slice(),
    )
}

fn point_line(alloc: Global, number: usize, outcome: &Outcome) -> Result<String, AllocError>
    ensures { IfOk result (λ s. string_bytes s ≡ point_line number outcome.now) }
{
    let verdict = verdict(outcome.failures.as_slice());
    let name = escaped(alloc, Place::Name, outcome.name.as_str())?;
    let line = format!(in alloc; "{verdict}{number} - {name}")?;
    Ok(line)
}

fn verdict(failures: &[Failure]) -> &'static str
    ensures { result.now ≡ verdict failures.now }
{
    if failures.is_empty() {
        "ok "
    } else {
        "not ok "
    }
}

// Adds the lines behind it.
#[tactic(auto, using(crate::proofs::LineLemmas::ended_append))]
fn write_comments(
    alloc: Global,
    out: &mut String,
    several: bool,
    file: &Text,
    failures: &[Failure],
) -> Result<(), AllocError>
    ensures { OnOk result (string_bytes out.new
        ≡ string_bytes out.old ++ ended (comment_lines several file.now failures.now)) }
{
    if failures.is_empty() {
        return Ok(());
    }
    write_file(alloc, out, several, file)?;
    write_failures(alloc, out, failures)
}

fn write_file(alloc: Global, out: &mut String, several: bool, file: &Text) -> Result<(), AllocError>
    ensures { OnOk result (string_bytes out.new ≡ string_bytes out.old ++ ended (file_lines several file.now)) }
{
    if several {
        push_line(out, file_line(alloc, file)?.as_str())?;
    }
    Ok(())
}

fn file_line(alloc: Global, file: &Text) -> Result<String, AllocError>
    ensures { IfOk result (λ s. string_bytes s ≡ file_line file.now) }
{
    let name = quoted(alloc, file.as_str())?;
    let line = format!(in alloc; "# in {}", name.as_str())?;
    Ok(line)
}

fn write_failures(alloc: Global, out: &mut String, failures: &[Failure]) -> Result<(), AllocError>
    ensures { OnOk result (string_bytes out.new
        ≡ string_bytes out.old ++ ended (map comment_line failures.now)) }
{
    for failure in failures {
        push_line(out, comment_line(alloc, failure)?.as_str())?;
    }
    Ok(())
}

fn comment_line(alloc: Global, failure: &Failure) -> Result<String, AllocError>
    ensures { IfOk result (λ s. string_bytes s ≡ comment_line failure.now) }
{
    let line = failure_line(alloc, failure)?;
    let comment = format!(in alloc; "# {line}")?;
    Ok(comment)
}
