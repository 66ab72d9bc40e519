//! The text of a report as an XML file in the form that is named after JUnit.
ghost use Rattle.std.specs.Prelude.{◌≡◌, ◌++◌, ◌∷◌, ◌≤◌, [], IfOk, OnOk, length, map, flat_map, string_bytes};
ghost use Rattle.wf_tap.specs.Junit.{case_end, case_line, case_lines, failed, failure_lines, failure_tag, first_line, junit_of, root_lines};
ghost use Rattle.wf_tap.specs.Junit.{suite_line, suite_lines, xml, xml_line};
ghost use Rattle.wf_tap.specs.Lines.{ended};

use crate::escapes::{Place, escaped};
use crate::lines::{failure_line, push_line};
use crate::report::{Failure, Outcome, Results};
use std::alloc::{AllocError, Global};
use wf_val::Text;

/// The text of a report as XML (1.0) in the form that is named after JUnit, which build servers read.
pub fn junit_text(alloc: Global, results: &[Results]) -> Result<Text, AllocError>
    ensures { IfOk result (λ t. t ≡ junit_of results.now) }
{
    let mut out = String::new(alloc);
    push_line(&mut out, "<?xml version=\"1.0\" encoding=\"UTF-8\"?>")?;
    write_root(alloc, &mut out, results)?;
    Ok(Text::from_string(out))
}

fn write_root(alloc: Global, out: &mut String, results: &[Results]) -> Result<(), AllocError>
    ensures { OnOk result (string_bytes out.new ≡ string_bytes out.old ++ ended (root_lines results.now)) }
{
    push_line(out, "<testsuites>")?;
    write_suites(alloc, out, results)?;
    push_line(out, "</testsuites>")?;
    Ok(())
}

fn write_suites(alloc: Global, out: &mut String, results: &[Results]) -> Result<(), AllocError>
    ensures { OnOk result (string_bytes out.new
        ≡ string_bytes out.old ++ ended (flat_map suite_lines results.now)) }
{
    for one in results {
        write_suite(alloc, out, one)?;
    }
    Ok(())
}

fn write_suite(alloc: Global, out: &mut String, results: &Results) -> Result<(), AllocError>
    ensures { OnOk result (string_bytes out.new ≡ string_bytes out.old ++ ended (suite_lines results.now)) }
{
    write_suite_line(alloc, out, results)?;
    write_cases(alloc, out, &results.file, results.outcomes.as_slice())?;
    push_line(out, "  </testsuite>")?;
    Ok(())
}

fn write_suite_line(alloc: Global, out: &mut String, results: &Results) -> Result<(), AllocError>
    ensures { OnOk result (string_bytes out.new ≡ string_bytes out.old ++ (first_line results.now ++ 10 ∷ [])) }
{
    let outcomes = results.outcomes.as_slice();
    let file = xml(alloc, results.file.as_str())?;
    let line = suite_line(alloc, file.as_str(), outcomes.len(), failed(outcomes))?;
    push_line(out, line.as_str())
}

fn xml(alloc: Global, text: &str) -> Result<String, AllocError>
    ensures { IfOk result (λ s. string_bytes s ≡ xml text.now) }
{
    escaped(alloc, Place::Xml, text)
}

fn suite_line(
    alloc: Global,
    file: &str,
    tests: usize,
    failures: usize,
) -> Result<String, AllocError>
    ensures { IfOk result (λ s. string_bytes s ≡ suite_line file.now tests failures) }
{
    format!(in alloc; "  <testsuite name=\"{file}\" tests=\"{tests}\" failures=\"{failures}\">")
}

// How many outcomes have a failure.
fn failed(outcomes: &[Outcome]) -> usize
    ensures count { result ≡ failed outcomes.now }
    ensures few { result ≤ length outcomes.now }
{
    let mut count = 0;
    for outcome in outcomes {
        if outcome.failures.len() > 0 {
            count += 1;
        }
    }
    count
}

fn write_cases(
    alloc: Global,
    out: &mut String,
    file: &Text,
    outcomes: &[Outcome],
) -> Result<(), AllocError>
    ensures { OnOk result (string_bytes out.new
        ≡ string_bytes out.old ++ ended (flat_map (case_lines file.now) outcomes.now)) }
{
    for outcome in outcomes {
        write_case(alloc, out, file, outcome)?;
    }
    Ok(())
}

fn write_case(
    alloc: Global,
    out: &mut String,
    file: &Text,
    outcome: &Outcome,
) -> Result<(), AllocError>
    ensures { OnOk result (string_bytes out.new ≡ string_bytes out.old ++ ended (case_lines file.now outcome.now)) }
{
    let failures = outcome.failures.as_slice();
    let file = xml(alloc, file.as_str())?;
    let name = xml(alloc, outcome.name.as_str())?;
    let line = case_line(alloc, file.as_str(), name.as_str(), case_end(failures))?;
    push_line(out, line.as_str())?;
    write_failures(alloc, out, failures)
}

fn case_end(failures: &[Failure]) -> &'static str
    ensures { result.now ≡ case_end failures.now }
{
    if failures.is_empty() { "\"/>" } else { "\">" }
}

fn case_line(alloc: Global, file: &str, name: &str, end: &str) -> Result<String, AllocError>
    ensures { IfOk result (λ s. string_bytes s ≡ case_line file.now name.now end.now) }
{
    format!(in alloc; "    <testcase classname=\"{file}\" name=\"{name}{end}")
}

#[tactic(auto, using(crate::proofs::LineLemmas::ended_append))]
fn write_failures(alloc: Global, out: &mut String, failures: &[Failure]) -> Result<(), AllocError>
    ensures { OnOk result (string_bytes out.new ≡ string_bytes out.old ++ ended (failure_lines failures.now)) }
{
    let Some(first) = failures.first() else {
        return Ok(());
    };
    push_line(out, failure_tag(alloc, first)?.as_str())?;
    write_lines(alloc, out, failures)?;
    push_line(out, "      </failure>")?;
    push_line(out, "    </testcase>")
}

fn failure_tag(alloc: Global, failure: &Failure) -> Result<String, AllocError>
    ensures { IfOk result (λ s. string_bytes s ≡ failure_tag failure.now) }
{
    let line = xml_line(alloc, failure)?;
    let tag = format!(in alloc; "      <failure message=\"{line}\">")?;
    Ok(tag)
}

fn write_lines(alloc: Global, out: &mut String, failures: &[Failure]) -> Result<(), AllocError>
    ensures { OnOk result (string_bytes out.new
        ≡ string_bytes out.old ++ ended (map xml_line failures.now)) }
{
    for failure in failures {
        push_line(out, xml_line(alloc, failure)?.as_str())?;
    }
    Ok(())
}

fn xml_line(alloc: Global, failure: &Failure) -> Result<String, AllocError>
    ensures { IfOk result (λ s. string_bytes s ≡ xml_line failure.now) }
{
    let line = failure_line(alloc, failure)?;
    let shown = xml(alloc, line.as_str())?;
    Ok(shown)
}
