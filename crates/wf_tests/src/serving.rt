//! The call of the program of tests.
ghost use Rattle.std.specs.Prelude.{◌≡◌, ◌≢◌, ◌≤◌, ◌<◌, ◌⊎◌, ◌∷◌, ◌++◌, List, ℕ, [], Contains, IfOk, IfErr, None};
ghost use Rattle.std.specs.Io.KnownBytes.{Appends};
ghost use Rattle.wf_json.specs.Json.{string};
ghost use Rattle.wf_judged.specs.declared.lines.Ended.{Ended};
ghost use Rattle.wf_outside.specs.Outside.{Rose};
ghost use Rattle.wf_tests.specs.Asked.{AnyAsks, IsAsked, TellsOf};
ghost use Rattle.wf_tests.specs.Loaded.{Stopped};
ghost use Rattle.wf_tests.specs.Named.{HasReadAll};
ghost use Rattle.wf_tests.specs.Served.{AreTested, HasFailed, HasPassed, HasReport, IsTested, StopsBy, all_pass, passed, report_of};
ghost use Rattle.wf_tests.specs.Served.{report_status, stop_line, stop_status};
ghost use Rattle.wf_tests.specs.Runs.{AreRun};
ghost use Rattle.wf_talk.specs.Written.{Writes};
ghost use Rattle.wf_tests.specs.Words.{wish_of, wish_tree};

use crate::loaded::Loaded;
use crate::loading::load_all;
use crate::program::Program;
use crate::running::run_tests;
use crate::stop::Stop;
use crate::words::{Asked, asked_of};
use std::alloc::{AllocError, Global};
use wf_outside::{Files, Sink};
use wf_talk::close;
use wf_tap::{Outcome, Results, junit_text, tap_text};
use wf_val::Text;

const USAGE: &[u8] = b"usage: wftest [--junit] FILE...\n";

const OUT_OF_MEMORY: &[u8] = b"out of memory\n";

// What the tests of a file came to.
fn results_of<P: Program>(
    alloc: Global,
    program: &P,
    loaded: &Loaded,
) -> Result<Results, AllocError>
    ensures file { IfOk result (λ r. r.file ≡ loaded.now.file) }
    ensures run { IfOk result (λ r. (ends : List Ended)
        × AreRun P.says loaded.now.sources loaded.now.suite.definition [] loaded.now.suite.tests ends r.outcomes) }
{
    let outcomes = run_tests(alloc, program, &loaded.sources, &loaded.suite)?;
    Ok(Results {
        file: loaded.file.copy(alloc)?,
        outcomes,
    })
}

#[tactic(auto, using(crate::proofs::TestedLemmas::tested_more))]
fn all_results<P: Program>(
    alloc: Global,
    program: &P,
    loaded: &[Loaded],
) -> Result<Vec<Results>, AllocError>
    ensures { IfOk result (λ results. AreTested P.says loaded.now results.items) }
{
    let mut results = Vec::new(alloc);
    for one in loaded {
        results.push(results_of(alloc, program, one)?)?;
    }
    Ok(results)
}

fn all_pass(outcomes: &[Outcome]) -> bool
    ensures { result ≡ all_pass outcomes.now }
{
    for outcome in outcomes {
        if outcome.failures.len() > 0 {
            return false;
        }
    }
    true
}

fn passed(results: &[Results]) -> bool
    ensures { result ≡ passed results.now }
{
    for one in results {
        if !all_pass(one.outcomes.as_slice()) {
            return false;
        }
    }
    true
}

fn report_of(alloc: Global, junit: bool, results: &[Results]) -> Result<Text, AllocError>
    ensures { IfOk result (λ t. t ≡ report_of junit results.now) }
{
    if junit {
        junit_text(alloc, results)
    } else {
        tap_text(alloc, results)
    }
}

/// What is written, and the status behind it.
#[derive(Drop)]
struct Report {
    text: Text,
    passed: bool,
}

// The report of all tests of the files that are asked for.
fn make_report<F: Files, P: Program>(
    alloc: Global,
    asked: Asked<'_>,
    files: &mut F,
    program: &P,
) -> Result<Report, Stop>
    ensures report { IfOk result (λ r. (F.failed files.new ≡ F.failed files.old) × ((results : List Results)
        × HasReport P.says (F.held files.old) (wish_tree asked.entry) results r.text r.passed)) }
    ensures stop { IfErr result (λ stop. Stopped (F.held files.old) (F.failed files.old) (F.failed files.new) stop) }
    ensures told { IfErr result (λ stop. TellsOf (AnyAsks (F.held files.old) asked.entry.files.now) (Contains asked.entry.files.now) stop) }
    ensures same { F.held files.new ≡ F.held files.old }
{
    let loaded = load_all(alloc, files, asked.files)?;
    let results = all_results(alloc, program, &loaded)?;
    Ok(Report {
        text: report_of(alloc, asked.junit, &results)?,
        passed: passed(&results),
    })
}

fn line_of(alloc: Global, word: &[u8], name: &Text) -> Result<Vec<u8>, AllocError>
    ensures { IfOk result (λ line. line.items ≡ word.now ++ (string name.now ++ 10 ∷ [])) }
{
    let mut line = word.to_vec(alloc)?;
    wf_json::quote_to(&mut line, name.as_str())?;
    line.push(b'\n')?;
    Ok(line)
}

fn no_tests(alloc: Global, file: &Text, words: &Text) -> Result<Vec<u8>, AllocError>
    ensures { IfOk result (λ line. line.items ≡ stop_line (Stop.NoTests file.now words.now)) }
{
    let mut line = b"tests ".to_vec(alloc)?;
    wf_json::quote_to(&mut line, file.as_str())?;
    line.push(b' ')?;
    line.extend_from_slice(words.as_str().as_bytes())?;
    line.push(b'\n')?;
    Ok(line)
}

fn stop_line(alloc: Global, stop: &Stop) -> Result<Vec<u8>, AllocError>
    ensures { IfOk result (λ line. line.items ≡ stop_line stop.now) }
{
    match stop {
        Stop::CannotRead(name) => line_of(alloc, b"cannot read ", name),
        Stop::TooLong(name) => line_of(alloc, b"too long ", name),
        Stop::NoTests { file, words } => no_tests(alloc, file, words),
        Stop::Memory => Ok(OUT_OF_MEMORY.to_vec(alloc)?),
    }
}

fn stop_status(stop: &Stop) -> u8
    ensures status { result ≡ stop_status stop.now }
    ensures other { result ≢ 4 }
{
    match stop {
        Stop::CannotRead(_) => 3,
        Stop::TooLong(_) => 6,
        Stop::NoTests { .. } => 6,
        Stop::Memory => 5,
    }
}

fn report_status(passed: bool) -> u8
    ensures status { result ≡ report_status passed }
    ensures within { result ≤ 1 }
{
    if passed { 0 } else { 1 }
}

// Writes a report.
fn tell_report<O: Sink>(report: &Report, out: &mut O) -> u8
    ensures writes { Writes (O.taken out.old) (O.taken out.new) (report_status report.now.passed) report.now.text result }
    ensures status { result ≤ 4 }
    ensures only { result ≡ 4 → Rose (O.faults out.old) (O.faults out.new) }
    ensures always { O.faults out.old < O.faults out.new → result ≡ 4 }
{
    close(
        out,
        report_status(report.passed),
        report.text.as_str().as_bytes(),
    )
}

// Tells why no test runs; or, where there is no memory for the line, that.
fn tell_stop<O: Sink>(alloc: Global, stop: &Stop, out: &mut O) -> u8
    ensures writes { Writes (O.taken out.old) (O.taken out.new) (stop_status stop.now) (stop_line stop.now) result
        ⊎ Writes (O.taken out.old) (O.taken out.new) 5 (stop_line Stop.Memory) result }
    ensures status { result ≤ 6 }
    ensures only { result ≡ 4 → Rose (O.faults out.old) (O.faults out.new) }
    ensures always { O.faults out.old < O.faults out.new → result ≡ 4 }
{
    match stop_line(alloc, stop) {
        Ok(line) => close(out, stop_status(stop), &line),
        Err(_) => close(out, 5, OUT_OF_MEMORY),
    }
}

// Runs the tests, and writes what came of it.
fn serve<F: Files, P: Program, O: Sink>(
    alloc: Global,
    words: &[Text],
    files: &mut F,
    program: &P,
    out: &mut O,
) -> u8
    ensures status { result ≤ 6 }
    ensures tested { IsTested P.says (F.held files.old) words.now (F.failed files.old) (F.failed files.new) (O.taken out.old)
        (O.taken out.new) result }
    ensures only { result ≡ 4 → Rose (O.faults out.old) (O.faults out.new) }
    ensures always { O.faults out.old < O.faults out.new → result ≡ 4 }
    ensures same { F.held files.new ≡ F.held files.old }
{
    let Some(asked) = asked_of(words) else {
        return close(out, 2, USAGE);
    };
    match make_report(alloc, asked, files, program) {
        Ok(report) => tell_report(&report, out),
        Err(stop) => tell_stop(alloc, &stop, out),
    }
}

/// Runs the tests of the files that the words name, and answers the status that the program ends with: 0 where all passed, 1 where one
/// didn't, 2 where the words are none, 3 where a file can't be read, 4 where the sink failed, 5 where memory ran out, and 6 where a file
/// isn't one of tests, or has too many bytes.
pub fn serve_tests<F: Files, P: Program, O: Sink>(
    alloc: Global,
    words: &[Text],
    files: &mut F,
    program: &P,
    out: &mut O,
) -> u8
    ensures status { result ≤ 6 }

    // The words come to one end: they are none, a file stops them that they name or that is named in a file of tests, or the tests of all
    // files were run and the report is written.
    ensures tested { IsTested P.says (F.held files.old) words.now (F.failed files.old) (F.failed files.new) (O.taken out.old)
        (O.taken out.new) result }

    // 0 comes only where all of them passed, and 1 where one of them failed.
    ensures passed { result ≡ 0 → HasPassed P.says (F.held files.old) words.now }
    ensures failed { result ≡ 1 → HasFailed P.says (F.held files.old) words.now }

    // 0 and 1 come only where each file of tests was read that the words name, and beside it each file that one of its tests names.
    ensures read { result ≤ 1 → HasReadAll (F.held files.old) words.now }

    // 2 comes where the words are none, and always there, 4 apart.
    ensures two { result ≡ 2 → wish_of words.now ≡ None }
    ensures misused { wish_of words.now ≡ None → (result ≡ 2) ⊎ (result ≡ 4) }

    // 3 comes where the read failed of a file that is asked for, whose name was written, and always there, 4 and 5 apart.
    ensures three { result ≡ 3 → (name : List ℕ) × IsAsked (F.held files.old) words.now name
        × (F.failed files.new ≡ F.failed files.old ++ name ∷ [])
        × Appends (O.taken out.old) (O.taken out.new) (stop_line (Stop.CannotRead name)) }
    ensures unread { (F.failed files.new ≡ F.failed files.old)
        ⊎ ((name : List ℕ) × (F.failed files.new ≡ F.failed files.old ++ name ∷ [])
        × ((result ≡ 3) ⊎ (result ≡ 4) ⊎ (result ≡ 5))) }

    // 4 comes where the sink's count rose, and always there.
    ensures four { result ≡ 4 → Rose (O.faults out.old) (O.faults out.new) }
    ensures unwritten { O.faults out.old < O.faults out.new → result ≡ 4 }

    // 6 comes where a file that is asked for has more bytes than it may, or one that the words name isn't one of tests, and that was
    // written.
    ensures six { result ≡ 6 → (stop : Stop) × (6 ≡ stop_status stop)
        × StopsBy (F.held files.old) words.now (F.failed files.old) (F.failed files.new) stop
        × Appends (O.taken out.old) (O.taken out.new) (stop_line stop) }

    // What the files hold stays as it was.
    ensures files_held { F.held files.new ≡ F.held files.old }
{
    serve(alloc, words, files, program, out)
}
