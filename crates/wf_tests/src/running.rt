//! The running of tests.
ghost use Rattle.std.specs.Prelude.{◌≡◌, ◌≤◌, ◌<◌, List, ℕ, [], IfOk, length, map, Some};
ghost use Rattle.wf_judged.specs.Failures.{failures_of};
ghost use Rattle.wf_judged.specs.Why.{why};
ghost use Rattle.wf_judged.specs.declared.lines.Ended.{Ended};
ghost use Rattle.wf_tests.specs.Command.{IsOfATest, IsReady, further_of, handed, history_of, seed_of, words_of};
ghost use Rattle.wf_tests.specs.Runs.{AreRun, Came, CameUnder, IsRun};
ghost use Rattle.wf_tests.specs.Sources.{IsThere, source_named};
ghost use Rattle.wf_tests.specs.Whole.{IsWhole};

use crate::command::{history_of, inputs_of, schedule_of, words_of};
use crate::handed::{Handed, files_of};
use crate::program::Program;
use crate::schedules::further_schedule;
use crate::sources::Sources;
use std::alloc::{AllocError, Global};
use wf_judged::{Ended, outcome};
use wf_lists::Series;
use wf_suite::{Kind, Suite, Test};
use wf_tap::Outcome;
use wf_val::Text;

// How words end over the files that are handed, under a schedule.
fn came<P: Program>(
    alloc: Global,
    program: &P,
    words: &[Text],
    given: Handed<'_>,
    schedule: &[u8],
) -> Result<Ended, AllocError>
    requires { IsOfATest words.now }
    ensures { IfOk result (λ ended. Came P.says words.now
        (handed given.entry.definition.now given.entry.history.now given.entry.inputs.now schedule.now) ended) }
{
    let mut files = files_of(alloc, given, schedule)?;
    program.end_of(alloc, words, &mut files)
}

fn further_of(kind: &Kind) -> u64
    ensures { result ≡ further_of kind.now }
{
    match kind {
        Kind::Run { further, .. } => *further,
        _ => 0,
    }
}

fn seed_of(kind: &Kind) -> u64
    ensures { result ≡ seed_of kind.now }
{
    match kind {
        Kind::Run { seed, .. } => *seed,
        _ => 0,
    }
}

// How they end under further schedules.
fn came_under<P: Program>(
    alloc: Global,
    program: &P,
    words: &[Text],
    given: Handed<'_>,
    kind: &Kind,
) -> Result<Vec<Ended>, AllocError>
    requires { IsOfATest words.now }
    ensures came { IfOk result (λ others. CameUnder P.says words.now
        (handed given.entry.definition.now given.entry.history.now given.entry.inputs.now) (seed_of kind.now) 0 others.items) }
    ensures all { IfOk result (λ others. length others.items ≡ further_of kind.now) }
{
    let mut others = Vec::new(alloc);
    for place in 0..further_of(kind) {
        let schedule = further_schedule(alloc, seed_of(kind), place)?;
        others.push(came(alloc, program, words, given, &schedule)?)?;
    }
    Ok(others)
}

/// How a test's command ended, and what the test came to by that.
#[derive(Drop)]
pub(crate) struct Ran {
    pub(crate) ended: Ended,
    pub(crate) outcome: Outcome,
}

fn run_test<P: Program>(
    alloc: Global,
    program: &P,
    sources: &Sources,
    definition: &Text,
    ends: &[Ended],
    test: &Test,
) -> Result<Ran, AllocError>
    requires definition { IsThere sources.now definition.now }
    requires ready { IsReady sources.now test.now.kind }
    ensures { IfOk result (λ ran. IsRun P.says sources.now definition.now ends.now test.now ran.ended ran.outcome) }
{
    let text = sources.get(definition).unwrap();
    let history = history_of(&test.kind, ends);
    let inputs = inputs_of(alloc, sources, &test.kind)?;
    let schedule = schedule_of(alloc, sources, &test.kind)?;
    let words = words_of(alloc, &test.kind, history)?;
    let given = Handed {
        definition: text,
        history,
        inputs: &inputs,
    };
    let ended = came(alloc, program, &words, given, &schedule)?;
    let others = came_under(alloc, program, &words, given, &test.kind)?;
    let outcome = outcome(alloc, test, &ended, &others)?;
    Ok(Ran { ended, outcome })
}

/// What the tests of a file came to, each run in its turn.
#[tactic(auto, using(crate::proofs::RunLemmas::run_more))]
pub(crate) fn run_tests<P: Program>(
    alloc: Global,
    program: &P,
    sources: &Sources,
    suite: &Suite,
) -> Result<Series<Outcome>, AllocError>
    requires { IsWhole suite.now sources.now }
    ensures { IfOk result (λ outcomes. (ends : List Ended)
        × AreRun P.says sources.now suite.now.definition [] suite.now.tests ends outcomes) }
{
    let mut ends: Vec<Ended> = Vec::new(alloc);
    let mut outcomes = Series::new(alloc);
    for test in suite.tests.as_slice() {
        let Ran { ended, outcome } = run_test(
            alloc,
            program,
            sources,
            &suite.definition,
            &ends,
            test,
        )?;
        ends.push(ended)?;
        outcomes.push(outcome)?;
    }
    Ok(outcomes)
}
