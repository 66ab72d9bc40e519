//! The command of a test, and the files that it is handed.
ghost use Rattle.std.specs.Prelude.{◌≡◌, ◌≢◌, ◌∷◌, ◌++◌, [], Some, None, IfOk, OnOk};
ghost use Rattle.wf_tests.specs.Command.{IsOfATest, again_words, check_words, history_of, inputs_in, inputs_of, run_words, schedule_in};
ghost use Rattle.wf_tests.specs.Command.{schedule_of, words_of};
ghost use Rattle.wf_tests.specs.Sources.{IsThere, source_named};

use crate::sources::Sources;
use std::alloc::{AllocError, Global};
use wf_judged::{Ended, first_run};
use wf_suite::{Given, Kind, Names};
use wf_val::Text;

/// The history that a test's command is handed: what the test wrote that it resubmits.
pub(crate) fn history_of<'a>(kind: &Kind, ends: &'a [Ended]) -> &'a [u8]
    ensures { result.now ≡ history_of kind.now ends.now }
{
    match kind {
        Kind::Again { of, .. } => match ends.get(*of as usize) {
            Some(ended) => &ended.text,
            None => &[],
        },
        _ => &[],
    }
}

// The bytes that a name has, which were read before any test runs.
fn named(alloc: Global, sources: &Sources, name: &Text) -> Result<Vec<u8>, AllocError>
    requires { IsThere sources.now name.now }
    ensures { IfOk result (λ bytes. source_named sources.now name.now ≡ Some bytes.items) }
{
    sources.get(name).unwrap().to_vec(alloc)
}

fn inputs_in(alloc: Global, sources: &Sources, given: &Given) -> Result<Vec<u8>, AllocError>
    requires { inputs_in sources.now given.now ≢ None }
    ensures { IfOk result (λ bytes. inputs_in sources.now given.now ≡ Some bytes.items) }
{
    match given {
        Given::File(name) => named(alloc, sources, name),
        Given::Itself(fields) => {
            let mut bytes = Vec::new(alloc);
            wf_json::write_fields_to(&mut bytes, fields)?;
            Ok(bytes)
        }
    }
}

/// The inputs that a test's command is handed; a check has none.
pub(crate) fn inputs_of(
    alloc: Global,
    sources: &Sources,
    kind: &Kind,
) -> Result<Vec<u8>, AllocError>
    requires { inputs_of sources.now kind.now ≢ None }
    ensures { IfOk result (λ bytes. inputs_of sources.now kind.now ≡ Some bytes.items) }
{
    match kind {
        Kind::Check => Ok(Vec::new(alloc)),
        Kind::Run { inputs, .. } => inputs_in(alloc, sources, inputs),
        Kind::Again { inputs, .. } => inputs_in(alloc, sources, inputs),
    }
}

fn schedule_in(alloc: Global, sources: &Sources, name: &Option<Text>) -> Result<Vec<u8>, AllocError>
    requires { schedule_in sources.now name.now ≢ None }
    ensures { IfOk result (λ bytes. schedule_in sources.now name.now ≡ Some bytes.items) }
{
    match name {
        Some(name) => named(alloc, sources, name),
        None => Ok(Vec::new(alloc)),
    }
}

/// The schedule that a test's command is handed; where none is named it is the empty one.
pub(crate) fn schedule_of(
    alloc: Global,
    sources: &Sources,
    kind: &Kind,
) -> Result<Vec<u8>, AllocError>
    requires { schedule_of sources.now kind.now ≢ None }
    ensures { IfOk result (λ bytes. schedule_of sources.now kind.now ≡ Some bytes.items) }
{
    match kind {
        Kind::Check => Ok(Vec::new(alloc)),
        Kind::Run { schedule, .. } => schedule_in(alloc, sources, schedule),
        Kind::Again { schedule, .. } => schedule_in(alloc, sources, schedule),
    }
}

fn push(alloc: Global, words: &mut Vec<Text>, word: &str) -> Result<(), AllocError>
    ensures { OnOk result (words.new.items ≡ words.old.items ++ word.now ∷ []) }
{
    words.push(Text::of(alloc, word)?)?;
    Ok(())
}

fn check_words(alloc: Global) -> Result<Vec<Text>, AllocError>
    ensures { IfOk result (λ words. words.items ≡ check_words) }
{
    let mut words = Vec::new(alloc);
    push(alloc, &mut words, "check")?;
    push(alloc, &mut words, "definition")?;
    Ok(words)
}

fn run_words(alloc: Global) -> Result<Vec<Text>, AllocError>
    ensures { IfOk result (λ words. words.items ≡ run_words) }
{
    let mut words = Vec::new(alloc);
    push(alloc, &mut words, "run")?;
    push(alloc, &mut words, "definition")?;
    push(alloc, &mut words, "inputs")?;
    push(alloc, &mut words, "schedule")?;
    Ok(words)
}

fn again_words(alloc: Global, run: &Text, from: &Names) -> Result<Vec<Text>, AllocError>
    ensures { IfOk result (λ words. words.items ≡ again_words run.now from.now) }
{
    let mut words = Vec::new(alloc);
    push(alloc, &mut words, "resubmit-set")?;
    push(alloc, &mut words, "definition")?;
    push(alloc, &mut words, "history")?;
    push(alloc, &mut words, run.as_str())?;
    push(alloc, &mut words, "inputs")?;
    push(alloc, &mut words, "schedule")?;
    for name in from.as_slice() {
        push(alloc, &mut words, name.as_str())?;
    }
    Ok(words)
}

/// The words of a test's command; a resubmission is of the first run of its history.
pub(crate) fn words_of(alloc: Global, kind: &Kind, history: &[u8]) -> Result<Vec<Text>, AllocError>
    ensures words { IfOk result (λ words. words.items ≡ words_of kind.now history.now) }
    ensures of_a_test { IfOk result (λ words. IsOfATest words.items) }
{
    match kind {
        Kind::Check => check_words(alloc),
        Kind::Run { .. } => run_words(alloc),
        Kind::Again { from, .. } => {
            let run = first_run(alloc, history)?;
            again_words(alloc, &run, from)
        }
    }
}
