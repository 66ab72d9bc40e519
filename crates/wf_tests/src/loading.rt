//! The reading of files, before any test runs.
ghost use Rattle.std.specs.Prelude.{◌≡◌, ◌≤◌, ◌++◌, Contains, Err, IfErr, IfOk, IfSome, Ok, List, ℕ, option_map};
ghost use Rattle.wf_json.specs.Json.{string};
ghost use Rattle.wf_tests.specs.Asked.{AnyAsks, FileAsks, IsNamed, SuiteNames, TellsOf, TestNames};
ghost use Rattle.wf_tests.specs.Loaded.{AreLoaded, AreSources, HasRead, IsLoaded, Stopped};
ghost use Rattle.wf_tests.specs.Named.{file_of, inputs_file, schedule_file};
ghost use Rattle.wf_tests.specs.Names.{beside};
ghost use Rattle.wf_tests.specs.Reading.{json_words, suite_in, suite_words};
ghost use Rattle.wf_tests.specs.Command.{IsReady};
ghost use Rattle.wf_tests.specs.Sources.{IsThere, Keeps, source_named};
ghost use Rattle.wf_tests.specs.Whole.{IsWhole};
ghost use Rattle.wf_tests.specs.declared.stop.Stop.TheVariants.{Memory};

use crate::loaded::Loaded;
use crate::names::beside;
use crate::sources::Sources;
use crate::stop::Stop;
use std::alloc::{AllocError, Global};
use wf_json::JsonFault;
use wf_outside::{FileFault, Files};
use wf_suite::{Given, Kind, Suite, SuiteFault, Test};
use wf_val::Text;

/// The greatest length of a file of tests or of a definition, in bytes: 4 MiB.
const SHORT: u64 = 4_194_304;

/// The greatest length of a file of inputs or of a schedule, in bytes: 64 MiB.
const LONG: u64 = 67_108_864;

// A word, and a text behind it as a JSON text.
fn with_text(alloc: Global, word: &str, text: &Text) -> Result<Text, AllocError>
    ensures { IfOk result (λ t. t ≡ word.now ++ string text.now) }
{
    let quoted = wf_json::quoted(alloc, text.as_str())?;
    let quoted = quoted.as_str();
    Ok(Text::from_string(format!(in alloc; "{word}{quoted}")?))
}

fn json_words(alloc: Global, fault: JsonFault) -> Result<Text, AllocError>
    ensures { IfOk result (λ t. t ≡ json_words fault) }
{
    match fault {
        JsonFault::NotJson => Text::of(alloc, "NotJson"),
        JsonFault::NotWhole { pointer } => with_text(alloc, "NotWhole ", &pointer),
        JsonFault::TooDeep { pointer } => with_text(alloc, "TooDeep ", &pointer),
        JsonFault::Memory => Text::of(alloc, ""),
    }
}

fn suite_words(alloc: Global, fault: SuiteFault) -> Result<Text, AllocError>
    ensures { IfOk result (λ t. t ≡ suite_words fault) }
{
    match fault {
        SuiteFault::Form { pointer } => with_text(alloc, "Form ", &pointer),
        SuiteFault::Twice { name } => with_text(alloc, "Twice ", &name),
        SuiteFault::NoTest { name } => with_text(alloc, "NoTest ", &name),
        SuiteFault::Memory => Text::of(alloc, ""),
    }
}

// The tests that the bytes of a file are, or in words why they are none.
fn suite_in(alloc: Global, bytes: &[u8]) -> Result<Result<Suite, Text>, AllocError>
    ensures { IfOk result (λ found. suite_in bytes.now ≡ found) }
{
    let value = match wf_json::read(alloc, bytes) {
        Ok(value) => value,
        Err(JsonFault::Memory) => return Err(AllocError),
        Err(fault) => return Ok(Err(json_words(alloc, fault)?)),
    };
    match Suite::read(alloc, &value) {
        Ok(suite) => Ok(Ok(suite)),
        Err(SuiteFault::Memory) => Err(AllocError),
        Err(fault) => Ok(Err(suite_words(alloc, fault)?)),
    }
}

// The bytes of a file that has at most so many.
fn read<F: Files>(alloc: Global, files: &mut F, name: &Text, limit: u64) -> Result<Vec<u8>, Stop>
    requires { 4194304 ≤ limit }
    ensures bytes { IfOk result (λ bytes. HasRead (F.held files.old) name.now bytes.items × (F.failed files.new ≡ F.failed files.old)) }
    ensures stop { IfErr result (λ stop. Stopped (F.held files.old) (F.failed files.old) (F.failed files.new) stop) }
    ensures told { IfErr result (λ stop. TellsOf (λ path. path ≡ name.now) (λ _. ⊥) stop) }
    ensures same { F.held files.new ≡ F.held files.old }
{
    match files.read(name, limit) {
        Ok(bytes) => Ok(bytes),
        Err(FileFault::TooLong) => Err(Stop::TooLong(name.copy(alloc)?)),
        Err(FileFault::Failed) => Err(Stop::CannotRead(name.copy(alloc)?)),
        Err(FileFault::Memory) => Err(Stop::Memory),
    }
}

// With the file of a name beside the file of tests, unless it is there.
fn with_named<F: Files>(
    alloc: Global,
    files: &mut F,
    file: &Text,
    name: &Text,
    limit: u64,
    sources: Sources,
) -> Result<Sources, Stop>
    requires long { 4194304 ≤ limit }
    requires read { AreSources (F.held files.old) file.now sources }
    ensures sources { IfOk result (λ s. AreSources (F.held files.old) file.now s × (F.failed files.new ≡ F.failed files.old)) }
    ensures there { IfOk result (λ s. IsThere s name.now) }
    ensures keeps { IfOk result (λ s. Keeps sources s) }
    ensures stop { IfErr result (λ stop. Stopped (F.held files.old) (F.failed files.old) (F.failed files.new) stop) }
    ensures told { IfErr result (λ stop. TellsOf (λ path. path ≡ beside file.now name.now) (λ _. ⊥) stop) }
    ensures same { F.held files.new ≡ F.held files.old }
{
    if sources.get(name).is_some() {
        return Ok(sources);
    }
    let path = beside(alloc, file, name)?;
    let bytes = read(alloc, files, &path, limit)?;
    Ok(sources.with(alloc, name, bytes)?)
}

// With the file of a name, if there is one.
fn with_any<F: Files>(
    alloc: Global,
    files: &mut F,
    file: &Text,
    name: Option<&Text>,
    sources: Sources,
) -> Result<Sources, Stop>
    requires { AreSources (F.held files.old) file.now sources }
    ensures sources { IfOk result (λ s. AreSources (F.held files.old) file.now s × (F.failed files.new ≡ F.failed files.old)) }
    ensures there { IfOk result (λ s. IfSome (option_map (λ n. n.now) name.entry) (λ n. IsThere s n)) }
    ensures keeps { IfOk result (λ s. Keeps sources s) }
    ensures stop { IfErr result (λ stop. Stopped (F.held files.old) (F.failed files.old) (F.failed files.new) stop) }
    ensures told { IfErr result (λ stop. TellsOf (IsNamed file.now (option_map (λ n. n.now) name.entry)) (λ _. ⊥) stop) }
    ensures same { F.held files.new ≡ F.held files.old }
{
    match name {
        Some(name) => with_named(alloc, files, file, name, LONG, sources),
        None => Ok(sources),
    }
}

fn file_of(given: &Given) -> Option<&Text>
    ensures { option_map (λ n. n.now) result ≡ file_of given.now }
{
    match given {
        Given::File(name) => Some(name),
        Given::Itself(_) => None,
    }
}

fn inputs_file(kind: &Kind) -> Option<&Text>
    ensures { option_map (λ n. n.now) result ≡ inputs_file kind.now }
{
    match kind {
        Kind::Check => None,
        Kind::Run { inputs, .. } => file_of(inputs),
        Kind::Again { inputs, .. } => file_of(inputs),
    }
}

fn schedule_file(kind: &Kind) -> Option<&Text>
    ensures { option_map (λ n. n.now) result ≡ schedule_file kind.now }
{
    match kind {
        Kind::Check => None,
        Kind::Run { schedule, .. } => schedule.as_ref(),
        Kind::Again { schedule, .. } => schedule.as_ref(),
    }
}

// With the files that a test names.
fn with_test<F: Files>(
    alloc: Global,
    files: &mut F,
    file: &Text,
    test: &Test,
    sources: Sources,
) -> Result<Sources, Stop>
    requires { AreSources (F.held files.old) file.now sources }
    ensures sources { IfOk result (λ s. AreSources (F.held files.old) file.now s × (F.failed files.new ≡ F.failed files.old)) }
    ensures ready { IfOk result (λ s. IsReady s test.now.kind) }
    ensures keeps { IfOk result (λ s. Keeps sources s) }
    ensures stop { IfErr result (λ stop. Stopped (F.held files.old) (F.failed files.old) (F.failed files.new) stop) }
    ensures told { IfErr result (λ stop. TellsOf (TestNames file.now test.now) (λ _. ⊥) stop) }
    ensures same { F.held files.new ≡ F.held files.old }
{
    let sources = with_any(alloc, files, file, inputs_file(&test.kind), sources)?;
    with_any(alloc, files, file, schedule_file(&test.kind), sources)
}

// The files that all tests of a file name.
fn sources_of<F: Files>(
    alloc: Global,
    files: &mut F,
    file: &Text,
    suite: &Suite,
) -> Result<Sources, Stop>
    ensures sources { IfOk result (λ s. AreSources (F.held files.old) file.now s × (F.failed files.new ≡ F.failed files.old)) }
    ensures whole { IfOk result (λ s. IsWhole suite.now s) }
    ensures stop { IfErr result (λ stop. Stopped (F.held files.old) (F.failed files.old) (F.failed files.new) stop) }
    ensures told { IfErr result (λ stop. TellsOf (SuiteNames file.now suite.now) (λ _. ⊥) stop) }
    ensures same { F.held files.new ≡ F.held files.old }
{
    let none = Sources::new(alloc);
    let mut sources = with_named(alloc, files, file, &suite.definition, SHORT, none)?;
    for test in suite.tests.as_slice() {
        sources = with_test(alloc, files, file, test, sources)?;
    }
    Ok(sources)
}

// The tests of a file.
fn suite_of<F: Files>(alloc: Global, files: &mut F, file: &Text) -> Result<Suite, Stop>
    ensures suite { IfOk result (λ suite. ((bytes : List ℕ) × HasRead (F.held files.old) file.now bytes × (suite_in bytes ≡ Ok suite))
        × (F.failed files.new ≡ F.failed files.old)) }
    ensures stop { IfErr result (λ stop. Stopped (F.held files.old) (F.failed files.old) (F.failed files.new) stop) }
    ensures told { IfErr result (λ stop. TellsOf (λ path. path ≡ file.now) (λ path. path ≡ file.now) stop) }
    ensures same { F.held files.new ≡ F.held files.old }
{
    let bytes = read(alloc, files, file, SHORT)?;
    match suite_in(alloc, &bytes)? {
        Ok(suite) => Ok(suite),
        Err(words) => Err(Stop::NoTests {
            file: file.copy(alloc)?,
            words,
        }),
    }
}

// A file of tests, and the files that it names.
fn load<F: Files>(alloc: Global, files: &mut F, file: &Text) -> Result<Loaded, Stop>
    ensures loaded { IfOk result (λ loaded. IsLoaded (F.held files.old) file.now loaded × (F.failed files.new ≡ F.failed files.old)) }
    ensures stop { IfErr result (λ stop. Stopped (F.held files.old) (F.failed files.old) (F.failed files.new) stop) }
    ensures told { IfErr result (λ stop. TellsOf (FileAsks (F.held files.old) file.now) (λ path. path ≡ file.now) stop) }
    ensures same { F.held files.new ≡ F.held files.old }
{
    let suite = suite_of(alloc, files, file)?;
    let sources = sources_of(alloc, files, file, &suite)?;
    Ok(Loaded {
        file: file.copy(alloc)?,
        suite,
        sources,
    })
}

/// Files of tests, one after the other, and the files that they name.
#[tactic(auto, using(crate::proofs::LoadLemmas::loaded_more))]
pub(crate) fn load_all<F: Files>(
    alloc: Global,
    files: &mut F,
    names: &[Text],
) -> Result<Vec<Loaded>, Stop>
    ensures loaded { IfOk result (λ all. AreLoaded (F.held files.old) names.now all.items × (F.failed files.new ≡ F.failed files.old)) }
    ensures stop { IfErr result (λ stop. Stopped (F.held files.old) (F.failed files.old) (F.failed files.new) stop) }
    ensures told { IfErr result (λ stop. TellsOf (AnyAsks (F.held files.old) names.now) (Contains names.now) stop) }
    ensures same { F.held files.new ≡ F.held files.old }
{
    let mut all = Vec::new(alloc);
    for name in names {
        all.push(load(alloc, files, name)?)?;
    }
    Ok(all)
}
