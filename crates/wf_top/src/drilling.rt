// The command that makes a run of a size: it reads no file.
ghost use Rattle.std.specs.Prelude.{◌≡◌, ◌≢◌, ◌≤◌, IfOk, IfErr, Ok, Err};
ghost use Rattle.wf_answers.specs.InputsSeen.{inputs_tree};
ghost use Rattle.wf_drill.specs.Drill.{drill_definition, drill_inputs};
ghost use Rattle.wf_drill.specs.Seen.{IsDrill};
ghost use Rattle.wf_files.specs.Form.{definition_of, inputs_of};
ghost use Rattle.wf_outside.specs.Outside.{Held};
ghost use Rattle.wf_reading.specs.ReadSeen.{def_tree};
ghost use Rattle.wf_told.specs.Measured.{StartsAlone};
ghost use Rattle.wf_told.specs.Records.{runs_records};
ghost use Rattle.wf_top.specs.Drill.{drilled, drilled_by, drilled_with};
ghost use Rattle.wf_top.specs.Drilling.{MayTellDrill, drill_line, figures_words, peaks_words};
ghost use Rattle.wf_top.specs.Measures.{AreMeasured};
ghost use Rattle.wf_top.specs.Plan.{MaySay};

use crate::load::Stop;
use crate::runs::say_runs_fault;
use crate::said::{Said, Verdict, say_fault};
use std::alloc::{AllocError, Global};
use wf_answers::Inputs;
use wf_drill::{Drill, make};
use wf_files::{Checked, definition_in, inputs_in};
use wf_told::{Engine, Measure, RunsFault};

/// How the run of a drill went under each of its schedules.
#[derive(Clone, Copy)]
pub struct Measures {
    pub plain: Measure,
    pub second: Measure,
    pub third: Measure,
}

// The figures that are the same under every schedule.
#[tactic(auto, unfolding(crate::specs::Drilling::figures_words))]
fn figures_words(alloc: Global, size: u32, measure: Measure) -> Result<Vec<u8>, AllocError>
    ensures { IfOk result (λ words. words.items ≡ figures_words size measure) }
{
    let rows = measure.rows;
    let steps = measure.steps;
    Ok(format!(in alloc; "drill {size} rows {rows} steps {steps}")?.into_bytes())
}

// And the peaks.
#[tactic(auto, unfolding(crate::specs::Drilling::peaks_words))]
fn peaks_words(alloc: Global, first: u64, second: u64, third: u64) -> Result<Vec<u8>, AllocError>
    ensures { IfOk result (λ words. words.items ≡ peaks_words first second third) }
{
    Ok(format!(in alloc; " peak {first} {second} {third}")?.into_bytes())
}

// The line of a drill.
#[tactic(auto, unfolding(crate::specs::Drilling::drill_line))]
fn drill_line(alloc: Global, size: u32, measures: &Measures) -> Result<Vec<u8>, AllocError>
    ensures { IfOk result (λ line. line.items ≡ drill_line size measures.now.plain measures.now.second.peak measures.now.third.peak) }
{
    let first = measures.plain.peak;
    let second = measures.second.peak;
    let third = measures.third.peak;
    let mut line = figures_words(alloc, size, measures.plain)?;
    line.extend_from_slice(&peaks_words(alloc, first, second, third)?)?;
    line.extend_from_slice(b" status ")?;
    line.extend_from_slice(measures.plain.status.name().as_bytes())?;
    line.push(b'\n')?;
    Ok(line)
}

// How its run goes under each of its schedules.
fn measured<E: Engine>(
    alloc: Global,
    engine: &E,
    drill: &Drill,
    checked: &Checked,
    inputs: &Inputs,
) -> Result<Measures, RunsFault>
    requires { StartsAlone (def_tree checked.now.def) (inputs_tree inputs.now) }
    ensures measured { IfOk result (λ m. AreMeasured (def_tree checked.now.def) (inputs_tree inputs.now) drill.now.plain drill.now.forward
        drill.now.leaping m) }
    ensures fault { IfErr result (λ f. f ≢ RunsFault.Memory
        → runs_records (def_tree checked.now.def) (inputs_tree inputs.now) ≡ Err f) }
{
    let plain = engine.measure(alloc, checked, inputs, &drill.plain)?;
    let second = engine.measure(alloc, checked, inputs, &drill.forward)?;
    let third = engine.measure(alloc, checked, inputs, &drill.leaping)?;
    Ok(Measures {
        plain,
        second,
        third,
    })
}

// Says how they went.
fn say_drill<E: Engine>(
    alloc: Global,
    engine: &E,
    size: u32,
    drill: &Drill,
    checked: &Checked,
    inputs: &Inputs,
) -> Result<Said, Stop>
    requires drill { IsDrill size drill.now }
    requires accepted { definition_of (drill_definition size) ≡ Ok (def_tree checked.now.def) }
    requires read { inputs_of (drill_inputs size) ≡ Ok (inputs_tree inputs.now) }
    ensures said { IfOk result (λ said. MayTellDrill size (def_tree checked.now.def) (inputs_tree inputs.now) said.verdict
        said.text.items) }
    ensures stopped { IfErr result (λ stop. stop ≡ Stop.Memory) }
{
    match measured(alloc, engine, drill, checked, inputs) {
        Ok(measures) => Ok(Said {
            verdict: Verdict::Done,
            text: drill_line(alloc, size, &measures)?,
        }),
        Err(fault) => say_runs_fault(alloc, fault),
    }
}

// Judges its inputs, as those of a file are.
fn drilled_with<E: Engine>(
    alloc: Global,
    engine: &E,
    size: u32,
    drill: &Drill,
    checked: &Checked,
) -> Result<Said, Stop>
    requires drill { IsDrill size drill.now }
    requires accepted { definition_of (drill_definition size) ≡ Ok (def_tree checked.now.def) }
    ensures said { IfOk result (λ said. (held : Held) → MaySay held (drilled_with size (def_tree checked.now.def)
        (inputs_of (drill_inputs size))) said.verdict said.text.items) }
    ensures stopped { IfErr result (λ stop. stop ≡ Stop.Memory) }
{
    match inputs_in(alloc, &drill.inputs) {
        Err(fault) => say_fault(alloc, Verdict::Inputs, b"inputs ", fault),
        Ok(inputs) => say_drill(alloc, engine, size, drill, checked, &inputs),
    }
}

// Judges its definition, and does the rest.
fn drilled_by<E: Engine>(alloc: Global, engine: &E, size: u32, drill: &Drill) -> Result<Said, Stop>
    requires { IsDrill size drill.now }
    ensures said { IfOk result (λ said. (held : Held) → MaySay held (drilled size) said.verdict said.text.items) }
    ensures stopped { IfErr result (λ stop. stop ≡ Stop.Memory) }
{
    match definition_in(alloc, &drill.definition) {
        Err(fault) => say_fault(alloc, Verdict::Definition, b"definition ", fault),
        Ok(checked) => drilled_with(alloc, engine, size, drill, &checked),
    }
}

/// Makes the run of the drill of a size under each of its schedules, and says how they went.
pub fn drilled<E: Engine>(alloc: Global, engine: &E, size: u32) -> Result<Said, Stop>
    requires { size ≤ 400 }
    ensures said { IfOk result (λ said. (held : Held) → MaySay held (drilled size) said.verdict said.text.items) }
    ensures stopped { IfErr result (λ stop. stop ≡ Stop.Memory) }
{
    let drill = make(alloc, size)?;
    drilled_by(alloc, engine, size, &drill)
}
