// The commands that make runs: each function follows the plan of its name, and reads at most one file.
ghost use Rattle.std.specs.Prelude.{◌≡◌, ◌≢◌, IfOk, IfErr, Some, option_copied};
ghost use Rattle.wf_answers.specs.InputsSeen.{inputs_tree};
ghost use Rattle.wf_reading.specs.ReadSeen.{def_tree};
ghost use Rattle.wf_top.specs.Commands.{run, scheduled};
ghost use Rattle.wf_top.specs.Served.{Follows};
ghost use Rattle.wf_top.specs.Told.{MayTell, SaysFault};

use crate::load::{Stop, load};
use crate::said::{Said, TOO_LARGE, Verdict, say_fault};
use crate::trigger::trigger_line;
use crate::{INPUTS_LIMIT, SCHEDULE_LIMIT};
use std::alloc::Global;
use wf_answers::Inputs;
use wf_files::{Checked, inputs_form, schedule_form};
use wf_outside::Files;
use wf_told::{Engine, RunsFault};
use wf_val::{Schedule, Text};

/// Why runs weren't made.
pub fn say_runs_fault(alloc: Global, fault: RunsFault) -> Result<Said, Stop>
    ensures said { IfOk result (λ said. (fault ≢ RunsFault.Memory) × SaysFault fault said.verdict said.text.items) }
    ensures stopped { IfErr result (λ stop. stop ≡ Stop.Memory) }
{
    match fault {
        RunsFault::Trigger { fault } => Ok(Said {
            verdict: Verdict::Inputs,
            text: trigger_line(alloc, fault)?,
        }),
        RunsFault::TooLarge => Ok(Said {
            verdict: Verdict::TooLarge,
            text: TOO_LARGE.to_vec(alloc)?,
        }),
        RunsFault::Memory => Err(Stop::Memory),
    }
}

// Makes the runs that inputs start, each under a schedule, and gives the events of each where it is traced.
fn say_runs<E: Engine>(
    alloc: Global,
    engine: &E,
    traced: bool,
    checked: &Checked,
    inputs: &Inputs,
    schedule: &Schedule,
) -> Result<Said, Stop>
    ensures said { IfOk result (λ said. MayTell traced (def_tree checked.now.def) (inputs_tree inputs.now) schedule.now
        said.verdict said.text.items) }
    ensures stopped { IfErr result (λ stop. stop ≡ Stop.Memory) }
{
    match engine.runs_text(alloc, checked, inputs, schedule, traced) {
        Ok(text) => Ok(Said {
            verdict: Verdict::Done,
            text,
        }),
        Err(fault) => say_runs_fault(alloc, fault),
    }
}

// Makes the runs under the schedule of a file.
fn run_under<F: Files, E: Engine>(
    alloc: Global,
    files: &mut F,
    engine: &E,
    traced: bool,
    schedule: &Text,
    checked: &Checked,
    inputs: &Inputs,
) -> Result<Said, Stop>
    ensures follows { Follows (F.held files.old) (scheduled traced (Some schedule.now) (def_tree checked.now.def) (inputs_tree inputs.now))
        (F.failed files.old) (F.failed files.new) result }
    ensures same { F.held files.new ≡ F.held files.old }
{
    let file = load(alloc, files, schedule, SCHEDULE_LIMIT)?;
    match schedule_form(alloc, file) {
        Err(fault) => say_fault(alloc, Verdict::Inputs, b"schedule ", fault),
        Ok(schedule) => say_runs(alloc, engine, traced, checked, inputs, &schedule),
    }
}

// Makes the runs under the schedule of a file, or under the empty one where no file is named.
fn scheduled<F: Files, E: Engine>(
    alloc: Global,
    files: &mut F,
    engine: &E,
    traced: bool,
    schedule: Option<&Text>,
    checked: &Checked,
    inputs: &Inputs,
) -> Result<Said, Stop>
    ensures follows { Follows (F.held files.old) (scheduled traced (option_copied schedule.entry) (def_tree checked.now.def)
        (inputs_tree inputs.now)) (F.failed files.old) (F.failed files.new) result }
    ensures same { F.held files.new ≡ F.held files.old }
{
    match schedule {
        Some(schedule) => run_under(alloc, files, engine, traced, schedule, checked, inputs),
        None => say_runs(
            alloc,
            engine,
            traced,
            checked,
            inputs,
            &Schedule::new(alloc),
        ),
    }
}

/// Runs an accepted definition with the inputs of a file, under the schedule of another where one is named.
pub fn run<F: Files, E: Engine>(
    alloc: Global,
    files: &mut F,
    engine: &E,
    traced: bool,
    inputs: &Text,
    schedule: Option<&Text>,
    checked: &Checked,
) -> Result<Said, Stop>
    ensures follows { Follows (F.held files.old) (run traced inputs.now (option_copied schedule.entry) (def_tree checked.now.def))
        (F.failed files.old) (F.failed files.new) result }
    ensures same { F.held files.new ≡ F.held files.old }
{
    let file = load(alloc, files, inputs, INPUTS_LIMIT)?;
    match inputs_form(alloc, file) {
        Err(fault) => say_fault(alloc, Verdict::Inputs, b"inputs ", fault),
        Ok(inputs) => scheduled(alloc, files, engine, traced, schedule, checked, &inputs),
    }
}
