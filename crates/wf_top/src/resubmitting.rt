// The commands that resubmit a run: each function follows the plan of its name, and reads at most one file.
ghost use Rattle.std.specs.Prelude.{◌≡◌, ◌≢◌, IfOk, IfErr, Some};
ghost use Rattle.wf_answers.specs.InputsSeen.{inputs_tree};
ghost use Rattle.wf_files.specs.Seen.{found_tree};
ghost use Rattle.wf_outside.specs.Outside.{Held};
ghost use Rattle.wf_reading.specs.ReadSeen.{def_tree};
ghost use Rattle.wf_record.specs.Seen.{record_tree};
ghost use Rattle.wf_top.specs.Plan.{MaySay};
ghost use Rattle.wf_top.specs.Resubmit.{remade, remade_under, remade_with, resubmit};
ghost use Rattle.wf_top.specs.Seen.{asked_tree};
ghost use Rattle.wf_top.specs.Served.{Follows};
ghost use Rattle.wf_top.specs.Told.{MayTellAgain, SaysRefusal};

use crate::load::{Stop, load};
use crate::refusal::{find_line, refusal_line};
use crate::said::{Said, TOO_LARGE, Verdict, say_fault};
use crate::words::Asked;
use crate::{HISTORY_LIMIT, INPUTS_LIMIT, SCHEDULE_LIMIT};
use std::alloc::Global;
use wf_answers::Inputs;
use wf_files::{Checked, FindFault, history_form, inputs_form, schedule_form};
use wf_outside::Files;
use wf_record::Record;
use wf_told::{Engine, ResubmissionFault};
use wf_val::{Schedule, Text};

// Why a record wasn't resubmitted.
fn say_refusal(alloc: Global, fault: ResubmissionFault) -> Result<Said, Stop>
    ensures said { IfOk result (λ said. (fault ≢ ResubmissionFault.Memory) × SaysRefusal fault said.verdict said.text.items) }
    ensures stopped { IfErr result (λ stop. stop ≡ Stop.Memory) }
{
    match fault {
        ResubmissionFault::Refused { fault } => Ok(Said {
            verdict: Verdict::History,
            text: refusal_line(alloc, fault)?,
        }),
        ResubmissionFault::TooLarge => Ok(Said {
            verdict: Verdict::TooLarge,
            text: TOO_LARGE.to_vec(alloc)?,
        }),
        ResubmissionFault::Memory => Err(Stop::Memory),
    }
}

// Resubmits a record from the actions of these names.
fn say_again<E: Engine>(
    alloc: Global,
    engine: &E,
    checked: &Checked,
    log: &Record,
    names: &[Text],
    inputs: &Inputs,
    schedule: &Schedule,
) -> Result<Said, Stop>
    ensures said { IfOk result (λ said. MayTellAgain (def_tree checked.now.def) (record_tree log.now) names.now (inputs_tree inputs.now)
        schedule.now said.verdict said.text.items) }
    ensures stopped { IfErr result (λ stop. stop ≡ Stop.Memory) }
{
    match engine.resubmission_text(alloc, checked, log, names, inputs, schedule) {
        Ok(text) => Ok(Said {
            verdict: Verdict::Done,
            text,
        }),
        Err(fault) => say_refusal(alloc, fault),
    }
}

// Resubmits the record that was found of the run, or says why there isn't one alone.
fn remade<E: Engine>(
    alloc: Global,
    engine: &E,
    asked: Asked<'_>,
    checked: &Checked,
    inputs: &Inputs,
    schedule: &Schedule,
    found: &Result<Record, FindFault>,
) -> Result<Said, Stop>
    ensures said { IfOk result (λ said. (held : Held) → MaySay held (remade (asked_tree asked.entry) (def_tree checked.now.def)
        (inputs_tree inputs.now) schedule.now (found_tree found.now)) said.verdict said.text.items) }
    ensures stopped { IfErr result (λ stop. stop ≡ Stop.Memory) }
{
    match found {
        Ok(log) => say_again(alloc, engine, checked, log, asked.names, inputs, schedule),
        Err(fault) => Ok(Said {
            verdict: Verdict::History,
            text: find_line(alloc, fault)?,
        }),
    }
}

// Resubmits it under the schedule of a file.
fn remade_by<F: Files, E: Engine>(
    alloc: Global,
    files: &mut F,
    engine: &E,
    asked: Asked<'_>,
    checked: &Checked,
    schedule: &Text,
    found: &Result<Record, FindFault>,
    inputs: &Inputs,
) -> Result<Said, Stop>
    ensures follows { Follows (F.held files.old) (remade_under (asked_tree asked.entry) (def_tree checked.now.def) (Some schedule.now)
        (found_tree found.now) (inputs_tree inputs.now)) (F.failed files.old) (F.failed files.new) result }
    ensures same { F.held files.new ≡ F.held files.old }
{
    let file = load(alloc, files, schedule, SCHEDULE_LIMIT)?;
    match schedule_form(alloc, file) {
        Err(fault) => say_fault(alloc, Verdict::Inputs, b"schedule ", fault),
        Ok(schedule) => remade(alloc, engine, asked, checked, inputs, &schedule, found),
    }
}

// Resubmits it under the schedule of a file, or under the empty one where no file is named.
fn remade_under<F: Files, E: Engine>(
    alloc: Global,
    files: &mut F,
    engine: &E,
    asked: Asked<'_>,
    checked: &Checked,
    found: &Result<Record, FindFault>,
    inputs: &Inputs,
) -> Result<Said, Stop>
    ensures follows { Follows (F.held files.old) (remade_under (asked_tree asked.entry) (def_tree checked.now.def)
        (asked_tree asked.entry).schedule (found_tree found.now) (inputs_tree inputs.now)) (F.failed files.old) (F.failed files.new) result }
    ensures same { F.held files.new ≡ F.held files.old }
{
    match asked.schedule {
        Some(schedule) => remade_by(
            alloc, files, engine, asked, checked, schedule, found, inputs,
        ),
        None => {
            let schedule = Schedule::new(alloc);
            remade(alloc, engine, asked, checked, inputs, &schedule, found)
        }
    }
}

// Resubmits it with the inputs of a file.
fn remade_with<F: Files, E: Engine>(
    alloc: Global,
    files: &mut F,
    engine: &E,
    asked: Asked<'_>,
    checked: &Checked,
    found: &Result<Record, FindFault>,
) -> Result<Said, Stop>
    ensures follows { Follows (F.held files.old) (remade_with (asked_tree asked.entry) (def_tree checked.now.def) (found_tree found.now))
        (F.failed files.old) (F.failed files.new) result }
    ensures same { F.held files.new ≡ F.held files.old }
{
    let file = load(alloc, files, asked.inputs, INPUTS_LIMIT)?;
    match inputs_form(alloc, file) {
        Err(fault) => say_fault(alloc, Verdict::Inputs, b"inputs ", fault),
        Ok(inputs) => remade_under(alloc, files, engine, asked, checked, found, &inputs),
    }
}

/// Resubmits a run of an accepted definition, by its record in a history.
pub fn resubmit<F: Files, E: Engine>(
    alloc: Global,
    files: &mut F,
    engine: &E,
    asked: Asked<'_>,
    checked: &Checked,
) -> Result<Said, Stop>
    ensures follows { Follows (F.held files.old) (resubmit (asked_tree asked.entry) (def_tree checked.now.def)) (F.failed files.old)
        (F.failed files.new) result }
    ensures same { F.held files.new ≡ F.held files.old }
{
    let file = load(alloc, files, asked.history, HISTORY_LIMIT)?;
    match history_form(alloc, file, asked.run) {
        Err(fault) => say_fault(alloc, Verdict::History, b"history ", fault),
        Ok(found) => remade_with(alloc, files, engine, asked, checked, &found),
    }
}
