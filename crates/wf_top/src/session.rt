// What `session` does before its talk: each function follows the plan of its name, and reads at most one file.
ghost use Rattle.std.specs.Prelude.{◌≡◌, ◌≢◌, IfOk, IfErr, Ok, length};
ghost use Rattle.wf_answers.specs.InputsSeen.{inputs_tree};
ghost use Rattle.wf_files.specs.Fault.{fault_line};
ghost use Rattle.wf_outside.specs.Outside.{Held};
ghost use Rattle.wf_reading.specs.ReadSeen.{def_tree};
ghost use Rattle.wf_told.specs.Records.{starts_of};
ghost use Rattle.wf_top.specs.Opening.{MayOpen, Opens};
ghost use Rattle.wf_top.specs.Plan.{Says};
ghost use Rattle.wf_top.specs.Session.{joined, many_runs, no_run, session, started};
ghost use Rattle.wf_top.specs.Trigger.{trigger_line};
ghost use Rattle.wf_trigger.specs.StartsSeen.{starts_seen};

use crate::load::{Stop, load};
use crate::said::{Said, Verdict, say_fault};
use crate::trigger::trigger_line;
use crate::{DEFINITION_LIMIT, INPUTS_LIMIT};
use std::alloc::{AllocError, Global};
use wf_answers::Inputs;
use wf_files::{Checked, FormFault, definition_form, inputs_form, with_number};
use wf_outside::Files;
use wf_trigger::{Start, Starts, TriggerFault, runs};
use wf_val::Text;

/// The line that says that no run starts.
const NO_RUN: &[u8] = b"# no run\n";

/// What the tests before a talk lead to.
#[derive(Drop)]
pub enum Opened {
    /// There is no talk, and this is said.
    Said(Said),
    /// There is one of the run that starts alone.
    Talk {
        checked: Checked,
        start: Start,
        inputs: Inputs,
    },
}

// The line that says how many runs start, and not one alone.
#[tactic(auto, unfolding(crate::specs::Session::many_runs))]
fn many_runs(alloc: Global, count: u64) -> Result<Vec<u8>, AllocError>
    ensures { IfOk result (λ line. line.items ≡ many_runs count) }
{
    let mut line = with_number(alloc, "session ManyRuns ", count)?;
    line.push(b'\n')?;
    Ok(line)
}

// Says why a file isn't of its form.
fn say_no_form(
    alloc: Global,
    verdict: Verdict,
    part: &[u8],
    fault: FormFault,
) -> Result<Opened, Stop>
    ensures opened { IfOk result (λ opened. (fault ≢ FormFault.Memory)
        × ((held : Held) → MayOpen held (Says verdict (fault_line part.now fault)) opened)) }
    ensures stopped { IfErr result (λ stop. stop ≡ Stop.Memory) }
{
    match say_fault(alloc, verdict, part, fault) {
        Ok(said) => Ok(Opened::Said(said)),
        Err(stop) => Err(stop),
    }
}

// Says why no run could start.
fn say_no_start(alloc: Global, fault: TriggerFault) -> Result<Opened, Stop>
    ensures opened { IfOk result (λ opened. (fault ≢ TriggerFault.Memory)
        × ((held : Held) → MayOpen held (Says Verdict.Inputs (trigger_line fault)) opened)) }
    ensures stopped { IfErr result (λ stop. stop ≡ Stop.Memory) }
{
    match fault {
        TriggerFault::Memory => Err(Stop::Memory),
        fault => Ok(Opened::Said(Said {
            verdict: Verdict::Inputs,
            text: trigger_line(alloc, fault)?,
        })),
    }
}

// Says that no run starts.
fn say_none(alloc: Global) -> Result<Opened, Stop>
    ensures opened { IfOk result (λ opened. (held : Held) → MayOpen held (Says Verdict.Done no_run) opened) }
    ensures stopped { IfErr result (λ stop. stop ≡ Stop.Memory) }
{
    Ok(Opened::Said(Said {
        verdict: Verdict::Done,
        text: NO_RUN.to_vec(alloc)?,
    }))
}

// Says that so many runs start.
fn say_many(alloc: Global, count: u64) -> Result<Opened, Stop>
    ensures opened { IfOk result (λ opened. (held : Held) → MayOpen held (Says Verdict.Inputs (many_runs count)) opened) }
    ensures stopped { IfErr result (λ stop. stop ≡ Stop.Memory) }
{
    Ok(Opened::Said(Said {
        verdict: Verdict::Inputs,
        text: many_runs(alloc, count)?,
    }))
}

// Leads to the talk of the run that starts alone.
fn say_one(alloc: Global, checked: Checked, inputs: Inputs, starts: &Starts) -> Result<Opened, Stop>
    requires { length (starts_seen starts.now) ≡ 1 }
    ensures opened { IfOk result (λ opened. (held : Held) → MayOpen held (started (def_tree checked.def) (inputs_tree inputs)
        (Ok (starts_seen starts.now))) opened) }
    ensures stopped { IfErr result (λ stop. stop ≡ Stop.Memory) }
{
    let start = starts.start(alloc, 0)?;
    Ok(Opened::Talk {
        checked,
        start,
        inputs,
    })
}

// Leads to the talk of the run that starts, if it is one alone. What is said where it isn't is made by calls that aren't lent the
// definition and the inputs: so these are let go once an arm, and not where memory runs out too.
fn started(alloc: Global, checked: Checked, inputs: Inputs, starts: &Starts) -> Result<Opened, Stop>
    ensures opened { IfOk result (λ opened. (held : Held) → MayOpen held (started (def_tree checked.def) (inputs_tree inputs)
        (Ok (starts_seen starts.now))) opened) }
    ensures stopped { IfErr result (λ stop. stop ≡ Stop.Memory) }
{
    match starts.len() {
        0 => say_none(alloc),
        1 => say_one(alloc, checked, inputs, starts),
        count => say_many(alloc, count),
    }
}

// Asks which runs start.
fn begun(alloc: Global, checked: Checked, inputs: Inputs) -> Result<Opened, Stop>
    ensures opened { IfOk result (λ opened. (held : Held) → MayOpen held (started (def_tree checked.def) (inputs_tree inputs)
        (starts_of (def_tree checked.def) (inputs_tree inputs))) opened) }
    ensures stopped { IfErr result (λ stop. stop ≡ Stop.Memory) }
{
    let def = &checked.def;
    match runs(alloc, &def.parameters, &def.given, &def.triggers, &inputs) {
        Ok(starts) => started(alloc, checked, inputs, &starts),
        Err(fault) => say_no_start(alloc, fault),
    }
}

// Reads and judges the inputs.
fn joined<F: Files>(
    alloc: Global,
    files: &mut F,
    inputs: &Text,
    checked: Checked,
) -> Result<Opened, Stop>
    ensures opens { Opens (F.held files.old) (joined inputs.now (def_tree checked.def)) (F.failed files.old) (F.failed files.new) result }
    ensures same { F.held files.new ≡ F.held files.old }
{
    let file = load(alloc, files, inputs, INPUTS_LIMIT)?;
    match inputs_form(alloc, file) {
        Err(fault) => say_no_form(alloc, Verdict::Inputs, b"inputs ", fault),
        Ok(inputs) => begun(alloc, checked, inputs),
    }
}

/// Does all that `session` does before its talk: reads the definition and the inputs, and judges them.
pub fn session<F: Files>(
    alloc: Global,
    files: &mut F,
    definition: &Text,
    inputs: &Text,
) -> Result<Opened, Stop>
    ensures opens { Opens (F.held files.old) (session definition.now inputs.now) (F.failed files.old) (F.failed files.new) result }
    ensures same { F.held files.new ≡ F.held files.old }
{
    let file = load(alloc, files, definition, DEFINITION_LIMIT)?;
    match definition_form(alloc, file) {
        Err(fault) => say_no_form(alloc, Verdict::Definition, b"definition ", fault),
        Ok(checked) => joined(alloc, files, inputs, checked),
    }
}
