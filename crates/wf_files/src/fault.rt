// Why a file isn't of its form, and the line that says so.
ghost use Rattle.std.specs.Prelude.{◌≡◌, ◌++◌, ◌∷◌, IfOk, codes, decimal};
ghost use Rattle.wf_json.specs.Json.{string};
ghost use Rattle.wf_files.specs.Fault.{fault_line, form_words, inputs_fault, json_fault, rule_fault, schedule_fault};
ghost use Rattle.wf_files.specs.declared.fault.FormFault.TheVariants.{Memory};

use crate::quoted::{with_number, with_pair, with_text};
use std::alloc::{AllocError, Global};
use wf_answers::InputsFault;
use wf_json::JsonFault;
use wf_reading::RuleFault;
use wf_schedule::ScheduleFault;
use wf_val::Text;

/// Why a file isn't of its form.
#[derive(Drop)]
pub enum FormFault {
    /// It has more bytes than its limit.
    TooLong,
    /// Its bytes are no JSON text.
    NotJson,
    /// The number there isn't whole, or is out of range.
    NotWhole { pointer: Text },
    /// The list or object there stands in too many others.
    TooDeep { pointer: Text },
    /// A definition breaks the rule of this number, 1 to 21, there.
    Rule { rule: u8, pointer: Text },
    /// What inputs have there, or lack there, isn't of their form.
    Form { pointer: Text },
    /// Two answers of inputs are for this attempt at this address.
    Twice { address: Text, attempt: u32 },
    /// The moment of inputs is no timestamp.
    Moment,
    /// The line of a schedule, counted from 1, is no number.
    Line { number: u64 },
    Memory,
}

/// Why a history has no record of a run, or not one alone. It is none of the form: all its lines are records.
#[derive(Drop)]
pub enum FindFault {
    /// No record is of the run.
    NoRun,
    /// More than one is; the first two lines, counted from 1.
    Twice { first: u64, second: u64 },
}

impl From<AllocError> for FormFault {
    ghost from_gives = { λ _ e. e ≡ Memory };

    fn from(_: AllocError) -> Self {
        FormFault::Memory
    }
}

impl From<JsonFault> for FormFault {
    ghost from_gives = { λ fault e. e ≡ json_fault fault };

    fn from(fault: JsonFault) -> Self {
        match fault {
            JsonFault::NotJson => FormFault::NotJson,
            JsonFault::NotWhole { pointer } => FormFault::NotWhole { pointer },
            JsonFault::TooDeep { pointer } => FormFault::TooDeep { pointer },
            JsonFault::Memory => FormFault::Memory,
        }
    }
}

impl From<RuleFault> for FormFault {
    ghost from_gives = { λ fault e. e ≡ rule_fault fault };

    fn from(fault: RuleFault) -> Self {
        match fault {
            RuleFault::Rule { rule, pointer } => FormFault::Rule { rule, pointer },
            RuleFault::Memory => FormFault::Memory,
        }
    }
}

impl From<InputsFault> for FormFault {
    ghost from_gives = { λ fault e. e ≡ inputs_fault fault };

    fn from(fault: InputsFault) -> Self {
        match fault {
            InputsFault::Form { pointer } => FormFault::Form { pointer },
            InputsFault::Twice { address, attempt } => FormFault::Twice { address, attempt },
            InputsFault::Moment => FormFault::Moment,
            InputsFault::Memory => FormFault::Memory,
        }
    }
}

impl From<ScheduleFault> for FormFault {
    ghost from_gives = { λ fault e. e ≡ schedule_fault fault };

    fn from(fault: ScheduleFault) -> Self {
        match fault {
            ScheduleFault::Line { number } => FormFault::Line { number },
            ScheduleFault::Memory => FormFault::Memory,
        }
    }
}

// A rule's number, and a pointer behind it.
fn with_rule(alloc: Global, rule: u8, pointer: Text) -> Result<Vec<u8>, AllocError>
    ensures { IfOk result (λ bytes. bytes.items ≡ codes "V" ++ (decimal rule ++ (32 ∷ string pointer))) }
{
    let mut bytes = format!(in alloc; "V{rule} ")?.into_bytes();
    wf_json::quote_to(&mut bytes, pointer.as_str())?;
    Ok(bytes)
}

fn form_words(alloc: Global, fault: FormFault) -> Result<Vec<u8>, AllocError>
    ensures { IfOk result (λ bytes. bytes.items ≡ form_words fault) }
{
    match fault {
        FormFault::TooLong => Ok(b"too long".to_vec(alloc)?),
        FormFault::NotJson => Ok(b"NotJson".to_vec(alloc)?),
        FormFault::NotWhole { pointer } => with_text(alloc, b"NotWhole ", &pointer),
        FormFault::TooDeep { pointer } => with_text(alloc, b"TooDeep ", &pointer),
        FormFault::Rule { rule, pointer } => with_rule(alloc, rule, pointer),
        FormFault::Form { pointer } => with_text(alloc, b"Form ", &pointer),
        FormFault::Twice { address, attempt } => with_pair(alloc, b"Twice ", &address, attempt),
        FormFault::Moment => Ok(b"Moment".to_vec(alloc)?),
        FormFault::Line { number } => with_number(alloc, "Line ", number),
        FormFault::Memory => Ok(Vec::new(alloc)),
    }
}

/// The line of a fault of a file: the file's part in the command, and the fault.
#[tactic(auto, unfolding(crate::specs::Fault::fault_line))]
pub fn fault_line(alloc: Global, part: &[u8], fault: FormFault) -> Result<Vec<u8>, AllocError>
    ensures { IfOk result (λ line. line.items ≡ fault_line part.now fault) }
{
    let mut line = part.to_vec(alloc)?;
    line.extend_from_slice(&form_words(alloc, fault)?)?;
    line.push(b'\n')?;
    Ok(line)
}
