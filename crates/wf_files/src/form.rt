// What a file holds of a form, or why it holds nothing of it.
ghost use Rattle.std.specs.Prelude.{◌≡◌, ◌≢◌, IfOk, IfErr, OnOk, None, Some, Ok, Err, map, option_map};
ghost use Rattle.wf_answers.specs.InputsSeen.{inputs_tree};
ghost use Rattle.wf_history.specs.Seen.{listed_tree};
ghost use Rattle.wf_reading.specs.ReadSeen.{def_tree};
ghost use Rattle.wf_files.specs.Form.{broken_in, definition_form, definition_of, history_form, inputs_form, inputs_of, listing_form};
ghost use Rattle.wf_files.specs.Form.{schedule_form, value_form};
ghost use Rattle.wf_files.specs.Seen.{found_tree};
ghost use Rattle.wf_val.specs.Seen.{tree};

use crate::fault::{FindFault, FormFault};
use std::alloc::Global;
use wf_answers::{Inputs, read_inputs};
use wf_history::{HistoryFault, Listing, find, list};
use wf_reading::{Def, RuleFault, read_def};
use wf_record::Record;
use wf_rules::{Checked, check};
use wf_schedule::read_schedule;
use wf_val::{Name, Schedule, Val};

// A definition that breaks no rule between its parts.
#[tactic(auto, unfolding(crate::specs::Form::broken_in))]
fn checked(alloc: Global, def: Def) -> Result<Checked, RuleFault>
    ensures same { IfOk result (λ checked. def_tree checked.def ≡ def_tree def) }
    ensures holds { OnOk result (broken_in (def_tree def) ≡ None) }
    ensures fault { IfErr result (λ fault. fault ≢ RuleFault.Memory → broken_in (def_tree def) ≡ Some fault) }
{
    check(alloc, def)
}

/// The definition that a value means.
pub fn definition_in(alloc: Global, value: &Val) -> Result<Checked, FormFault>
    ensures form { IfOk result (λ checked. definition_of (tree value.now) ≡ Ok (def_tree checked.def)) }
    ensures fault { IfErr result (λ fault. fault ≢ FormFault.Memory → definition_of (tree value.now) ≡ Err fault) }
{
    let def = read_def(alloc, value)?;
    let checked = checked(alloc, def)?;
    Ok(checked)
}

/// The definition that a file holds; `None` stands for a file over its limit.
pub fn definition_form(alloc: Global, file: Option<Vec<u8>>) -> Result<Checked, FormFault>
    ensures form { IfOk result (λ checked. definition_form (option_map (λ bytes. bytes.items) file) ≡ Ok (def_tree checked.def)) }
    ensures fault { IfErr result (λ fault. fault ≢ FormFault.Memory → definition_form (option_map (λ bytes. bytes.items) file)
        ≡ Err fault) }
{
    let bytes = file.ok_or(FormFault::TooLong)?;
    let value = wf_json::read(alloc, &bytes)?;
    let checked = definition_in(alloc, &value)?;
    Ok(checked)
}

/// The value of the definition that a file holds; `None` stands for a file over its limit.
pub fn value_form(alloc: Global, file: Option<Vec<u8>>) -> Result<Val, FormFault>
    ensures form { IfOk result (λ value. value_form (option_map (λ bytes. bytes.items) file) ≡ Ok (tree value)) }
    ensures fault { IfErr result (λ fault. fault ≢ FormFault.Memory → value_form (option_map (λ bytes. bytes.items) file) ≡ Err fault) }
{
    let bytes = file.ok_or(FormFault::TooLong)?;
    let value = wf_json::read(alloc, &bytes)?;
    let _checked = definition_in(alloc, &value)?;
    Ok(value)
}

/// The inputs that a value means.
pub fn inputs_in(alloc: Global, value: &Val) -> Result<Inputs, FormFault>
    ensures form { IfOk result (λ inputs. inputs_of (tree value.now) ≡ Ok (inputs_tree inputs)) }
    ensures fault { IfErr result (λ fault. fault ≢ FormFault.Memory → inputs_of (tree value.now) ≡ Err fault) }
{
    let inputs = read_inputs(alloc, value)?;
    Ok(inputs)
}

/// The inputs that a file holds; `None` stands for a file over its limit.
pub fn inputs_form(alloc: Global, file: Option<Vec<u8>>) -> Result<Inputs, FormFault>
    ensures form { IfOk result (λ inputs. inputs_form (option_map (λ bytes. bytes.items) file) ≡ Ok (inputs_tree inputs)) }
    ensures fault { IfErr result (λ fault. fault ≢ FormFault.Memory → inputs_form (option_map (λ bytes. bytes.items) file) ≡ Err fault) }
{
    let bytes = file.ok_or(FormFault::TooLong)?;
    let value = wf_json::read(alloc, &bytes)?;
    let inputs = inputs_in(alloc, &value)?;
    Ok(inputs)
}

/// The schedule that a file holds; `None` stands for a file over its limit.
pub fn schedule_form(alloc: Global, file: Option<Vec<u8>>) -> Result<Schedule, FormFault>
    ensures form { IfOk result (λ schedule. schedule_form (option_map (λ bytes. bytes.items) file) ≡ Ok schedule) }
    ensures fault { IfErr result (λ fault. fault ≢ FormFault.Memory → schedule_form (option_map (λ bytes. bytes.items) file) ≡ Err fault) }
{
    let bytes = file.ok_or(FormFault::TooLong)?;
    let schedule = read_schedule(alloc, &bytes)?;
    Ok(schedule)
}

/// What is said of each record of the history that a file holds; `None` stands for a file over its limit.
#[tactic(auto, using(crate::proofs::Listed::records_listed, crate::proofs::Listed::line_told))]
pub fn listing_form(alloc: Global, file: Option<Vec<u8>>) -> Result<Listing, FormFault>
    ensures form { IfOk result (λ listing. listing_form (option_map (λ bytes. bytes.items) file) ≡ Ok (map listed_tree listing)) }
    ensures fault { IfErr result (λ fault. fault ≢ FormFault.Memory → listing_form (option_map (λ bytes. bytes.items) file) ≡ Err fault) }
{
    let bytes = file.ok_or(FormFault::TooLong)?;
    match list(alloc, &bytes) {
        Ok(listing) => Ok(listing),
        Err(HistoryFault::Line { number }) => Err(FormFault::Line { number }),
        Err(_) => Err(FormFault::Memory),
    }
}

/// What is found of a run in the history that a file holds; `None` stands for a file over its limit.
pub fn history_form(
    alloc: Global,
    file: Option<Vec<u8>>,
    run: &Name,
) -> Result<Result<Record, FindFault>, FormFault>
    ensures form { IfOk result (λ found. history_form run.now (option_map (λ bytes. bytes.items) file) ≡ Ok (found_tree found)) }
    ensures fault { IfErr result (λ fault. fault ≢ FormFault.Memory → history_form run.now (option_map (λ bytes. bytes.items) file)
        ≡ Err fault) }
{
    let bytes = file.ok_or(FormFault::TooLong)?;
    match find(alloc, &bytes, run) {
        Ok(log) => Ok(Ok(log)),
        Err(HistoryFault::NoRun) => Ok(Err(FindFault::NoRun)),
        Err(HistoryFault::Twice { first, second }) => Ok(Err(FindFault::Twice { first, second })),
        Err(HistoryFault::Line { number }) => Err(FormFault::Line { number }),
        Err(HistoryFault::Memory) => Err(FormFault::Memory),
    }
}
