//! Actions by rows: what the action of each line of the standard input comes to in a look, in a line for each.
//!
//! A row is a line of JSON, an object of one of these forms:
//!
//! - `{"look":{..}}`: what the rows behind it see until the next look. It may have `parameters`, `variables`, `views` (of actions) and
//!   `results`, each an object of values by name; `items`, a list with the nearest first; `trigger`, an object; and `moment`, in ticks of
//!   100 ns since 0001-01-01T00:00:00. What it lacks isn't there, or 0. The line `look` answers it.
//! - `{"action":{..}}`: an action as a definition has it, and perhaps `answers`, a list as the inputs of a run have it. The action is `A`,
//!   alone at the top of its definition.
//!
//! The answer for an action that holds no others has eight columns with tabs between:
//!
//! 1. its status;
//! 2. its code;
//! 3. the inputs that it keeps;
//! 4. its outputs;
//! 5. its error;
//! 6. what its attempts came to, with blanks between, or `-` where it made none;
//! 7. its tracked properties;
//! 8. the values that it gives to variables, by name; of a Terminate that succeeds the status of its run.
//!
//! For a container it says what that decides as it opens (`nothing`, `held` and whether its condition holds, `chosen` and its value, `each`
//! and its items, `too many`, or `!` and a fault), the number of the branch that is meant, from 1, and of the iterations; and for an Until
//! whether its expression holds, or `!` and the fault, and whether that ends it.
//!
//! A value is written as JSON; of more than 400 bytes it is told by their number and their SHA-256 digest. A definition that isn't read is
//! answered by the line that refuses it, any other line by `no row`. A line that begins with `#` is a heading, and is written as it is.
//!
//! The rows were made once with an independent model in another language, from cases that were written by hand and from random ones. They
//! are data: a new row is proved by nothing and proves nothing anew. This program is no part of the engine.
#![tactic(auto)]

mod line;
mod table;

use crate::line::{push_attempts, push_fault, push_number, push_value, push_word};
use crate::table::Table;
use std::alloc::{AllocError, Global};
use std::io::{self, Write};
use wf_answers::{Inputs, InputsFault, read_inputs};
use wf_connect::{Tried, attempt, try_of};
use wf_data::run_status;
use wf_def::{Action, Initial, Kind};
use wf_done::{Begun, Done, begin, ended_by, tracked, view};
use wf_json::JsonFault;
use wf_opening::{Decision, Verdict, ends, items_of, open, taken, test};
use wf_reading::{RuleFault, read_def};
use wf_record::{Status, Tries};
use wf_retry::Policy;
use wf_template::Cond;
use wf_val::{Address, Fields, Indexes, Text, Val, Vals};
use wf_variables::value_given;

// More than the attempts that any policy allows.
const ATTEMPTS: u32 = 100;

// ---- actions that hold no others

// What comes of the last attempt; all attempts are kept.
fn last_tried(
    alloc: Global,
    policy: Policy,
    inputs: &Inputs,
    attempts: &mut Tries,
) -> Result<Tried, AllocError> {
    let address = Address {
        name: Text::of(alloc, "A")?,
        at: Indexes::new(alloc),
    };
    for number in 1..ATTEMPTS {
        let answer = inputs.answer(&address, number);
        attempts.push(try_of(answer))?;
        let tried = attempt(alloc, &policy, number, answer)?;
        if let Tried::Final { .. } = &tried {
            return Ok(tried);
        }
    }
    Ok(Tried::Again)
}

// What the action comes to; its attempts are kept.
fn done_by(
    alloc: Global,
    action: &Action,
    inputs: &Inputs,
    look: &mut Table,
    attempts: &mut Tries,
) -> Result<Done, AllocError> {
    match begin(alloc, &action.kind, look)? {
        Begun::Acted(done) => Ok(done),
        Begun::Calling {
            inputs: kept,
            policy,
        } => {
            let tried = last_tried(alloc, policy, inputs, attempts)?;
            ended_by(alloc, kept, tried)
        }
    }
}

// The names of the variables that an action initialises.
fn initialized(alloc: Global, variables: &[Initial]) -> Result<Vec<Text>, AllocError> {
    let mut names = Vec::new(alloc);
    for variable in variables {
        names.push(variable.name.copy(alloc)?)?;
    }
    Ok(names)
}

// The names of the variables that an action writes.
fn written(alloc: Global, kind: &Kind) -> Result<Vec<Text>, AllocError> {
    let name = match kind {
        Kind::Initialize { variables } => return initialized(alloc, variables.as_slice()),
        Kind::Set { name, .. } => name,
        Kind::Increment { name, .. } => name,
        Kind::Decrement { name, .. } => name,
        Kind::AppendArray { name, .. } => name,
        Kind::AppendString { name, .. } => name,
        _ => return Ok(Vec::new(alloc)),
    };
    let mut names = Vec::new(alloc);
    names.push(name.copy(alloc)?)?;
    Ok(names)
}

// The values that the outputs give to variables.
fn values_given(alloc: Global, kind: &Kind, outputs: &Val) -> Result<Fields, AllocError> {
    let mut values = Fields::new(alloc);
    for name in written(alloc, kind)?.as_slice() {
        if let Some(value) = value_given(name, outputs) {
            values.put(name.copy(alloc)?, value.copy(alloc)?)?;
        }
    }
    Ok(values)
}

// What an action that has succeeded gives beside its row.
fn gives(alloc: Global, kind: &Kind, done: &Done) -> Result<Val, AllocError> {
    match kind {
        Kind::Terminate { .. } => match run_status(&done.inputs) {
            Some(status) => Ok(Val::Text(Text::of(alloc, status.name())?)),
            None => Ok(Val::Null),
        },
        _ => Ok(Val::Obj(values_given(alloc, kind, &done.outputs)?)),
    }
}

// Puts the tracked properties, with the action's own view in the look.
fn push_tracked(
    alloc: Global,
    line: &mut Vec<u8>,
    action: &Action,
    done: &Done,
    look: &mut Table,
) -> Result<(), AllocError> {
    look.own = Some(view(alloc, &action.name, done)?);
    let properties = tracked(alloc, action.tracked.as_slice(), look)?;
    look.own = None;
    push_value(alloc, line, "", &properties)
}

fn push_given(
    alloc: Global,
    line: &mut Vec<u8>,
    kind: &Kind,
    done: &Done,
) -> Result<(), AllocError> {
    if done.status != Status::Succeeded {
        return push_word(line, "{}");
    }
    let values = gives(alloc, kind, done)?;
    push_value(alloc, line, "", &values)
}

// Puts what the action came to.
fn push_done(
    alloc: Global,
    line: &mut Vec<u8>,
    done: &Done,
    attempts: &Tries,
) -> Result<(), AllocError> {
    push_word(line, done.status.name())?;
    push_word(line, done.code.as_str())?;
    push_value(alloc, line, "", &done.inputs)?;
    push_value(alloc, line, "", &done.outputs)?;
    push_value(alloc, line, "", &done.error)?;
    push_attempts(alloc, line, attempts)
}

fn push_leaf(
    alloc: Global,
    line: &mut Vec<u8>,
    action: &Action,
    inputs: &Inputs,
    look: &mut Table,
) -> Result<(), AllocError> {
    let mut attempts = Tries::new(alloc);
    let done = done_by(alloc, action, inputs, look, &mut attempts)?;
    push_done(alloc, line, &done, &attempts)?;
    push_tracked(alloc, line, action, &done, look)?;
    push_given(alloc, line, &action.kind, &done)
}

// ---- containers

fn push_decision(alloc: Global, line: &mut Vec<u8>, decision: &Decision) -> Result<(), AllocError> {
    match decision {
        Decision::Nothing => push_word(line, "nothing"),
        Decision::Held(holds) => push_word(line, if *holds { "held true" } else { "held false" }),
        Decision::Chosen { value, .. } => push_value(alloc, line, "chosen ", value),
        Decision::Each(items) => {
            push_value(alloc, line, "each ", &Val::List(items.copy(alloc)?))
        }
        Decision::TooMany => push_word(line, "too many"),
        Decision::Faulty(fault) => push_fault(alloc, line, fault),
    }
}

// What the expression of an Until gives.
fn push_test(
    alloc: Global,
    line: &mut Vec<u8>,
    condition: &Cond,
    look: &mut Table,
) -> Result<(), AllocError> {
    let verdict = test(alloc, condition, look)?;
    match &verdict {
        Verdict::Met(holds) => push_word(line, if *holds { "true" } else { "false" })?,
        Verdict::Astray(fault) => push_fault(alloc, line, fault)?,
    }
    push_word(line, if ends(&verdict) { "ends" } else { "goes on" })
}

fn push_opened(
    alloc: Global,
    line: &mut Vec<u8>,
    kind: &Kind,
    look: &mut Table,
) -> Result<(), AllocError> {
    let decision = open(alloc, kind, look)?;
    push_decision(alloc, line, &decision)?;
    push_number(alloc, line, taken(&decision))?;
    push_number(alloc, line, items_of(&decision))
}

fn push_container(
    alloc: Global,
    line: &mut Vec<u8>,
    kind: &Kind,
    look: &mut Table,
) -> Result<(), AllocError> {
    push_opened(alloc, line, kind, look)?;
    match kind {
        Kind::Until { test, .. } => push_test(alloc, line, test, look),
        _ => Ok(()),
    }
}

fn is_container(kind: &Kind) -> bool {
    match kind {
        Kind::Scope { .. } => true,
        Kind::If { .. } => true,
        Kind::Switch { .. } => true,
        Kind::Foreach { .. } => true,
        Kind::Until { .. } => true,
        _ => false,
    }
}

// ---- rows

fn put(alloc: Global, fields: &mut Fields, name: &str, value: Val) -> Result<(), AllocError> {
    let name = Text::of(alloc, name)?;
    fields.put(name, value)?;
    Ok(())
}

fn put_text(alloc: Global, fields: &mut Fields, name: &str, text: &str) -> Result<(), AllocError> {
    put(alloc, fields, name, Val::Text(Text::of(alloc, text)?))
}

// An object of one member.
fn object_of(alloc: Global, name: &str, value: Val) -> Result<Val, AllocError> {
    let mut fields = Fields::new(alloc);
    put(alloc, &mut fields, name, value)?;
    Ok(Val::Obj(fields))
}

// A definition of this one action.
fn definition_of(alloc: Global, action: &Val) -> Result<Val, AllocError> {
    let actions = object_of(alloc, "A", action.copy(alloc)?)?;
    object_of(alloc, "actions", actions)
}

fn answers_of(alloc: Global, answers: Option<&Val>) -> Result<Val, AllocError> {
    match answers {
        Some(answers) => answers.copy(alloc),
        None => Ok(Val::List(Vals::new(alloc))),
    }
}

// Inputs with these answers, or with none.
fn inputs_of(alloc: Global, answers: Option<&Val>) -> Result<Val, AllocError> {
    let mut inputs = Fields::new(alloc);
    put(alloc, &mut inputs, "answers", answers_of(alloc, answers)?)?;
    put_text(alloc, &mut inputs, "moment", "2024-05-01T12:00:00Z")?;
    put_text(alloc, &mut inputs, "run", "r")?;
    Ok(Val::Obj(inputs))
}

// Puts the line that refuses a definition.
fn push_broken(alloc: Global, line: &mut Vec<u8>, fault: &RuleFault) -> Result<(), AllocError> {
    match fault {
        RuleFault::Rule { rule, pointer } => {
            let told = format!(in alloc; "definition V{rule} ")?;
            line.extend_from_slice(told.as_bytes())?;
            wf_json::quote_to(line, pointer.as_str())
        }
        RuleFault::Memory => Err(AllocError),
    }
}

fn push_action(
    alloc: Global,
    line: &mut Vec<u8>,
    action: Option<&Action>,
    inputs: &Inputs,
    look: &mut Table,
) -> Result<(), AllocError> {
    look.drawn = 0;
    match action {
        Some(action) if is_container(&action.kind) => {
            push_container(alloc, line, &action.kind, look)
        }
        Some(action) => push_leaf(alloc, line, action, inputs, look),
        None => push_word(line, "no row"),
    }
}

// Puts the line for an action with these inputs.
fn push_defined(
    alloc: Global,
    line: &mut Vec<u8>,
    action: &Val,
    inputs: &Inputs,
    look: &mut Table,
) -> Result<(), AllocError> {
    let definition = definition_of(alloc, action)?;
    match read_def(alloc, &definition) {
        Ok(def) => push_action(alloc, line, def.top.actions.at(0), inputs, look),
        Err(fault) => push_broken(alloc, line, &fault),
    }
}

// Puts the line for an action with the answers that it has.
fn push_answered(
    alloc: Global,
    line: &mut Vec<u8>,
    action: &Val,
    answers: Option<&Val>,
    look: &mut Table,
) -> Result<(), AllocError> {
    let inputs = inputs_of(alloc, answers)?;
    match read_inputs(alloc, &inputs) {
        Ok(inputs) => push_defined(alloc, line, action, &inputs, look),
        Err(InputsFault::Memory) => Err(AllocError),
        Err(_) => push_word(line, "no row"),
    }
}

// Puts the line for what a row says.
fn push_said(
    alloc: Global,
    line: &mut Vec<u8>,
    row: &Val,
    look: &mut Table,
) -> Result<(), AllocError> {
    if let Some(Val::Obj(data)) = row.member("look") {
        look.take(alloc, data)?;
        return push_word(line, "look");
    }
    match row.member("action") {
        Some(action) => push_answered(alloc, line, action, row.member("answers"), look),
        None => push_word(line, "no row"),
    }
}

// Puts the line for a row; a row that is a look replaces the one that there is.
fn push_answer(
    alloc: Global,
    line: &mut Vec<u8>,
    row: &str,
    look: &mut Table,
) -> Result<(), AllocError> {
    match wf_json::read(alloc, row.as_bytes()) {
        Ok(row) => push_said(alloc, line, &row, look),
        Err(JsonFault::Memory) => Err(AllocError),
        Err(_) => push_word(line, "no row"),
    }
}

// Puts the lines that answer the rows.
fn push_answers(
    alloc: Global,
    lines: &mut Vec<u8>,
    rows: &str,
    look: &mut Table,
) -> Result<(), AllocError> {
    for row in rows.lines() {
        if row.starts_with('#') {
            lines.extend_from_slice(row.as_bytes())?;
            lines.push(b'\n')?;
        } else if !row.is_empty() {
            push_answer(alloc, lines, row, look)?;
            lines.push(b'\n')?;
        }
    }
    Ok(())
}

fn answers(alloc: Global, rows: &str) -> Result<Vec<u8>, AllocError> {
    let mut look = Table::empty(alloc)?;
    let mut lines = Vec::new(alloc);
    push_answers(alloc, &mut lines, rows, &mut look)?;
    Ok(lines)
}

fn main(rt: HostRuntime) -> io::Result<()> {
    let alloc = rt.alloc();
    let rows = io::read_to_string(alloc, rt.reader())?;
    io::writer(&rt).write_all(answers(alloc, rows.as_str())?.as_slice())
}
