//! Calls the functions of the expression language on rows of data, and writes what each call gives.
//!
//! A row is a line of the standard input: the name of a function, a tab, its arguments as one JSON list, and whatever
//! else stands behind a further tab. For each row one line is written: the value as JSON, or `!` and the whole fault.
//! `no such call` is written for a line that names no function, or not so many arguments as it takes, or has no list of
//! values. A line that begins with `#` is a heading, and is written as it is.
//!
//! The rows are data: a new row is proved by nothing and proves nothing anew. This program is no part of the engine.
#![tactic(auto)]

mod lists;
mod numbers;
mod texts;
mod times;
mod urls;

use std::alloc::{AllocError, Global};
use std::io::{self, Write};
use wf_json::JsonFault;
use wf_val::{EvalFault, Fun, Text, Val, Vals};

// What a row asks for.
#[derive(Drop)]
struct Call {
    function: Fun,
    args: Vals,
}

// The call that a row asks for, if it asks for one.
fn asked(alloc: Global, row: &str) -> Result<Option<Call>, AllocError> {
    let (name, rest) = match row.split_once("\t") {
        Some(parts) => parts,
        None => return Ok(None),
    };
    let function = match Fun::of(&Text::of(alloc, name)?) {
        Some(function) => function,
        None => return Ok(None),
    };
    let list = match rest.split_once("\t") {
        Some((list, _)) => list,
        None => rest,
    };
    match wf_json::read(alloc, list.as_bytes()) {
        Ok(Val::List(args)) => Ok(Some(Call { function, args })),
        Err(JsonFault::Memory) => Err(AllocError),
        _ => Ok(None),
    }
}

// What the call gives, where a crate has such a function of so many arguments.
fn given(alloc: Global, call: &Call) -> Option<Result<Val, EvalFault>> {
    if let Some(answer) = numbers::given(call.function, &call.args) {
        return Some(answer);
    }
    if let Some(answer) = texts::given(alloc, call.function, &call.args) {
        return Some(answer);
    }
    if let Some(answer) = lists::given(alloc, call.function, &call.args) {
        return Some(answer);
    }
    if let Some(answer) = times::given(alloc, call.function, &call.args) {
        return Some(answer);
    }
    urls::given(alloc, call.function, &call.args)
}

// Puts `!` and the fault. Want of memory is no answer.
fn push_fault(alloc: Global, line: &mut Vec<u8>, fault: &EvalFault) -> Result<(), AllocError> {
    if fault.is_memory() {
        return Err(AllocError);
    }
    let text = wf_json::fault_text(alloc, fault)?;
    line.extend_from_slice(b"!")?;
    line.extend_from_slice(text.as_str().as_bytes())
}

// Puts what the call gives.
fn push_given(alloc: Global, line: &mut Vec<u8>, call: &Call) -> Result<(), AllocError> {
    match given(alloc, call) {
        Some(Ok(value)) => line.extend_from_slice(wf_json::write(alloc, &value)?.as_slice()),
        Some(Err(fault)) => push_fault(alloc, line, &fault),
        None => line.extend_from_slice(b"no such call"),
    }
}

// Puts the line that answers a row, without its end.
fn push_answer(alloc: Global, line: &mut Vec<u8>, row: &str) -> Result<(), AllocError> {
    if row.starts_with('#') {
        return line.extend_from_slice(row.as_bytes());
    }
    match asked(alloc, row)? {
        Some(call) => push_given(alloc, line, &call),
        None => line.extend_from_slice(b"no such call"),
    }
}

// The lines that answer the rows.
fn answers(alloc: Global, rows: &str) -> Result<Vec<u8>, AllocError> {
    let mut lines = Vec::new(alloc);
    for row in rows.lines() {
        push_answer(alloc, &mut lines, row)?;
        lines.push(b'\n')?;
    }
    Ok(lines)
}

fn main(rt: HostRuntime) -> io::Result<()> {
    let alloc = rt.alloc();
    let rows = io::read_to_string(alloc, rt.reader())?;
    io::writer(&rt).write_all(answers(alloc, rows.as_str())?.as_slice())
}
