//! Values by rows: what each template, tree or condition of the standard input comes to, in a line for each.
//!
//! A row is a line of JSON, an object of one member:
//!
//! - `look`: an object, which is what the rows behind it see until the next look. It may have `parameters`,
//!   `variables`, `views`, `results`, `named` (items by the names of loops) and `indexes`, each an object of values by
//!   name; `items`, a list with the nearest first; `trigger` and `own`, each a value; `moment`, in ticks of 100 ns since
//!   0001-01-01T00:00:00; and the texts `run`, `seed` and `place`. What it lacks isn't there, or 0. The line `look`
//!   answers it.
//! - `text`: a template, as a text or as a list of texts in which a number says how often the text behind it stands.
//! - `tree`: a value whose texts are templates.
//! - `condition`: a condition.
//!
//! The answer is the value in JSON, or `!` and the fault, or `no template`; then a tab and the number of words drawn. A value of more than
//! 400 bytes is told by their number and their SHA-256 digest.
//!
//! The rows are data: a new row is proved by nothing and proves nothing anew. This program is no part of the engine.
#![tactic(auto)]

mod row;
mod table;

use crate::row::text_of;
use crate::table::Table;
use sha2::{Digest as _, Sha256};
use std::alloc::{AllocError, Global};
use std::io::{self, Write};
use wf_eval::{eval, eval_cond, eval_tree};
use wf_expr::{ParseFault, parse_template};
use wf_json::JsonFault;
use wf_leaves::{condition_at, data_in};
use wf_val::{EvalFault, Fields, Val};

// The longest value that is written as it is, in bytes.
const LONGEST: usize = 400;

// Puts the text, or its length and digest where that is long.
fn push_shortened(alloc: Global, line: &mut Vec<u8>, text: &[u8]) -> Result<(), AllocError> {
    if text.len() <= LONGEST {
        return line.extend_from_slice(text);
    }
    let digest = hex::encode(alloc, Sha256::digest(text))?;
    let told = format!(in alloc; "{} bytes {digest}", text.len())?;
    line.extend_from_slice(told.as_bytes())
}

fn push_value(alloc: Global, line: &mut Vec<u8>, value: &Val) -> Result<(), AllocError> {
    let text = wf_json::write(alloc, value)?;
    push_shortened(alloc, line, text.as_slice())
}

// Puts a fault. Want of memory is no answer.
fn push_fault(alloc: Global, line: &mut Vec<u8>, fault: &EvalFault) -> Result<(), AllocError> {
    if fault.is_memory() {
        return Err(AllocError);
    }
    let text = wf_json::fault_text(alloc, fault)?;
    line.extend_from_slice(b"!")?;
    line.extend_from_slice(text.as_str().as_bytes())
}

// Puts how many words were drawn.
fn push_drawn(alloc: Global, line: &mut Vec<u8>, drawn: u64) -> Result<(), AllocError> {
    let told = format!(in alloc; "\t{drawn}")?;
    line.extend_from_slice(told.as_bytes())
}

fn push_answer(
    alloc: Global,
    line: &mut Vec<u8>,
    answer: &Result<Val, EvalFault>,
) -> Result<(), AllocError> {
    match answer {
        Ok(value) => push_value(alloc, line, value),
        Err(fault) => push_fault(alloc, line, fault),
    }
}

fn push_text(
    alloc: Global,
    line: &mut Vec<u8>,
    what: &Val,
    look: &mut Table,
) -> Result<(), AllocError> {
    let text = text_of(alloc, what)?;
    match parse_template(alloc, &text) {
        Ok(template) => push_answer(alloc, line, &eval(alloc, &template, look)),
        Err(ParseFault::Memory) => Err(AllocError),
        Err(_) => line.extend_from_slice(b"no template"),
    }
}

fn push_tree(
    alloc: Global,
    line: &mut Vec<u8>,
    what: &Val,
    look: &mut Table,
) -> Result<(), AllocError> {
    let tree = data_in(alloc, Some(what))?;
    push_answer(alloc, line, &eval_tree(alloc, &tree, look))
}

fn push_condition(
    alloc: Global,
    line: &mut Vec<u8>,
    what: &Val,
    look: &mut Table,
) -> Result<(), AllocError> {
    let condition = condition_at(alloc, Some(what))?;
    match eval_cond(alloc, &condition, look) {
        Ok(holds) => line.extend_from_slice(if holds { b"true" } else { b"false" }),
        Err(fault) => push_fault(alloc, line, &fault),
    }
}

// Puts the line for a row of this name; a row that is a look replaces the one that there is.
fn push_named(
    alloc: Global,
    line: &mut Vec<u8>,
    name: &str,
    what: &Val,
    look: &mut Table,
) -> Result<(), AllocError> {
    look.drawn = 0;
    match (name, what) {
        ("look", Val::Obj(data)) => {
            look.take(alloc, data)?;
            return line.extend_from_slice(b"look");
        }
        ("text", _) => push_text(alloc, line, what, look)?,
        ("tree", _) => push_tree(alloc, line, what, look)?,
        ("condition", _) => push_condition(alloc, line, what, look)?,
        _ => return line.extend_from_slice(b"no row"),
    }
    push_drawn(alloc, line, look.drawn)
}

fn push_object(
    alloc: Global,
    line: &mut Vec<u8>,
    row: &Fields,
    look: &mut Table,
) -> Result<(), AllocError> {
    match row.as_slice() {
        [(name, what)] => push_named(alloc, line, name.as_str(), what, look),
        _ => line.extend_from_slice(b"no row"),
    }
}

fn push_row(
    alloc: Global,
    line: &mut Vec<u8>,
    row: &str,
    look: &mut Table,
) -> Result<(), AllocError> {
    match wf_json::read(alloc, row.as_bytes()) {
        Ok(Val::Obj(row)) => push_object(alloc, line, &row, look),
        Err(JsonFault::Memory) => Err(AllocError),
        _ => line.extend_from_slice(b"no row"),
    }
}

// Puts the lines that answer the rows.
fn push_rows(
    alloc: Global,
    lines: &mut Vec<u8>,
    rows: &str,
    look: &mut Table,
) -> Result<(), AllocError> {
    for row in rows.lines() {
        push_row(alloc, lines, row, look)?;
        lines.extend_from_slice(b"\n")?;
    }
    Ok(())
}

fn answers(alloc: Global, rows: &str) -> Result<Vec<u8>, AllocError> {
    let mut look = Table::empty(alloc);
    let mut lines = Vec::new(alloc);
    push_rows(alloc, &mut lines, rows, &mut look)?;
    Ok(lines)
}

fn main(rt: HostRuntime) -> io::Result<()> {
    let alloc = rt.alloc();
    let rows = io::read_to_string(alloc, rt.reader())?;
    io::writer(&rt).write_all(answers(alloc, rows.as_str())?.as_slice())
}
