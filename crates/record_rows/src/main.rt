//! Records by rows: which record the value of each line is, or why it is none.
//!
//! A row is a JSON text. Its answer is one of these, where a pointer is written as a JSON text:
//!
//! - the line of the record, as it is written again: in form 2, also where the row is of form 1;
//! - `Version N`, with the number of a form that isn't known;
//! - `Form "/run"`, with the least place at which the value isn't of its form;
//! - `unread`, where the text spells no value.
//!
//! A line that begins with `#` is a heading, and is written as it is. The records are those of worked runs of every kind of action, and
//! each is followed by copies in which a member, an item or two were changed at random; what is owed was decided apart from the program,
//! by `fuzz/histories.py`. This program is no part of the engine.
#![tactic(auto)]

use std::alloc::{AllocError, Global};
use std::io::{self, Write};
use wf_json::JsonFault;
use wf_record::record_line;
use wf_record_form::{RecordFault, of_val};
use wf_val::Val;

// Puts the line of the record that a value is, or of why it is none.
fn push_read_back(alloc: Global, value: &Val, line: &mut Vec<u8>) -> Result<(), AllocError> {
    match of_val(alloc, value) {
        Ok(record) => line.extend_from_slice(record_line(alloc, &record)?.as_slice()),
        Err(RecordFault::Version { number }) => {
            line.extend_from_slice(format!(in alloc; "Version {number}\n")?.as_bytes())
        }
        Err(RecordFault::Form { pointer }) => {
            line.extend_from_slice(b"Form ")?;
            wf_json::quote_to(line, pointer.as_str())?;
            line.extend_from_slice(b"\n")
        }
        Err(RecordFault::Memory) => Err(AllocError),
    }
}

fn push_answer(alloc: Global, row: &str, line: &mut Vec<u8>) -> Result<(), AllocError> {
    match wf_json::read(alloc, row.as_bytes()) {
        Ok(value) => push_read_back(alloc, &value, line),
        Err(JsonFault::Memory) => Err(AllocError),
        Err(_) => line.extend_from_slice(b"unread\n"),
    }
}

// The lines that answer the rows.
fn answers(alloc: Global, rows: &str) -> Result<Vec<u8>, AllocError> {
    let mut lines = Vec::new(alloc);
    for row in rows.lines() {
        if row.starts_with('#') {
            lines.extend_from_slice(row.as_bytes())?;
            lines.push(b'\n')?;
        } else if !row.is_empty() {
            push_answer(alloc, row, &mut lines)?;
        }
    }
    Ok(lines)
}

fn main(rt: HostRuntime) -> io::Result<()> {
    let alloc = rt.alloc();
    let rows = io::read_to_string(alloc, rt.reader())?;
    io::writer(&rt).write_all(answers(alloc, rows.as_str())?.as_slice())
}
