//! Schemas and values by rows: where each line's value fails the line's schema.
//!
//! A row is two JSON texts with a tab between: a schema, and a value. Its answer is one of these, where a pointer is
//! written as a JSON text:
//!
//! - `no schema "/type"`, with the least place at which the first is no schema;
//! - `fails "/id"`, with the least place at which the second fails the first;
//! - `passes`;
//! - `unread`, where there aren't two texts that spell values.
//!
//! A line that begins with `#` is a heading, and is written as it is. This program is no part of the engine.
#![tactic(auto)]

use std::alloc::{AllocError, Global};
use std::io::{self, Write};
use wf_json::JsonFault;
use wf_schema::{Schema, SchemaFault, mismatch};
use wf_val::{Text, Val};

// The value that a text spells, if any.
fn spelled(alloc: Global, text: &str) -> Result<Option<Val>, AllocError> {
    match wf_json::read(alloc, text.as_bytes()) {
        Ok(value) => Ok(Some(value)),
        Err(JsonFault::Memory) => Err(AllocError),
        Err(_) => Ok(None),
    }
}

// Puts a word, and a pointer as a JSON text.
fn push_told(line: &mut Vec<u8>, word: &str, pointer: &Text) -> Result<(), AllocError> {
    line.extend_from_slice(word.as_bytes())?;
    line.push(b' ')?;
    wf_json::quote_to(line, pointer.as_str())
}

// Puts how the value stands to the schema.
fn push_against(
    alloc: Global,
    schema: &Schema,
    value: &Val,
    line: &mut Vec<u8>,
) -> Result<(), AllocError> {
    match mismatch(alloc, schema, value)? {
        None => line.extend_from_slice(b"passes"),
        Some(pointer) => push_told(line, "fails", &pointer),
    }
}

fn push_judged(
    alloc: Global,
    schema: &Val,
    value: &Val,
    line: &mut Vec<u8>,
) -> Result<(), AllocError> {
    match Schema::read(alloc, schema) {
        Ok(schema) => push_against(alloc, &schema, value, line),
        Err(SchemaFault::Form { pointer }) => push_told(line, "no schema", &pointer),
        Err(SchemaFault::Memory) => Err(AllocError),
    }
}

// Puts the answer for a schema and the text of a value.
fn push_with(
    alloc: Global,
    schema: &Val,
    value: &str,
    line: &mut Vec<u8>,
) -> Result<(), AllocError> {
    match spelled(alloc, value)? {
        Some(value) => push_judged(alloc, schema, &value, line),
        None => line.extend_from_slice(b"unread"),
    }
}

fn push_answer(alloc: Global, row: &str, line: &mut Vec<u8>) -> Result<(), AllocError> {
    let Some((schema, value)) = row.split_once("\t") else {
        return line.extend_from_slice(b"unread");
    };
    match spelled(alloc, schema)? {
        Some(schema) => push_with(alloc, &schema, value, line),
        None => line.extend_from_slice(b"unread"),
    }
}

// The lines that answer the rows.
fn answers(alloc: Global, rows: &str) -> Result<Vec<u8>, AllocError> {
    let mut lines = Vec::new(alloc);
    for row in rows.lines() {
        if row.starts_with('#') {
            lines.extend_from_slice(row.as_bytes())?;
            lines.push(b'\n')?;
        } else if !row.is_empty() {
            push_answer(alloc, row, &mut lines)?;
            lines.push(b'\n')?;
        }
    }
    Ok(lines)
}

fn main(rt: HostRuntime) -> io::Result<()> {
    let alloc = rt.alloc();
    let rows = io::read_to_string(alloc, rt.reader())?;
    io::writer(&rt).write_all(answers(alloc, rows.as_str())?.as_slice())
}
