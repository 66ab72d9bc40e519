//! Values and their JSON texts by rows: what each line of the standard input means, in a line for each.
//!
//! A row is the bytes of a JSON text, or it begins with one of the words of `bytes_of_row`, by which a short row stands
//! for a long text or for one that has a line's end in it. Its answer is seven columns with tabs between, or a fault
//! with its pointer, as `NotWhole "/a"`:
//!
//! 1. how deep the value nests;
//! 2. its weight;
//! 3. `fits`, or `big` where no expression may have it;
//! 4. `<`, `=` or `>`, as it stands to the value before it among the rows, or `-` at the first;
//! 5. the JSON text of the value;
//! 6. the value as text, as a JSON text, or `=` where that is the same;
//! 7. `=` where a copy, and what is read again from the JSON text, are the value, and else `lost`.
//!
//! A column of more than 400 bytes is told by their number and their SHA-256 digest. A line that begins with `#` is a
//! heading, and is written as it is. This program is no part of the engine.
#![tactic(auto)]

mod columns;
mod row;

use crate::columns::push_columns;
use crate::row::bytes_of_row;
use std::alloc::{AllocError, Global};
use std::io::{self, Read, Write};
use wf_json::JsonFault;
use wf_val::{Text, Val};

// Puts a fault, with its pointer as a JSON text.
fn push_pointed(line: &mut Vec<u8>, word: &str, pointer: &Text) -> Result<(), AllocError> {
    line.extend_from_slice(word.as_bytes())?;
    line.push(b' ')?;
    wf_json::quote_to(line, pointer.as_str())
}

fn push_fault(line: &mut Vec<u8>, fault: &JsonFault) -> Result<(), AllocError> {
    match fault {
        JsonFault::NotJson => line.extend_from_slice(b"NotJson"),
        JsonFault::NotWhole { pointer } => push_pointed(line, "NotWhole", pointer),
        JsonFault::TooDeep { pointer } => push_pointed(line, "TooDeep", pointer),
        JsonFault::Memory => Err(AllocError),
    }
}

// Puts the answer to a row, whose value is then the last one.
fn push_answer(
    alloc: Global,
    row: &[u8],
    last: &mut Option<Val>,
    line: &mut Vec<u8>,
) -> Result<(), AllocError> {
    match wf_json::read(alloc, bytes_of_row(alloc, row)?.as_slice()) {
        Ok(value) => {
            push_columns(alloc, line, &value, last)?;
            *last = Some(value);
            Ok(())
        }
        Err(fault) => push_fault(line, &fault),
    }
}

// The lines that answer the rows.
fn answers(alloc: Global, rows: &[u8]) -> Result<Vec<u8>, AllocError> {
    let mut lines = Vec::new(alloc);
    let mut last = None;
    for row in rows.split(|byte| *byte == b'\n') {
        if row.is_empty() {
            continue;
        }
        if row.starts_with(b"#") {
            lines.extend_from_slice(row)?;
        } else {
            push_answer(alloc, row, &mut last, &mut lines)?;
        }
        lines.push(b'\n')?;
    }
    Ok(lines)
}

fn main(rt: HostRuntime) -> io::Result<()> {
    let alloc = rt.alloc();
    let mut rows = Vec::new(alloc);
    rt.reader().read_to_end(&mut rows)?;
    io::writer(&rt).write_all(answers(alloc, rows.as_slice())?.as_slice())
}
