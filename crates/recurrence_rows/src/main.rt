//! Recurrences by rows: the next moments of each line's trigger.
//!
//! A row is a trigger as JSON, a timestamp and a number, with a tab between each two. Its answer is one of these:
//!
//! - the first moments from the timestamp on at which the trigger is due, so many at most, with a blank between each two;
//! - `none`, where there are none;
//! - `NotRecurrence`, `Form "/recurrence"` with the least place at which the trigger isn't of the form, or `Zone "W. Europe
//!   Standard Time"`, where it has no recurrence whose moments can be told;
//! - `unread`, where the parts of the row aren't of these kinds.
//!
//! A line that begins with `#` is a heading, and is written as it is. This program is no part of the engine.
#![tactic(auto)]

use std::alloc::{AllocError, Global};
use std::io::{self, Write};
use wf_fn_time::{Ticks, print_time, read_time};
use wf_json::JsonFault;
use wf_recur::{Recurrence, RecurrenceFault, fires};
use wf_val::{Fun, Text, Val};

// What a row asks for beside the trigger.
#[derive(Clone, Copy)]
struct Span {
    from: Ticks,
    count: u32,
}

// The parts of a row behind the trigger, where they are a timestamp and a number.
fn span_of(parts: &str) -> Option<Span> {
    let (from, count) = parts.split_once("\t")?;
    let from = read_time(from)?;
    let count = count.parse::<u32>().ok()?;
    Some(Span { from, count })
}

// Puts a word, and a text as a JSON text.
fn push_told(line: &mut Vec<u8>, word: &str, text: &Text) -> Result<(), AllocError> {
    line.extend_from_slice(word.as_bytes())?;
    line.push(b' ')?;
    wf_json::quote_to(line, text.as_str())
}

fn push_moment(alloc: Global, line: &mut Vec<u8>, moment: Ticks) -> Result<(), AllocError> {
    match print_time(alloc, moment, None, Fun::FormatDateTime) {
        Ok(Val::Text(text)) => line.extend_from_slice(text.as_str().as_bytes()),
        _ => Err(AllocError),
    }
}

fn push_moments(alloc: Global, line: &mut Vec<u8>, moments: &[Ticks]) -> Result<(), AllocError> {
    if moments.is_empty() {
        return line.extend_from_slice(b"none");
    }
    let mut is_first = true;
    for moment in moments {
        if !is_first {
            line.push(b' ')?;
        }
        is_first = false;
        push_moment(alloc, line, *moment)?;
    }
    Ok(())
}

// Puts when the trigger is due.
fn push_fires(
    alloc: Global,
    trigger: &Val,
    span: Span,
    line: &mut Vec<u8>,
) -> Result<(), AllocError> {
    match Recurrence::read(alloc, trigger) {
        Ok(recurrence) => {
            let moments = fires(alloc, &recurrence, span.from, span.count)?;
            push_moments(alloc, line, moments.as_slice())
        }
        Err(RecurrenceFault::NotRecurrence) => line.extend_from_slice(b"NotRecurrence"),
        Err(RecurrenceFault::Form { pointer }) => push_told(line, "Form", &pointer),
        Err(RecurrenceFault::Zone { name }) => push_told(line, "Zone", &name),
        Err(RecurrenceFault::Memory) => Err(AllocError),
    }
}

fn push_answer(alloc: Global, row: &str, line: &mut Vec<u8>) -> Result<(), AllocError> {
    let Some((trigger, parts)) = row.split_once("\t") else {
        return line.extend_from_slice(b"unread");
    };
    let Some(span) = span_of(parts) else {
        return line.extend_from_slice(b"unread");
    };
    match wf_json::read(alloc, trigger.as_bytes()) {
        Ok(trigger) => push_fires(alloc, &trigger, span, line),
        Err(JsonFault::Memory) => Err(AllocError),
        Err(_) => line.extend_from_slice(b"unread"),
    }
}

// The lines that answer the rows.
fn answers(alloc: Global, rows: &str) -> Result<Vec<u8>, AllocError> {
    let mut lines = Vec::new(alloc);
    for row in rows.lines() {
        if row.starts_with('#') {
            lines.extend_from_slice(row.as_bytes())?;
            lines.push(b'\n')?;
        } else if !row.is_empty() {
            push_answer(alloc, row, &mut lines)?;
            lines.push(b'\n')?;
        }
    }
    Ok(lines)
}

fn main(rt: HostRuntime) -> io::Result<()> {
    let alloc = rt.alloc();
    let rows = io::read_to_string(alloc, rt.reader())?;
    io::writer(&rt).write_all(answers(alloc, rows.as_str())?.as_slice())
}
