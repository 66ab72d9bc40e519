//! Definitions by rows: what the file of each line of the standard input is read as, or which rule it breaks, in a line for each.
//!
//! A row is the JSON text of a file, in either of its two forms, or `times` and parts with ` | ` between, for a file that is long: the
//! second part, the fourth and so on begin with a number, and what follows it stands so many times, with commas between. In it `$` is the
//! number of the time, from `000`.
//!
//! The answer is the line that refuses the file, as `definition V6 "/actions/A"`; or three columns with tabs between:
//!
//! 1. `read` and how many actions there are;
//! 2. the digest of the definition;
//! 3. what was read, as `outline` tells it; of more than 400 bytes their number and their SHA-256 digest.
//!
//! A row behind the word `check` is judged by the rules on names too: the answer is the line that refuses the file, or `accepted` and how
//! many actions there are.
//!
//! A line that begins with `#` is a heading, and is written as it is.
//!
//! The rows are data: a new row is proved by nothing and proves nothing anew. This program is no part of the engine.
#![tactic(auto)]

mod outline;
mod row;
mod written;

use crate::outline::push_outline;
use crate::row::file_of_row;
use crate::written::push_quoted;
use sha2::{Digest as _, Sha256};
use std::alloc::{AllocError, Global};
use std::io::{self, Write};
use wf_json::JsonFault;
use wf_reading::{Def, RuleFault, read_def};
use wf_rules::check;
use wf_val::{Text, Val};

// The longest outline that is written as it is, in bytes.
const LONGEST: usize = 400;

// Puts the line of a fault at a place.
fn push_refused(
    alloc: Global,
    lines: &mut String,
    fault: &str,
    pointer: &Text,
) -> Result<(), AllocError> {
    lines.push_str("definition ")?;
    lines.push_str(fault)?;
    lines.push_str(" ")?;
    push_quoted(alloc, lines, pointer)
}

fn push_json_fault(alloc: Global, lines: &mut String, fault: &JsonFault) -> Result<(), AllocError> {
    match fault {
        JsonFault::NotJson => lines.push_str("definition NotJson"),
        JsonFault::NotWhole { pointer } => push_refused(alloc, lines, "NotWhole", pointer),
        JsonFault::TooDeep { pointer } => push_refused(alloc, lines, "TooDeep", pointer),
        JsonFault::Memory => Err(AllocError),
    }
}

// Puts the line of a broken rule.
fn push_broken(alloc: Global, lines: &mut String, fault: &RuleFault) -> Result<(), AllocError> {
    match fault {
        RuleFault::Rule { rule, pointer } => {
            let name = format!(in alloc; "V{rule}")?;
            push_refused(alloc, lines, name.as_str(), pointer)
        }
        RuleFault::Memory => Err(AllocError),
    }
}

// Puts a word and how many actions there are.
fn push_count(alloc: Global, lines: &mut String, word: &str, def: &Def) -> Result<(), AllocError> {
    let count = def.top.names(alloc)?.len();
    let told = format!(in alloc; "{word} {count}")?;
    lines.push_str(told.as_str())
}

fn push_digest(alloc: Global, lines: &mut String, def: &Def) -> Result<(), AllocError> {
    let digest = hex::encode(alloc, def.digest.bytes)?;
    lines.push_str(digest.as_str())
}

// Puts the outline, or its length and digest where it is long.
fn push_shortened(alloc: Global, lines: &mut String, outline: &str) -> Result<(), AllocError> {
    if outline.len() <= LONGEST {
        return lines.push_str(outline);
    }
    let digest = hex::encode(alloc, Sha256::digest(outline.as_bytes()))?;
    let told = format!(in alloc; "{} bytes {digest}", outline.len())?;
    lines.push_str(told.as_str())
}

// Puts the three columns of a definition.
fn push_columns(alloc: Global, lines: &mut String, def: &Def) -> Result<(), AllocError> {
    push_count(alloc, lines, "read", def)?;
    lines.push_str("\t")?;
    push_digest(alloc, lines, def)?;
    lines.push_str("\t")?;
    let mut outline = String::new(alloc);
    push_outline(alloc, &mut outline, def)?;
    push_shortened(alloc, lines, outline.as_str())
}

// Puts the answer to a definition that is checked.
fn push_checked(alloc: Global, lines: &mut String, def: Def) -> Result<(), AllocError> {
    match check(alloc, def) {
        Ok(accepted) => push_count(alloc, lines, "accepted", &accepted.def),
        Err(fault) => push_broken(alloc, lines, &fault),
    }
}

fn push_definition(
    alloc: Global,
    lines: &mut String,
    value: &Val,
    is_checked: bool,
) -> Result<(), AllocError> {
    match read_def(alloc, value) {
        Ok(def) if is_checked => push_checked(alloc, lines, def),
        Ok(def) => push_columns(alloc, lines, &def),
        Err(fault) => push_broken(alloc, lines, &fault),
    }
}

fn push_file(
    alloc: Global,
    lines: &mut String,
    file: &str,
    is_checked: bool,
) -> Result<(), AllocError> {
    match wf_json::read(alloc, file.as_bytes()) {
        Ok(value) => push_definition(alloc, lines, &value, is_checked),
        Err(fault) => push_json_fault(alloc, lines, &fault),
    }
}

fn push_row(
    alloc: Global,
    lines: &mut String,
    row: &str,
    is_checked: bool,
) -> Result<(), AllocError> {
    match file_of_row(alloc, row)? {
        Some(file) => push_file(alloc, lines, file.as_str(), is_checked),
        None => lines.push_str("no row"),
    }
}

// Puts the line for a row, or a heading as it is.
fn push_answer(alloc: Global, lines: &mut String, row: &str) -> Result<(), AllocError> {
    if row.starts_with('#') {
        return lines.push_str(row);
    }
    match row.strip_prefix("check ") {
        Some(row) => push_row(alloc, lines, row, true),
        None => push_row(alloc, lines, row, false),
    }
}

// The lines that answer the rows.
fn answers(alloc: Global, rows: &str) -> Result<String, AllocError> {
    let mut lines = String::new(alloc);
    for row in rows.lines() {
        push_answer(alloc, &mut lines, row)?;
        lines.push_str("\n")?;
    }
    Ok(lines)
}

fn main(rt: HostRuntime) -> io::Result<()> {
    let alloc = rt.alloc();
    let rows = io::read_to_string(alloc, rt.reader())?;
    io::writer(&rt).write_all(answers(alloc, rows.as_str())?.as_bytes())
}
