//! Templates by rows: what each text of the standard input spells, in a line for each.
//!
//! A row is a line of JSON: a text, or a list of texts in which a number says how often the text behind it stands, so
//! that `["@1",4095,".a"]` is a text of 8,192 characters. Its answer is four columns with tabs between, or a fault:
//!
//! 1. the tree that the text spells;
//! 2. the tree of its copy, or `=` where it is the same;
//! 3. the text that is printed of it, as JSON;
//! 4. what that text spells, or `=` where it is the same tree.
//!
//! `show` says how a tree is written. A column of more than 400 bytes is told by their number and their SHA-256 digest.
//! A line that begins with `#` is a heading, and is written as it is.
//!
//! With the word `parse` or `read` the whole input is one text instead, for `bench/bench.sh`, which times it: `parse`
//! says what it spells, and `read` how many bytes it has.
#![tactic(auto)]

mod print;
mod row;
mod show;

use crate::print::printed;
use crate::row::text_of_row;
use crate::show::{fault_shown, shown};
use sha2::{Digest as _, Sha256};
use std::alloc::{AllocError, Global};
use std::io::{ErrorKind, Write};
use std::{env, io};
use wf_expr::{ParseFault, parse_template};
use wf_json::quoted;
use wf_template::Template;
use wf_val::Text;

// The longest column that is written as it is, in bytes.
const LONGEST: usize = 400;

// The column, or its length and digest where it is long.
fn push_column(alloc: Global, line: &mut String, column: &str) -> Result<(), AllocError> {
    if column.len() <= LONGEST {
        return line.push_str(column);
    }
    let digest = hex::encode(alloc, Sha256::digest(column.as_bytes()))?;
    line.push_str(&format!(in alloc; "{} bytes {digest}", column.len())?)
}

// The column, or `=` where it is the same as the first one.
fn push_same(
    alloc: Global,
    line: &mut String,
    first: &str,
    column: &str,
) -> Result<(), AllocError> {
    line.push('\t')?;
    if column == first {
        line.push('=')
    } else {
        push_column(alloc, line, column)
    }
}

// What the text spells: its tree, or its fault.
fn spelled(alloc: Global, text: &Text) -> Result<String, AllocError> {
    match parse_template(alloc, text) {
        Ok(template) => shown(alloc, &template),
        Err(fault) => fault_shown(alloc, &fault),
    }
}

fn shown_copy(alloc: Global, template: &Template) -> Result<String, AllocError> {
    let copy = template.copy(alloc)?;
    shown(alloc, &copy)
}

fn push_copy(
    alloc: Global,
    line: &mut String,
    template: &Template,
    tree: &str,
) -> Result<(), AllocError> {
    let copy = shown_copy(alloc, template)?;
    push_same(alloc, line, tree, copy.as_str())
}

fn push_text(alloc: Global, line: &mut String, text: &Text) -> Result<(), AllocError> {
    let text = quoted(alloc, text.as_str())?;
    line.push_str("\t")?;
    push_column(alloc, line, text.as_str())
}

fn push_again(alloc: Global, line: &mut String, text: &Text, tree: &str) -> Result<(), AllocError> {
    let again = spelled(alloc, text)?;
    push_same(alloc, line, tree, again.as_str())
}

// Puts the four columns of a template.
fn push_columns(alloc: Global, line: &mut String, template: &Template) -> Result<(), AllocError> {
    let tree = shown(alloc, template)?;
    push_column(alloc, line, tree.as_str())?;
    push_copy(alloc, line, template, tree.as_str())?;
    let text = printed(alloc, template)?;
    push_text(alloc, line, &text)?;
    push_again(alloc, line, &text, tree.as_str())
}

fn push_fault(alloc: Global, line: &mut String, fault: &ParseFault) -> Result<(), AllocError> {
    let fault = fault_shown(alloc, fault)?;
    line.push_str(fault.as_str())
}

// Puts the answer to a row, or a heading as it is.
fn push_answer(alloc: Global, line: &mut String, row: &str) -> Result<(), AllocError> {
    if row.starts_with('#') {
        return line.push_str(row);
    }
    let Some(text) = text_of_row(alloc, row)? else {
        return line.push_str("no row");
    };
    match parse_template(alloc, &text) {
        Ok(template) => push_columns(alloc, line, &template),
        Err(fault) => push_fault(alloc, line, &fault),
    }
}

// The lines that answer the rows.
fn answers(alloc: Global, rows: &str) -> Result<String, AllocError> {
    let mut lines = String::new(alloc);
    for row in rows.lines() {
        push_answer(alloc, &mut lines, row)?;
        lines.push_str("\n")?;
    }
    Ok(lines)
}

// What kind of template the text spells, in a word.
fn kind_of(alloc: Global, text: &Text) -> Result<String, AllocError> {
    match parse_template(alloc, text) {
        Ok(Template::Plain(_)) => String::from_str(alloc, "plain"),
        Ok(Template::Whole(_)) => String::from_str(alloc, "whole"),
        Ok(Template::Parts(pieces)) => format!(in alloc; "parts {}", pieces.len()),
        Err(ParseFault::Memory) => Err(AllocError),
        Err(fault) => fault_shown(alloc, &fault),
    }
}

fn answer_rows(rt: &HostRuntime) -> io::Result<()> {
    let alloc = rt.alloc();
    let rows = io::read_to_string(alloc, rt.reader())?;
    let lines = answers(alloc, rows.as_str())?;
    io::writer(rt).write_all(lines.as_bytes())
}

// Answers the whole input as one text.
fn answer_text(rt: &HostRuntime, word: &str) -> io::Result<()> {
    let alloc = rt.alloc();
    let text = io::read_to_string(alloc, rt.reader())?;
    match word {
        "read" => println!(rt; "bytes {}", text.len()),
        "parse" => {
            let said = kind_of(alloc, &Text::from_string(text))?;
            println!(rt; "{said}")
        }
        _ => Err(io::Error::from(ErrorKind::InvalidInput)),
    }
}

fn main(rt: HostRuntime) -> io::Result<()> {
    match env::args(&rt)?.nth(1) {
        Some(word) => answer_text(&rt, word.as_str()),
        None => answer_rows(&rt),
    }
}
