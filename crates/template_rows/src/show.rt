//! Trees as texts.
//!
//! `plain "x"` is a text without expressions, `whole E` a text that is the expression E, and `parts "x" {E}` a text of
//! pieces. An expression is a literal in JSON; `(f E E)`, a call; or `(E .name ?["key"])`, accesses in a row behind
//! what they stand on, with `?` before a soft one.
use std::alloc::{AllocError, Global};
use wf_expr::ParseFault;
use wf_json::quoted;
use wf_template::{Access, Expr, Exprs, Piece, Pieces, Start, Template, chain_of};
use wf_val::{Text, Val};

// Above the greatest nesting of an expression: 64 brackets.
const LEVELS: u8 = 80;

// A literal as JSON.
fn literal(alloc: Global, value: &Val) -> Result<String, AllocError> {
    String::from_utf8(wf_json::write(alloc, value)?).map_err(|_| AllocError)
}

/// The template as a tree.
pub(crate) fn shown(alloc: Global, template: &Template) -> Result<String, AllocError> {
    let mut out = String::new(alloc);
    match template {
        Template::Plain(text) => {
            out.push_str("plain ")?;
            out.push_str(quoted(alloc, text.as_str())?.as_str())?;
        }
        Template::Whole(expression) => {
            out.push_str("whole ")?;
            show(alloc, &mut out, expression, LEVELS)?;
        }
        Template::Parts(pieces) => {
            out.push_str("parts")?;
            show_pieces(alloc, &mut out, pieces)?;
        }
    }
    Ok(out)
}

/// The fault and its number.
pub(crate) fn fault_shown(alloc: Global, fault: &ParseFault) -> Result<String, AllocError> {
    match fault {
        ParseFault::Syntax { at } => format!(in alloc; "Syntax {at}"),
        ParseFault::TooLong { length } => format!(in alloc; "TooLong {length}"),
        ParseFault::Memory => Err(AllocError),
    }
}

fn show_pieces(alloc: Global, out: &mut String, pieces: &Pieces) -> Result<(), AllocError> {
    for piece in pieces.as_slice() {
        out.push(' ')?;
        match piece {
            Piece::Lit(text) => out.push_str(quoted(alloc, text.as_str())?.as_str())?,
            Piece::Part(expression) => {
                out.push('{')?;
                show(alloc, out, expression, LEVELS)?;
                out.push('}')?;
            }
        }
    }
    Ok(())
}

// An expression in which at most so many calls and keys stand in one another.
#[cycle(show)]
fn show(alloc: Global, out: &mut String, expression: &Expr, levels: u8) -> Result<(), AllocError> {
    let Some(below) = levels.checked_sub(1) else {
        return out.push_str("too deep");
    };
    let chain = chain_of(alloc, expression)?;
    let mut accesses = chain.accesses;
    let has_accesses = !accesses.is_empty();
    if has_accesses {
        out.push('(')?;
    }
    show_start(alloc, out, chain.start, below)?;
    while let Some(access) = accesses.pop() {
        show_access(alloc, out, access, below)?;
    }
    if has_accesses {
        out.push(')')?;
    }
    Ok(())
}

#[cycle(show)]
fn show_start(alloc: Global, out: &mut String, start: Start, levels: u8) -> Result<(), AllocError> {
    match start {
        Start::Lit(value) => out.push_str(&literal(alloc, value)?),
        Start::Call { name, args } => show_call(alloc, out, name, args, levels),
    }
}

#[cycle(show)]
fn show_call(
    alloc: Global,
    out: &mut String,
    name: &Text,
    args: &Exprs,
    levels: u8,
) -> Result<(), AllocError> {
    out.push('(')?;
    out.push_str(name.as_str())?;
    for argument in args.as_slice() {
        out.push(' ')?;
        show(alloc, out, argument, levels)?;
    }
    out.push(')')
}

#[cycle(show)]
fn show_access(
    alloc: Global,
    out: &mut String,
    access: Access,
    levels: u8,
) -> Result<(), AllocError> {
    match access {
        Access::Member { name, soft } => {
            out.push_str(if soft { " ?." } else { " ." })?;
            out.push_str(name.as_str())
        }
        Access::Index { key, soft } => {
            out.push_str(if soft { " ?[" } else { " [" })?;
            show(alloc, out, key, levels)?;
            out.push(']')
        }
    }
}
