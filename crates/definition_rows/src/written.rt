//! Values, templates, trees and conditions as they stand in an outline.
//!
//! A value is its JSON text. So is a tree, with `@` for a text that is one expression and `@{}` for a text with expressions in it.
//! A condition is a text, or `and(..)`, `or(..)`, `not(..)` or the name of a function with what it compares.
use std::alloc::{AllocError, Global};
use wf_template::{Cond, Conds, Template, Tree, TreeFields, Trees};
use wf_val::{Text, Val};

// Above the greatest nesting of a value that is read: 120.
const LEVELS: u8 = 128;

pub(crate) fn push_quoted(alloc: Global, out: &mut String, text: &Text) -> Result<(), AllocError> {
    out.push_str(wf_json::quoted(alloc, text.as_str())?.as_str())
}

pub(crate) fn push_value(alloc: Global, out: &mut String, value: &Val) -> Result<(), AllocError> {
    let text = String::from_utf8(wf_json::write(alloc, value)?).map_err(|_| AllocError)?;
    out.push_str(text.as_str())
}

pub(crate) fn push_template(
    alloc: Global,
    out: &mut String,
    template: &Template,
) -> Result<(), AllocError> {
    match template {
        Template::Plain(text) => push_quoted(alloc, out, text),
        Template::Whole(_) => out.push('@'),
        Template::Parts(_) => out.push_str("@{}"),
    }
}

pub(crate) fn push_tree(alloc: Global, out: &mut String, tree: &Tree) -> Result<(), AllocError> {
    push_tree_within(alloc, out, tree, LEVELS)
}

#[cycle(tree)]
fn push_tree_within(
    alloc: Global,
    out: &mut String,
    tree: &Tree,
    levels: u8,
) -> Result<(), AllocError> {
    match (tree, levels.checked_sub(1)) {
        (Tree::Null, _) => out.push_str("null"),
        (Tree::Bool(truth), _) => out.push_str(if *truth { "true" } else { "false" }),
        (Tree::Int(number), _) => push_value(alloc, out, &Val::Int(*number)),
        (Tree::Text(template), _) => push_template(alloc, out, template),
        (Tree::List(items), Some(below)) => push_items(alloc, out, items, below),
        (Tree::Obj(fields), Some(below)) => push_fields(alloc, out, fields, below),
        _ => out.push_str("too deep"),
    }
}

#[cycle(tree)]
fn push_items(
    alloc: Global,
    out: &mut String,
    items: &Trees,
    levels: u8,
) -> Result<(), AllocError> {
    out.push('[')?;
    let mut is_first = true;
    for item in items.as_slice() {
        if !is_first {
            out.push(',')?;
        }
        is_first = false;
        push_tree_within(alloc, out, item, levels)?;
    }
    out.push(']')
}

#[cycle(tree)]
fn push_fields(
    alloc: Global,
    out: &mut String,
    fields: &TreeFields,
    levels: u8,
) -> Result<(), AllocError> {
    out.push('{')?;
    let mut is_first = true;
    for member in fields.as_slice() {
        if !is_first {
            out.push(',')?;
        }
        is_first = false;
        push_quoted(alloc, out, &member.0)?;
        out.push(':')?;
        push_tree_within(alloc, out, &member.1, levels)?;
    }
    out.push('}')
}

/// The members of an object whose texts are templates.
pub(crate) fn push_members(
    alloc: Global,
    out: &mut String,
    fields: &TreeFields,
) -> Result<(), AllocError> {
    push_fields(alloc, out, fields, LEVELS)
}

pub(crate) fn push_cond(alloc: Global, out: &mut String, cond: &Cond) -> Result<(), AllocError> {
    push_cond_within(alloc, out, cond, LEVELS)
}

#[cycle(cond)]
fn push_cond_within(
    alloc: Global,
    out: &mut String,
    cond: &Cond,
    levels: u8,
) -> Result<(), AllocError> {
    match (cond, levels.checked_sub(1)) {
        (Cond::Text(template), _) => push_template(alloc, out, template),
        (Cond::And(conditions), Some(below)) => { push_conds(alloc, out, "and", conditions, below) }
        (Cond::Or(conditions), Some(below)) => push_conds(alloc, out, "or", conditions, below),
        (Cond::Not(condition), Some(below)) => {
            out.push_str("not(")?;
            push_cond_within(alloc, out, condition, below)?;
            out.push(')')
        }
        (Cond::Compare { fun, left, right }, _) => {
            push_compared(alloc, out, fun.name(), left, right)
        }
        _ => out.push_str("too deep"),
    }
}

#[cycle(cond)]
fn push_conds(
    alloc: Global,
    out: &mut String,
    word: &str,
    conditions: &Conds,
    levels: u8,
) -> Result<(), AllocError> {
    out.push_str(word)?;
    out.push('(')?;
    let mut is_first = true;
    for condition in conditions.as_slice() {
        if !is_first {
            out.push(',')?;
        }
        is_first = false;
        push_cond_within(alloc, out, condition, levels)?;
    }
    out.push(')')
}

fn push_compared(
    alloc: Global,
    out: &mut String,
    name: &str,
    left: &Tree,
    right: &Tree,
) -> Result<(), AllocError> {
    out.push_str(name)?;
    out.push('(')?;
    push_tree(alloc, out, left)?;
    out.push(',')?;
    push_tree(alloc, out, right)?;
    out.push(')')
}
