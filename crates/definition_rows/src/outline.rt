//! What a definition was read as, in a line.
//!
//! A graph is `[..]` with its actions. An action is its name, its number, its pointer, its kind with what that has, then `after` with the
//! name and the number of each action that it waits for and the letters of the statuses listed (S, F, K for Skipped, T for TimedOut, `-`
//! for none), then `tracked` with its tracked properties, where it has some. Behind the top graph stand the parameters, the values given
//! with the definition, the triggers and the outputs. What may be absent and is absent is `-`.
use crate::written::{push_cond, push_members, push_quoted, push_template, push_tree, push_value};
use std::alloc::{AllocError, Global};
use wf_def::{
    Action, After, Case, Cases, Graph, Initial, Initials, Kind, Output, Param, Sort, Statuses,
    Trigger,
};
use wf_reading::Def;
use wf_retry::Policy;
use wf_template::{Template, Tree};
use wf_val::{Fields, Name, Text, Val};

// Above the greatest level of an action: 8.
const LEVELS: u8 = 16;

/// All of a definition but its digest.
pub(crate) fn push_outline(alloc: Global, out: &mut String, def: &Def) -> Result<(), AllocError> {
    push_graph(alloc, out, &def.top, LEVELS)?;
    for param in def.parameters.as_slice() {
        push_param(alloc, out, param)?;
    }
    push_given(alloc, out, &def.given)?;
    for trigger in def.triggers.as_slice() {
        push_trigger(alloc, out, trigger)?;
    }
    for output in def.outputs.as_slice() {
        push_output(alloc, out, output)?;
    }
    Ok(())
}

fn push_number(alloc: Global, out: &mut String, number: u32) -> Result<(), AllocError> {
    push_value(alloc, out, &Val::Int(i64::from(number)))
}

fn push_optional_tree(
    alloc: Global,
    out: &mut String,
    tree: &Option<Tree>,
) -> Result<(), AllocError> {
    match tree {
        Some(tree) => push_tree(alloc, out, tree),
        None => out.push('-'),
    }
}

fn sort_word(sort: Sort) -> &'static str {
    match sort {
        Sort::Bool => "bool",
        Sort::Int => "int",
        Sort::Text => "text",
        Sort::List => "list",
        Sort::Obj => "obj",
    }
}

// ---- the sections beside the actions

fn push_param(alloc: Global, out: &mut String, param: &Param) -> Result<(), AllocError> {
    out.push_str(" parameter ")?;
    push_quoted(alloc, out, &param.name)?;
    out.push(' ')?;
    out.push_str(sort_word(param.sort))?;
    out.push(' ')?;
    match &param.default {
        Some(value) => push_value(alloc, out, value)?,
        None => out.push('-')?,
    }
    out.push(' ')?;
    match &param.allowed {
        Some(values) => push_value(alloc, out, &Val::List(values.copy(alloc)?)),
        None => out.push('-'),
    }
}

fn push_given(alloc: Global, out: &mut String, given: &Fields) -> Result<(), AllocError> {
    if given.as_slice().is_empty() {
        return Ok(());
    }
    out.push_str(" given ")?;
    push_value(alloc, out, &Val::Obj(given.copy(alloc)?))
}

fn push_trigger(alloc: Global, out: &mut String, trigger: &Trigger) -> Result<(), AllocError> {
    out.push_str(" trigger ")?;
    push_quoted(alloc, out, &trigger.name)?;
    out.push(' ')?;
    match &trigger.split {
        Some(template) => push_template(alloc, out, template)?,
        None => out.push('-')?,
    }
    push_conditions(alloc, out, trigger.conditions.as_slice())
}

fn push_conditions(
    alloc: Global,
    out: &mut String,
    conditions: &[Template],
) -> Result<(), AllocError> {
    out.push_str(" [")?;
    let mut is_first = true;
    for template in conditions {
        if !is_first {
            out.push_str(", ")?;
        }
        is_first = false;
        push_template(alloc, out, template)?;
    }
    out.push(']')
}

fn push_output(alloc: Global, out: &mut String, output: &Output) -> Result<(), AllocError> {
    out.push_str(" output ")?;
    push_quoted(alloc, out, &output.name)?;
    out.push(' ')?;
    push_tree(alloc, out, &output.value)
}

// ---- actions

// A graph in which containers stand in one another at most so deep.
#[cycle(outline)]
fn push_graph(
    alloc: Global,
    out: &mut String,
    graph: &Graph,
    levels: u8,
) -> Result<(), AllocError> {
    out.push('[')?;
    let mut is_first = true;
    for action in graph.actions.as_slice() {
        if !is_first {
            out.push_str(", ")?;
        }
        is_first = false;
        push_action(alloc, out, action, levels)?;
    }
    out.push(']')
}

#[cycle(outline)]
fn push_action(
    alloc: Global,
    out: &mut String,
    action: &Action,
    levels: u8,
) -> Result<(), AllocError> {
    push_quoted(alloc, out, &action.name)?;
    out.push(' ')?;
    push_number(alloc, out, action.number)?;
    out.push(' ')?;
    push_quoted(alloc, out, &action.pointer)?;
    out.push(' ')?;
    push_kind(alloc, out, &action.kind, levels)?;
    push_afters(alloc, out, action.after.as_slice())?;
    if !action.tracked.as_slice().is_empty() {
        out.push_str(" tracked ")?;
        push_members(alloc, out, &action.tracked)?;
    }
    Ok(())
}

fn push_afters(alloc: Global, out: &mut String, afters: &[After]) -> Result<(), AllocError> {
    for after in afters {
        out.push_str(" after ")?;
        push_quoted(alloc, out, &after.name)?;
        out.push(' ')?;
        push_number(alloc, out, after.number)?;
        out.push(' ')?;
        push_statuses(out, after.statuses)?;
    }
    Ok(())
}

fn push_statuses(out: &mut String, statuses: Statuses) -> Result<(), AllocError> {
    if statuses.succeeded {
        out.push('S')?;
    }
    if statuses.failed {
        out.push('F')?;
    }
    if statuses.skipped {
        out.push('K')?;
    }
    if statuses.timed_out {
        out.push('T')?;
    }
    if statuses.succeeded || statuses.failed || statuses.skipped || statuses.timed_out {
        return Ok(());
    }
    out.push('-')
}

#[cycle(outline)]
fn push_kind(alloc: Global, out: &mut String, kind: &Kind, levels: u8) -> Result<(), AllocError> {
    let Some(below) = levels.checked_sub(1) else {
        return out.push_str("too deep");
    };
    match kind {
        Kind::Scope { graph } => {
            out.push_str("scope ")?;
            push_graph(alloc, out, graph, below)
        }
        Kind::If { test, yes, no } => {
            out.push_str("if ")?;
            push_cond(alloc, out, test)?;
            out.push(' ')?;
            push_graph(alloc, out, yes, below)?;
            out.push(' ')?;
            push_graph(alloc, out, no, below)
        }
        Kind::Switch { on, cases, default } => {
            out.push_str("switch ")?;
            push_template(alloc, out, on)?;
            push_cases(alloc, out, cases, below)?;
            match default {
                Some(graph) => push_graph(alloc, out, graph, below),
                None => out.push('-'),
            }
        }
        Kind::Foreach {
            list,
            repetitions,
            graph,
        } => {
            out.push_str("foreach ")?;
            push_number(alloc, out, *repetitions)?;
            out.push(' ')?;
            push_tree(alloc, out, list)?;
            out.push(' ')?;
            push_graph(alloc, out, graph, below)
        }
        Kind::Until {
            test,
            count,
            fails,
            graph,
        } => {
            push_until(alloc, out, *count, *fails)?;
            push_cond(alloc, out, test)?;
            out.push(' ')?;
            push_graph(alloc, out, graph, below)
        }
        _ => push_leaf(alloc, out, kind),
    }
}

fn push_until(alloc: Global, out: &mut String, count: u32, fails: bool) -> Result<(), AllocError> {
    out.push_str("until ")?;
    push_number(alloc, out, count)?;
    out.push_str(if fails { " fails " } else { " " })
}

#[cycle(outline)]
fn push_cases(
    alloc: Global,
    out: &mut String,
    cases: &Cases,
    levels: u8,
) -> Result<(), AllocError> {
    out.push_str(" {")?;
    let mut is_first = true;
    for case in cases.as_slice() {
        if !is_first {
            out.push_str(", ")?;
        }
        is_first = false;
        push_case(alloc, out, case)?;
        push_graph(alloc, out, &case.graph, levels)?;
    }
    out.push_str("} ")
}

fn push_case(alloc: Global, out: &mut String, case: &Case) -> Result<(), AllocError> {
    push_quoted(alloc, out, &case.name)?;
    out.push(' ')?;
    push_value(alloc, out, &case.value)?;
    out.push(' ')
}

// ---- kinds that hold no graph

// A word and a tree.
fn push_one(alloc: Global, out: &mut String, word: &str, tree: &Tree) -> Result<(), AllocError> {
    out.push_str(word)?;
    out.push(' ')?;
    push_tree(alloc, out, tree)
}

// A word and two trees.
fn push_two(
    alloc: Global,
    out: &mut String,
    word: &str,
    one: &Tree,
    other: &Tree,
) -> Result<(), AllocError> {
    push_one(alloc, out, word, one)?;
    out.push(' ')?;
    push_tree(alloc, out, other)
}

// A word, the name of a variable and a tree.
fn push_set(
    alloc: Global,
    out: &mut String,
    word: &str,
    name: &Text,
    value: &Tree,
) -> Result<(), AllocError> {
    out.push_str(word)?;
    out.push(' ')?;
    push_quoted(alloc, out, name)?;
    out.push(' ')?;
    push_tree(alloc, out, value)
}

// A word, the name of a variable and perhaps a tree.
fn push_step(
    alloc: Global,
    out: &mut String,
    word: &str,
    name: &Text,
    value: &Option<Tree>,
) -> Result<(), AllocError> {
    out.push_str(word)?;
    out.push(' ')?;
    push_quoted(alloc, out, name)?;
    out.push(' ')?;
    push_optional_tree(alloc, out, value)
}

fn push_connector(
    alloc: Global,
    out: &mut String,
    policy: Policy,
    inputs: &Tree,
) -> Result<(), AllocError> {
    out.push_str("connector ")?;
    match policy {
        Policy::Standard => out.push_str("standard")?,
        Policy::Never => out.push_str("never")?,
        Policy::Count(count) => push_number(alloc, out, count)?,
    }
    out.push(' ')?;
    push_tree(alloc, out, inputs)
}

fn push_query(
    alloc: Global,
    out: &mut String,
    from: &Tree,
    filter: &Template,
) -> Result<(), AllocError> {
    push_one(alloc, out, "query", from)?;
    out.push(' ')?;
    push_template(alloc, out, filter)
}

fn push_initials(alloc: Global, out: &mut String, initials: &[Initial]) -> Result<(), AllocError> {
    out.push_str("initialize")?;
    for initial in initials {
        out.push(' ')?;
        push_quoted(alloc, out, &initial.name)?;
        out.push(' ')?;
        out.push_str(sort_word(initial.sort))?;
        out.push(' ')?;
        push_optional_tree(alloc, out, &initial.value)?;
    }
    Ok(())
}

fn push_parse_json(
    alloc: Global,
    out: &mut String,
    content: &Tree,
    has_schema: bool,
) -> Result<(), AllocError> {
    push_one(alloc, out, "parseJson", content)?;
    if has_schema {
        out.push_str(" schema")?;
    }
    Ok(())
}

fn push_leaf(alloc: Global, out: &mut String, kind: &Kind) -> Result<(), AllocError> {
    match kind {
        Kind::Compose { inputs } => push_one(alloc, out, "compose", inputs),
        Kind::Connector { inputs, policy } => push_connector(alloc, out, *policy, inputs),
        Kind::Wait { inputs } => push_one(alloc, out, "wait", inputs),
        Kind::Response { inputs } => push_one(alloc, out, "response", inputs),
        Kind::Terminate { inputs } => push_one(alloc, out, "terminate", inputs),
        Kind::Select { from, select } => push_two(alloc, out, "select", from, select),
        Kind::Query { from, filter } => push_query(alloc, out, from, filter),
        Kind::Join { from, with } => push_two(alloc, out, "join", from, with),
        Kind::ParseJson { content, schema } => {
            push_parse_json(alloc, out, content, schema.is_some())
        }
        Kind::Initialize { variables } => push_initials(alloc, out, variables.as_slice()),
        Kind::Set { name, value } => push_set(alloc, out, "set", name, value),
        Kind::Increment { name, value } => push_step(alloc, out, "increment", name, value),
        Kind::Decrement { name, value } => push_step(alloc, out, "decrement", name, value),
        Kind::AppendArray { name, value } => push_set(alloc, out, "appendArray", name, value),
        Kind::AppendString { name, value } => push_set(alloc, out, "appendString", name, value),
        _ => out.push_str("container"),
    }
}
