//! Graphs of actions.
ghost use Rattle.std.specs.Prelude.{◌≡◌, ◌++◌, IfOk, map, option_map, codes, unwrap_or};
ghost use Rattle.wf_val.specs.Seen.{tree};
ghost use Rattle.wf_val.specs.ValueTree.{members};
ghost use Rattle.wf_template.specs.DataSeen.{data_tree};
ghost use Rattle.wf_form.specs.Pointer.{member_step};
ghost use Rattle.wf_def.specs.ActionTree.{no_actions};
ghost use Rattle.wf_def.specs.ActionSeen.{action_tree, actions_seen, case_tree, cases_seen, graph_tree, kind_tree};
ghost use Rattle.wf_reading.specs.Graphs.{action_of, actions_of, branch_in, branch_of, case_of, cases_in, cases_of, count_of, each_case, graph_in, graph_of, has_option, kind_at, kind_with, number_in, repetitions_of, switch_of, tracked_in, value_in, within};
ghost use Rattle.wf_reading.specs.Numbers.{number_among};

use crate::afters::afters_of;
use crate::numbers::Numbers;
use std::alloc::{AllocError, Global};
use wf_def::{Action, Actions, Case, Cases, Graph, Kind};
use wf_form::pointer::step_to;
use wf_leaves::{
    ActionType, condition_at, data_in, leaf_of, limit, lists_option, members_of, nothing,
    repetitions, str_in, template_at,
};
use wf_template::TreeFields;
use wf_val::{Fields, Text, Val};

fn has_option(word: &str, action: &Val) -> bool
    ensures { result ≡ has_option word.now (tree action.now) }
{
    lists_option(word, str_in(action.member("operationOptions")))
}

fn within(least: u32, most: u32, absent: u32, number: i64) -> u32
    ensures { result ≡ within least most absent number }
{
    if least as i64 <= number && number <= most as i64 {
        number as u32
    } else {
        absent
    }
}

// A whole number between two, or what stands for one that is absent.
fn number_in(least: u32, most: u32, absent: u32, value: Option<&Val>) -> u32
    ensures { result ≡ number_in least most absent (option_map (λ v. tree v.now) value.entry) }
{
    match value {
        Some(Val::Int(number)) => within(least, most, absent, *number),
        _ => absent,
    }
}

// How many iterations of a Foreach go at a time.
fn repetitions_of(action: &Val) -> u32
    ensures { result ≡ repetitions_of (tree action.now) }
{
    if has_option("Sequential", action) {
        1
    } else {
        number_in(1, 50, 20, repetitions(action))
    }
}

// How many iterations an Until has at most.
fn count_of(action: &Val) -> u32
    ensures { result ≡ count_of (tree action.now) }
{
    number_in(1, 5000, 60, limit(action, "count"))
}

// The pointer to a member.
fn pointer_to(alloc: Global, prefix: &str, key: &str) -> Result<Text, AllocError>
    ensures { IfOk result (λ p. p ≡ prefix.now ++ member_step key.now) }
{
    let mut pointer = String::from_str(alloc, prefix)?;
    pointer.push_str(step_to(alloc, key)?.as_str())?;
    Ok(Text::from_string(pointer))
}

pub(crate) fn no_actions(alloc: Global) -> Graph
    ensures { graph_tree result ≡ no_actions }
{
    Graph::of(Actions::new(alloc))
}

fn or_no_actions(alloc: Global, graph: Option<Graph>) -> Graph
    ensures { graph_tree result ≡ unwrap_or (option_map graph_tree graph) no_actions }
{
    match graph {
        Some(graph) => graph,
        None => no_actions(alloc),
    }
}

// The member `trackedProperties`.
#[tactic(auto, using(wf_val::proofs::ValueTreeLemmas::listed))]
fn tracked_in(alloc: Global, value: Option<&Val>) -> Result<TreeFields, AllocError>
    ensures { IfOk result (λ t. t ≡ tracked_in (option_map (λ v. tree v.now) value.entry)) }
{
    match value {
        Some(Val::Obj(fields)) => members_of(alloc, fields),
        _ => Ok(TreeFields::new(alloc)),
    }
}

// A value, or null where there is none.
fn value_in(alloc: Global, value: Option<&Val>) -> Result<Val, AllocError>
    ensures { IfOk result (λ v. tree v ≡ value_in (option_map (λ v. tree v.now) value.entry)) }
{
    match value {
        Some(value) => value.copy(alloc),
        None => Ok(Val::Null),
    }
}

/// The graph that a value is; its place has the pointer `prefix`.
#[cycle(graph)]
pub(crate) fn graph_of(
    alloc: Global,
    numbers: &Numbers<'_>,
    prefix: &str,
    value: &Val,
) -> Result<Graph, AllocError>
    ensures { IfOk result (λ g. graph_tree g ≡ graph_of (number_among numbers.now) prefix.now (tree value.now)) }
{
    match value {
        Val::Obj(fields) => Ok(Graph::of(actions_of(alloc, numbers, prefix, fields)?)),
        _ => Ok(no_actions(alloc)),
    }
}

#[cycle(graph)]
fn actions_of(
    alloc: Global,
    numbers: &Numbers<'_>,
    prefix: &str,
    fields: &Fields,
) -> Result<Actions, AllocError>
    ensures { IfOk result (λ found. actions_seen found ≡ actions_of (number_among numbers.now) prefix.now (members fields.now)) }
{
    let mut actions = Actions::new(alloc);
    for (key, member) in fields.as_slice() {
        let pointer = pointer_to(alloc, prefix, key.as_str())?;
        actions.push(action_of(alloc, numbers, pointer, key, member)?)?;
    }
    Ok(actions)
}

#[cycle(graph)]
fn action_of(
    alloc: Global,
    numbers: &Numbers<'_>,
    pointer: Text,
    key: &Text,
    value: &Val,
) -> Result<Action, AllocError>
    ensures { IfOk result (λ a. action_tree a ≡ action_of (number_among numbers.now) pointer key.now (tree value.now)) }
{
    let kind = kind_at(alloc, numbers, pointer.as_str(), value)?;
    let after = afters_of(alloc, numbers, value.member("runAfter"))?;
    let tracked = tracked_in(alloc, value.member("trackedProperties"))?;
    Ok(Action {
        name: key.copy(alloc)?,
        number: numbers.of_name(key),
        pointer,
        after,
        kind,
        tracked,
    })
}

#[cycle(graph)]
fn kind_at(
    alloc: Global,
    numbers: &Numbers<'_>,
    pointer: &str,
    value: &Val,
) -> Result<Kind, AllocError>
    ensures { IfOk result (λ k. kind_tree k ≡ kind_at (number_among numbers.now) pointer.now (tree value.now)) }
{
    match value {
        Val::Obj(fields) => match ActionType::of(value) {
            Some(action_type) => kind_of(alloc, numbers, action_type, pointer, value, fields),
            None => Ok(nothing()),
        },
        _ => Ok(nothing()),
    }
}

#[cycle(graph)]
fn kind_of(
    alloc: Global,
    numbers: &Numbers<'_>,
    action_type: ActionType,
    pointer: &str,
    value: &Val,
    fields: &Fields,
) -> Result<Kind, AllocError>
    ensures { IfOk result (λ k. kind_tree k ≡ kind_with (Some action_type) (tree value.now)
        (graph_in (number_among numbers.now) (codes "actions") pointer.now (members fields.now))
        (branch_in (number_among numbers.now) (codes "else") pointer.now (members fields.now))
        (cases_in (number_among numbers.now) (codes "cases") pointer.now (members fields.now))
        (branch_in (number_among numbers.now) (codes "default") pointer.now (members fields.now))) }
{
    match action_type {
        ActionType::Scope => Ok(Kind::Scope {
            graph: graph_in(alloc, numbers, "actions", pointer, fields)?,
        }),
        ActionType::If => {
            let test = condition_at(alloc, value.member("expression"))?;
            let yes = graph_in(alloc, numbers, "actions", pointer, fields)?;
            let no = or_no_actions(alloc, branch_in(alloc, numbers, "else", pointer, fields)?);
            Ok(Kind::If { test, yes, no })
        }
        ActionType::Switch => Ok(Kind::Switch {
            on: template_at(alloc, value.member("expression"))?,
            cases: cases_in(alloc, numbers, "cases", pointer, fields)?,
            default: branch_in(alloc, numbers, "default", pointer, fields)?,
        }),
        ActionType::Foreach => Ok(Kind::Foreach {
            list: data_in(alloc, value.member("foreach"))?,
            repetitions: repetitions_of(value),
            graph: graph_in(alloc, numbers, "actions", pointer, fields)?,
        }),
        ActionType::Until => Ok(Kind::Until {
            test: condition_at(alloc, value.member("expression"))?,
            count: count_of(value),
            fails: has_option("FailWhenLimitsReached", value),
            graph: graph_in(alloc, numbers, "actions", pointer, fields)?,
        }),
        leaf => leaf_of(alloc, leaf, value),
    }
}

#[cycle(graph)]
fn graph_in(
    alloc: Global,
    numbers: &Numbers<'_>,
    key: &str,
    prefix: &str,
    fields: &Fields,
) -> Result<Graph, AllocError>
    ensures { IfOk result (λ g. graph_tree g ≡ graph_in (number_among numbers.now) key.now prefix.now (members fields.now)) }
{
    match fields.member(key) {
        Some(value) => {
            let pointer = pointer_to(alloc, prefix, key)?;
            graph_of(alloc, numbers, pointer.as_str(), value)
        }
        None => Ok(no_actions(alloc)),
    }
}

#[cycle(graph)]
fn branch_in(
    alloc: Global,
    numbers: &Numbers<'_>,
    key: &str,
    prefix: &str,
    fields: &Fields,
) -> Result<Option<Graph>, AllocError>
    ensures { IfOk result (λ g. option_map graph_tree g ≡ branch_in (number_among numbers.now) key.now prefix.now (members fields.now)) }
{
    match fields.member(key) {
        Some(value) => {
            let pointer = pointer_to(alloc, prefix, key)?;
            let graph = branch_of(alloc, numbers, pointer.as_str(), value)?;
            Ok(Some(graph))
        }
        None => Ok(None),
    }
}

#[cycle(graph)]
fn branch_of(
    alloc: Global,
    numbers: &Numbers<'_>,
    prefix: &str,
    value: &Val,
) -> Result<Graph, AllocError>
    ensures { IfOk result (λ g. graph_tree g ≡ branch_of (number_among numbers.now) prefix.now (tree value.now)) }
{
    match value {
        Val::Obj(fields) => graph_in(alloc, numbers, "actions", prefix, fields),
        _ => Ok(no_actions(alloc)),
    }
}

#[cycle(graph)]
fn cases_in(
    alloc: Global,
    numbers: &Numbers<'_>,
    key: &str,
    prefix: &str,
    fields: &Fields,
) -> Result<Cases, AllocError>
    ensures { IfOk result (λ cs. cases_seen cs ≡ cases_in (number_among numbers.now) key.now prefix.now (members fields.now)) }
{
    match fields.member(key) {
        Some(value) => {
            let pointer = pointer_to(alloc, prefix, key)?;
            cases_of(alloc, numbers, pointer.as_str(), value)
        }
        None => Ok(Cases::new(alloc)),
    }
}

#[cycle(graph)]
fn cases_of(
    alloc: Global,
    numbers: &Numbers<'_>,
    prefix: &str,
    value: &Val,
) -> Result<Cases, AllocError>
    ensures { IfOk result (λ cs. cases_seen cs ≡ cases_of (number_among numbers.now) prefix.now (tree value.now)) }
{
    match value {
        Val::Obj(fields) => each_case(alloc, numbers, prefix, fields),
        _ => Ok(Cases::new(alloc)),
    }
}

#[cycle(graph)]
fn each_case(
    alloc: Global,
    numbers: &Numbers<'_>,
    prefix: &str,
    fields: &Fields,
) -> Result<Cases, AllocError>
    ensures { IfOk result (λ cs. cases_seen cs ≡ each_case (number_among numbers.now) prefix.now (members fields.now)) }
{
    let mut cases = Cases::new(alloc);
    for (key, member) in fields.as_slice() {
        let pointer = pointer_to(alloc, prefix, key.as_str())?;
        cases.push(case_of(alloc, numbers, pointer.as_str(), key, member)?)?;
    }
    Ok(cases)
}

#[cycle(graph)]
fn case_of(
    alloc: Global,
    numbers: &Numbers<'_>,
    pointer: &str,
    key: &Text,
    value: &Val,
) -> Result<Case, AllocError>
    ensures { IfOk result (λ c. case_tree c ≡ case_of (number_among numbers.now) pointer.now key.now (tree value.now)) }
{
    let graph = branch_of(alloc, numbers, pointer, value)?;
    Ok(Case {
        name: key.copy(alloc)?,
        value: value_in(alloc, value.member("case"))?,
        graph,
    })
}
