//! All actions of a graph.
ghost use Rattle.std.specs.Prelude.{◌≡◌, ◌++◌, IfOk, map};
ghost use Rattle.wf_def.specs.ActionSeen.{action_tree, cases_seen, graph_tree, kind_tree};
ghost use Rattle.wf_def.specs.ActionTree.{case_trees};
ghost use Rattle.wf_def.specs.AllActions.{all_actions, cases_actions, kind_actions, with_inner};

use crate::graph::{Action, Cases, Graph, Kind};
use std::alloc::{AllocError, Global};

#[cycle(all)]
fn in_graph<'a>(found: Vec<&'a Action>, graph: &'a Graph) -> Result<Vec<&'a Action>, AllocError>
    ensures { IfOk result (λ all. map (λ a. action_tree a.now) all.items
        ≡ map (λ a. action_tree a.now) found.entry.items ++ all_actions (graph_tree graph.now)) }
{
    let mut all = found;
    for action in graph.actions.as_slice() {
        all = in_action(all, action)?;
    }
    Ok(all)
}

#[cycle(all)]
fn in_action<'a>(found: Vec<&'a Action>, action: &'a Action) -> Result<Vec<&'a Action>, AllocError>
    ensures { IfOk result (λ all. map (λ a. action_tree a.now) all.items
        ≡ map (λ a. action_tree a.now) found.entry.items ++ with_inner (action_tree action.now)) }
{
    let mut all = found;
    all.push(action)?;
    in_kind(all, &action.kind)
}

#[cycle(all)]
fn in_kind<'a>(found: Vec<&'a Action>, kind: &'a Kind) -> Result<Vec<&'a Action>, AllocError>
    ensures { IfOk result (λ all. map (λ a. action_tree a.now) all.items
        ≡ map (λ a. action_tree a.now) found.entry.items ++ kind_actions (kind_tree kind.now)) }
{
    match kind {
        Kind::Scope { graph } => in_graph(found, graph),
        Kind::If { test: _, yes, no } => {
            let all = in_graph(found, yes)?;
            in_graph(all, no)
        }
        Kind::Switch {
            on: _,
            cases,
            default,
        } => {
            let all = in_cases(found, cases)?;
            match default {
                Some(graph) => in_graph(all, graph),
                None => Ok(all),
            }
        }
        Kind::Foreach {
            list: _,
            repetitions: _,
            graph,
        } => in_graph(found, graph),
        Kind::Until {
            test: _,
            count: _,
            fails: _,
            graph,
        } => in_graph(found, graph),
        _ => Ok(found),
    }
}

#[cycle(all)]
fn in_cases<'a>(found: Vec<&'a Action>, cases: &'a Cases) -> Result<Vec<&'a Action>, AllocError>
    ensures { IfOk result (λ all. map (λ a. action_tree a.now) all.items
        ≡ map (λ a. action_tree a.now) found.entry.items ++ cases_actions (case_trees (cases_seen cases.now))) }
{
    let mut all = found;
    for case in cases.as_slice() {
        all = in_graph(all, &case.graph)?;
    }
    Ok(all)
}

/// The actions of a graph and all actions inside them: an action comes before those inside it, and these before the next of its graph.
pub fn all_actions<'a>(alloc: Global, graph: &'a Graph) -> Result<Vec<&'a Action>, AllocError>
    ensures { IfOk result (λ all. map (λ a. action_tree a.now) all.items ≡ all_actions (graph_tree graph.now)) }
{
    in_graph(Vec::new(alloc), graph)
}
