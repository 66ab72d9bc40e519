//! The names of the actions of a graph, at every depth.
ghost use Rattle.std.specs.Prelude.{◌≡◌, ◌++◌, IfOk, map};
ghost use Rattle.wf_def.specs.ActionTree.{case_trees};
ghost use Rattle.wf_def.specs.ActionSeen.{action_tree, cases_seen, graph_tree, kind_tree};
ghost use Rattle.wf_def.specs.Names.{cases_names, graph_names, kind_names, names_in};

use crate::graph::{Action, Cases, Graph, Kind};
use std::alloc::{AllocError, Global};
use wf_val::Name;

// Each adds the names behind those that were found before.
#[cycle(collect)]
fn in_graph<'a>(found: Vec<&'a Name>, graph: &'a Graph) -> Result<Vec<&'a Name>, AllocError>
    ensures { IfOk result (λ all. map (λ n. n.now) all.items ≡ map (λ n. n.now) found.entry.items ++ graph_names (graph_tree graph.now)) }
{
    let mut all = found;
    for action in graph.actions.as_slice() {
        all = in_action(all, action)?;
    }
    Ok(all)
}

#[cycle(collect)]
fn in_action<'a>(found: Vec<&'a Name>, action: &'a Action) -> Result<Vec<&'a Name>, AllocError>
    ensures { IfOk result (λ all. map (λ n. n.now) all.items ≡ map (λ n. n.now) found.entry.items ++ names_in (action_tree action.now)) }
{
    let mut all = found;
    all.push(&action.name)?;
    in_kind(all, &action.kind)
}

#[cycle(collect)]
fn in_kind<'a>(found: Vec<&'a Name>, kind: &'a Kind) -> Result<Vec<&'a Name>, AllocError>
    ensures { IfOk result (λ all. map (λ n. n.now) all.items ≡ map (λ n. n.now) found.entry.items ++ kind_names (kind_tree kind.now)) }
{
    match kind {
        Kind::Scope { graph } => in_graph(found, graph),
        Kind::If { test: _, yes, no } => {
            let all = in_graph(found, yes)?;
            in_graph(all, no)
        }
        Kind::Switch {
            on: _,
            cases,
            default,
        } => {
            let all = in_cases(found, cases)?;
            match default {
                Some(graph) => in_graph(all, graph),
                None => Ok(all),
            }
        }
        Kind::Foreach {
            list: _,
            repetitions: _,
            graph,
        } => in_graph(found, graph),
        Kind::Until {
            test: _,
            count: _,
            fails: _,
            graph,
        } => in_graph(found, graph),
        _ => Ok(found),
    }
}

#[cycle(collect)]
fn in_cases<'a>(found: Vec<&'a Name>, cases: &'a Cases) -> Result<Vec<&'a Name>, AllocError>
    ensures { IfOk result (λ all. map (λ n. n.now) all.items
        ≡ map (λ n. n.now) found.entry.items ++ cases_names (case_trees (cases_seen cases.now))) }
{
    let mut all = found;
    for case in cases.as_slice() {
        all = in_graph(all, &case.graph)?;
    }
    Ok(all)
}

impl Graph {
    /// The names of its actions and of all actions inside them: an action comes before those inside it, and these before the next of its
    /// graph.
    pub fn names<'a>(&'a self, alloc: Global) -> Result<Vec<&'a Name>, AllocError>
        ensures { IfOk result (λ names. map (λ n. n.now) names.items ≡ graph_names (graph_tree self.now)) }
    {
        in_graph(Vec::new(alloc), self)
    }
}

impl Action {
    /// Its own name, and those of all actions inside it.
    pub fn names<'a>(&'a self, alloc: Global) -> Result<Vec<&'a Name>, AllocError>
        ensures { IfOk result (λ names. map (λ n. n.now) names.items ≡ names_in (action_tree self.now)) }
    {
        in_action(Vec::new(alloc), self)
    }
}
