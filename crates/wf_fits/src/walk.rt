//! All actions of a definition, each with the way to it.
ghost use Rattle.std.specs.Prelude.{◌≡◌, [], ◌∷◌, ◌++◌, IfOk, map};
ghost use Rattle.wf_def.specs.ActionSeen.{action_tree, cases_seen, graph_tree, kind_tree};
ghost use Rattle.wf_def.specs.ActionTree.{case_trees};
ghost use Rattle.wf_fits.specs.Walk.{action_walk, behind, cases_walk, graph_walk, kind_walk};
ghost use Rattle.wf_fits.specs.WalkSeen.{into_tree, step_tree, walked};
ghost use Rattle.wf_ways.specs.Way.{step};

use crate::step::{Into, Step};
use std::alloc::{AllocError, Global};
use wf_def::{Action, Cases, Graph, Kind};

/// An action, and the way to it.
#[derive(Drop)]
pub(crate) struct Placed<'a> {
    pub(crate) action: &'a Action,
    pub(crate) way: Vec<Step>,
}

// The way, and a step more.
fn with(alloc: Global, way: &[Step], container: u32, into: Into) -> Result<Vec<Step>, AllocError>
    ensures { IfOk result (λ steps. map step_tree steps.items ≡ map step_tree way.now ++ step container (into_tree into) ∷ []) }
{
    let mut steps = way.to_vec(alloc)?;
    steps.push(Step { container, into })?;
    Ok(steps)
}

// The number of the branch behind all cases.
fn behind(cases: &Cases) -> u64
    ensures { result ≡ behind 1 (case_trees (cases_seen cases.now)) }
{
    let mut branch = 1;
    for _case in cases.as_slice() {
        branch += 1;
    }
    branch
}

#[cycle(walk)]
fn in_graph<'a>(
    alloc: Global,
    found: Vec<Placed<'a>>,
    way: &[Step],
    graph: &'a Graph,
) -> Result<Vec<Placed<'a>>, AllocError>
    ensures { IfOk result (λ all. map walked all.items
        ≡ map walked found.entry.items ++ graph_walk (map step_tree way.now) (graph_tree graph.now)) }
{
    let mut all = found;
    for action in graph.actions.as_slice() {
        all = in_action(alloc, all, way, action)?;
    }
    Ok(all)
}

fn with_placed<'a>(
    alloc: Global,
    found: Vec<Placed<'a>>,
    way: &[Step],
    action: &'a Action,
) -> Result<Vec<Placed<'a>>, AllocError>
    ensures { IfOk result (λ all. map walked all.items
        ≡ map walked found.entry.items ++ record { action = action_tree action.now; way = map step_tree way.now } ∷ []) }
{
    let mut all = found;
    let way = way.to_vec(alloc)?;
    all.push(Placed { action, way })?;
    Ok(all)
}

#[cycle(walk)]
fn in_action<'a>(
    alloc: Global,
    found: Vec<Placed<'a>>,
    way: &[Step],
    action: &'a Action,
) -> Result<Vec<Placed<'a>>, AllocError>
    ensures { IfOk result (λ all. map walked all.items
        ≡ map walked found.entry.items ++ action_walk (map step_tree way.now) (action_tree action.now)) }
{
    let all = with_placed(alloc, found, way, action)?;
    in_kind(alloc, all, way, action.number, &action.kind)
}

#[cycle(walk)]
fn in_kind<'a>(
    alloc: Global,
    found: Vec<Placed<'a>>,
    way: &[Step],
    number: u32,
    kind: &'a Kind,
) -> Result<Vec<Placed<'a>>, AllocError>
    ensures { IfOk result (λ all. map walked all.items
        ≡ map walked found.entry.items ++ kind_walk (map step_tree way.now) number (kind_tree kind.now)) }
{
    match kind {
        Kind::Scope { graph } => {
            let inner = with(alloc, way, number, Into::Whole)?;
            in_graph(alloc, found, &inner, graph)
        }
        Kind::If { test: _, yes, no } => {
            let first = with(alloc, way, number, Into::Branch(1))?;
            let second = with(alloc, way, number, Into::Branch(2))?;
            let all = in_graph(alloc, found, &first, yes)?;
            in_graph(alloc, all, &second, no)
        }
        Kind::Switch {
            on: _,
            cases,
            default,
        } => {
            let all = in_cases(alloc, found, way, number, cases)?;
            match default {
                Some(graph) => {
                    let inner = with(alloc, way, number, Into::Branch(behind(cases)))?;
                    in_graph(alloc, all, &inner, graph)
                }
                None => Ok(all),
            }
        }
        Kind::Foreach {
            list: _,
            repetitions: _,
            graph,
        } => {
            let inner = with(alloc, way, number, Into::Item)?;
            in_graph(alloc, found, &inner, graph)
        }
        Kind::Until {
            test: _,
            count: _,
            fails: _,
            graph,
        } => {
            let inner = with(alloc, way, number, Into::Round)?;
            in_graph(alloc, found, &inner, graph)
        }
        _ => Ok(found),
    }
}

#[cycle(walk)]
fn in_cases<'a>(
    alloc: Global,
    found: Vec<Placed<'a>>,
    way: &[Step],
    number: u32,
    cases: &'a Cases,
) -> Result<Vec<Placed<'a>>, AllocError>
    ensures { IfOk result (λ all. map walked all.items ≡ map walked found.entry.items
        ++ cases_walk (map step_tree way.now) number 1 (case_trees (cases_seen cases.now))) }
{
    let mut all = found;
    let mut branch = 1;
    for case in cases.as_slice() {
        let inner = with(alloc, way, number, Into::Branch(branch))?;
        all = in_graph(alloc, all, &inner, &case.graph)?;
        branch += 1;
    }
    Ok(all)
}

/// All actions of a graph at every depth, in the order of the tree.
pub(crate) fn all_placed<'a>(alloc: Global, graph: &'a Graph) -> Result<Vec<Placed<'a>>, AllocError>
    ensures { IfOk result (λ all. map walked all.items ≡ graph_walk [] (graph_tree graph.now)) }
{
    in_graph(alloc, Vec::new(alloc), &[], graph)
}
