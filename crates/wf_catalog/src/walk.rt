//! All actions of a definition, each with the loops round it.
ghost use Rattle.std.specs.Prelude.{◌≡◌, [], ◌∷◌, ◌++◌, IfOk, map};
ghost use Rattle.wf_def.specs.ActionSeen.{action_tree, cases_seen, graph_tree, kind_tree};
ghost use Rattle.wf_def.specs.ActionTree.{case_trees};
ghost use Rattle.wf_catalog.specs.Walk.{action_walk, cases_walk, graph_walk, kind_walk};
ghost use Rattle.wf_catalog.specs.WalkSeen.{walked};

use std::alloc::{AllocError, Global};
use wf_def::{Action, Cases, Graph, Kind};

/// An action, and the numbers of the loops round it, outermost first.
#[derive(Drop)]
pub(crate) struct Placed<'a> {
    pub(crate) action: &'a Action,
    pub(crate) loops: Vec<u32>,
}

// The loops, and one inside them.
fn with(alloc: Global, round: &[u32], number: u32) -> Result<Vec<u32>, AllocError>
    ensures { IfOk result (λ loops. loops.items ≡ round.now ++ number ∷ []) }
{
    let mut loops = round.to_vec(alloc)?;
    loops.push(number)?;
    Ok(loops)
}

#[cycle(walk)]
fn in_graph<'a>(
    alloc: Global,
    found: Vec<Placed<'a>>,
    round: &[u32],
    graph: &'a Graph,
) -> Result<Vec<Placed<'a>>, AllocError>
    ensures { IfOk result (λ all. map walked all.items ≡ map walked found.entry.items ++ graph_walk round.now (graph_tree graph.now)) }
{
    let mut all = found;
    for action in graph.actions.as_slice() {
        all = in_action(alloc, all, round, action)?;
    }
    Ok(all)
}

fn with_placed<'a>(
    alloc: Global,
    found: Vec<Placed<'a>>,
    round: &[u32],
    action: &'a Action,
) -> Result<Vec<Placed<'a>>, AllocError>
    ensures { IfOk result (λ all. map walked all.items
        ≡ map walked found.entry.items ++ record { action = action_tree action.now; loops = round.now } ∷ []) }
{
    let mut all = found;
    let loops = round.to_vec(alloc)?;
    all.push(Placed { action, loops })?;
    Ok(all)
}

#[cycle(walk)]
fn in_action<'a>(
    alloc: Global,
    found: Vec<Placed<'a>>,
    round: &[u32],
    action: &'a Action,
) -> Result<Vec<Placed<'a>>, AllocError>
    ensures { IfOk result (λ all. map walked all.items ≡ map walked found.entry.items ++ action_walk round.now (action_tree action.now)) }
{
    let all = with_placed(alloc, found, round, action)?;
    in_kind(alloc, all, round, action.number, &action.kind)
}

#[cycle(walk)]
fn in_kind<'a>(
    alloc: Global,
    found: Vec<Placed<'a>>,
    round: &[u32],
    number: u32,
    kind: &'a Kind,
) -> Result<Vec<Placed<'a>>, AllocError>
    ensures { IfOk result (λ all. map walked all.items ≡ map walked found.entry.items ++ kind_walk round.now number (kind_tree kind.now)) }
{
    match kind {
        Kind::Scope { graph } => in_graph(alloc, found, round, graph),
        Kind::If { test: _, yes, no } => {
            let all = in_graph(alloc, found, round, yes)?;
            in_graph(alloc, all, round, no)
        }
        Kind::Switch {
            on: _,
            cases,
            default,
        } => {
            let all = in_cases(alloc, found, round, cases)?;
            match default {
                Some(graph) => in_graph(alloc, all, round, graph),
                None => Ok(all),
            }
        }
        Kind::Foreach {
            list: _,
            repetitions: _,
            graph,
        } => {
            let inner = with(alloc, round, number)?;
            in_graph(alloc, found, &inner, graph)
        }
        Kind::Until {
            test: _,
            count: _,
            fails: _,
            graph,
        } => {
            let inner = with(alloc, round, number)?;
            in_graph(alloc, found, &inner, graph)
        }
        _ => Ok(found),
    }
}

#[cycle(walk)]
fn in_cases<'a>(
    alloc: Global,
    found: Vec<Placed<'a>>,
    round: &[u32],
    cases: &'a Cases,
) -> Result<Vec<Placed<'a>>, AllocError>
    ensures { IfOk result (λ all. map walked all.items ≡ map walked found.entry.items
        ++ cases_walk round.now (case_trees (cases_seen cases.now))) }
{
    let mut all = found;
    for case in cases.as_slice() {
        all = in_graph(alloc, all, round, &case.graph)?;
    }
    Ok(all)
}

/// All actions of a graph at every depth, in the order of the tree.
pub(crate) fn all_placed<'a>(alloc: Global, graph: &'a Graph) -> Result<Vec<Placed<'a>>, AllocError>
    ensures { IfOk result (λ all. map walked all.items ≡ graph_walk [] (graph_tree graph.now)) }
{
    in_graph(alloc, Vec::new(alloc), &[], graph)
}
