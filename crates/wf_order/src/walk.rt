//! One walk over a graph, which puts each action in its place. Each function adds to the places that were found before.
ghost use Rattle.std.specs.Prelude.{◌≡◌, ◌∷◌, [], IfOk};
ghost use Rattle.wf_def.specs.ActionSeen.{action_tree, cases_seen, graph_tree, kind_tree};
ghost use Rattle.wf_def.specs.ActionTree.{action_trees, case_trees};
ghost use Rattle.wf_def.specs.Layered.{layered, layered_kind};
ghost use Rattle.wf_order.specs.OrderSeen.{places_seen};
ghost use Rattle.wf_order.specs.Walk.{case_places, filled, graph_places, kind_places};

use crate::place::{Place, numbers_of, put, with};
use std::alloc::{AllocError, Global};
use wf_def::{Action, Cases, Graph, Kind};

#[cycle(walk)]
pub fn in_graph(
    alloc: Global,
    found: Vec<Option<Place>>,
    containers: &[usize],
    own: Option<(usize, usize)>,
    graph: &Graph,
) -> Result<Vec<Option<Place>>, AllocError>
    ensures { IfOk result (λ all. places_seen all.items
        ≡ filled (places_seen found.items) (graph_places containers.now own (layered (graph_tree graph.now)))) }
{
    let mut all = found;
    for action in graph.actions.as_slice() {
        all = in_action(alloc, all, containers, own, action)?;
    }
    Ok(all)
}

#[cycle(walk)]
fn in_action(
    alloc: Global,
    found: Vec<Option<Place>>,
    containers: &[usize],
    own: Option<(usize, usize)>,
    action: &Action,
) -> Result<Vec<Option<Place>>, AllocError>
    ensures { IfOk result (λ all. places_seen all.items
        ≡ filled (places_seen found.items) (graph_places containers.now own (layered (action_trees (action_tree action.now ∷ []))))) }
{
    let number = action.number as usize;
    let up = with(alloc, containers, number)?;
    let place = Place {
        up: up.to_vec(alloc)?,
        stand: own,
        after: numbers_of(alloc, &action.after)?,
    };
    in_kind(alloc, put(found, number, place), &up, number, &action.kind)
}

#[cycle(walk)]
fn in_kind(
    alloc: Global,
    found: Vec<Option<Place>>,
    up: &[usize],
    number: usize,
    kind: &Kind,
) -> Result<Vec<Option<Place>>, AllocError>
    ensures { IfOk result (λ all. places_seen all.items
        ≡ filled (places_seen found.items) (kind_places up.now number (layered_kind (kind_tree kind.now)))) }
{
    match kind {
        Kind::Scope { graph } => in_graph(alloc, found, up, None, graph),
        Kind::If { test: _, yes, no } => {
            let all = in_graph(alloc, found, up, Some((number, 1)), yes)?;
            in_graph(alloc, all, up, Some((number, 2)), no)
        }
        Kind::Switch {
            on: _,
            cases,
            default,
        } => {
            let all = in_cases(alloc, found, up, number, cases)?;
            match default {
                Some(graph) => {
                    let last = cases.len() as usize + 1;
                    in_graph(alloc, all, up, Some((number, last)), graph)
                }
                None => Ok(all),
            }
        }
        Kind::Foreach {
            list: _,
            repetitions: _,
            graph,
        } => in_graph(alloc, found, up, None, graph),
        Kind::Until {
            test: _,
            count: _,
            fails: _,
            graph,
        } => in_graph(alloc, found, up, None, graph),
        _ => Ok(found),
    }
}

#[cycle(walk)]
fn in_cases(
    alloc: Global,
    found: Vec<Option<Place>>,
    up: &[usize],
    number: usize,
    cases: &Cases,
) -> Result<Vec<Option<Place>>, AllocError>
    ensures { IfOk result (λ all. places_seen all.items
        ≡ filled (places_seen found.items) (case_places up.now number 1 (case_trees (cases_seen cases.now)))) }
{
    let mut all = found;
    let mut branch = 1;
    for case in cases.as_slice() {
        all = in_graph(alloc, all, up, Some((number, branch)), &case.graph)?;
        branch += 1;
    }
    Ok(all)
}
