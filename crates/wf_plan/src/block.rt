//! What gets rows together, where an action doesn't run.
ghost use Rattle.std.specs.Prelude.{◌≡◌, ◌∷◌, ◌++◌, IfOk};
ghost use Rattle.wf_def.specs.ActionSeen.{action_tree, cases_seen, graph_tree, kind_tree};
ghost use Rattle.wf_def.specs.ActionTree.{action_kind, action_number, case_trees};
ghost use Rattle.wf_def.specs.Layered.{layered, layered_kind};
ghost use Rattle.wf_plan.specs.Plan.{shown, shown_in};
ghost use Rattle.wf_plan.specs.Walk.{block_cases, block_in, block_inside, block_of};

use std::alloc::{AllocError, Global};
use wf_def::{Action, Cases, Graph, Kind};

#[cycle(block)]
fn in_graph(found: Vec<u32>, graph: &Graph) -> Result<Vec<u32>, AllocError>
    ensures { IfOk result (λ numbers. numbers.items ≡ found.items ++ block_in (graph_tree graph.now)) }
{
    let mut numbers = found;
    for action in graph.actions.as_slice() {
        numbers = in_action(numbers, action)?;
    }
    Ok(numbers)
}

#[cycle(block)]
fn in_action(found: Vec<u32>, action: &Action) -> Result<Vec<u32>, AllocError>
    ensures { IfOk result (λ numbers. numbers.items ≡ found.items ++ block_of (action_tree action.now)) }
{
    let mut numbers = found;
    numbers.push(action.number)?;
    in_kind(numbers, &action.kind)
}

// A loop that doesn't run has no iterations, so nothing inside it gets a row.
#[cycle(block)]
fn in_kind(found: Vec<u32>, kind: &Kind) -> Result<Vec<u32>, AllocError>
    ensures { IfOk result (λ numbers. numbers.items ≡ found.items ++ block_inside (kind_tree kind.now)) }
{
    match kind {
        Kind::Scope { graph } => in_graph(found, graph),
        Kind::If { test: _, yes, no } => {
            let numbers = in_graph(found, yes)?;
            in_graph(numbers, no)
        }
        Kind::Switch {
            on: _,
            cases,
            default,
        } => {
            let numbers = in_cases(found, cases)?;
            match default {
                Some(graph) => in_graph(numbers, graph),
                None => Ok(numbers),
            }
        }
        _ => Ok(found),
    }
}

#[cycle(block)]
fn in_cases(found: Vec<u32>, cases: &Cases) -> Result<Vec<u32>, AllocError>
    ensures { IfOk result (λ numbers. numbers.items ≡ found.items ++ block_cases (case_trees (cases_seen cases.now))) }
{
    let mut numbers = found;
    for case in cases.as_slice() {
        numbers = in_graph(numbers, &case.graph)?;
    }
    Ok(numbers)
}

// An action and all inside it that stand in no loop there.
#[tactic(auto, using(crate::proofs::BlockLemmas::action_block))]
pub fn block_of(alloc: Global, action: &Action) -> Result<Vec<u32>, AllocError>
    ensures { IfOk result (λ numbers. numbers.items
        ≡ action_number (action_tree action.now) ∷ shown (layered_kind (action_kind (action_tree action.now)))) }
{
    in_action(Vec::new(alloc), action)
}

// All actions of a graph that stand in no loop there.
#[tactic(auto, using(crate::proofs::BlockLemmas::graph_block))]
pub fn block_in(alloc: Global, graph: &Graph) -> Result<Vec<u32>, AllocError>
    ensures { IfOk result (λ numbers. numbers.items ≡ shown_in (layered (graph_tree graph.now))) }
{
    in_graph(Vec::new(alloc), graph)
}
