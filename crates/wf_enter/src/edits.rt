//! What is put as a graph is entered, made before.
ghost use Rattle.std.specs.Prelude.{◌≡◌, ◌∷◌, ◌++◌, [], IfOk, option_map};
ghost use Rattle.wf_events.specs.PlanSeen.{or_none, plan_tree};
ghost use Rattle.wf_enter.specs.Entered.{IsMade, graph_of};
ghost use Rattle.wf_enter.specs.Graphs.{opened_at, turned_at};

use crate::graphs::{opened_graph, turned_graph};
use std::alloc::{AllocError, Global};
use wf_events::{CountAt, Instance, Plan, entered, instances};
use wf_lists::TryCopy;
use wf_val::Indexes;

/// What is put in counts and in the ready set as a container opens or begins an iteration.
#[derive(Drop)]
pub struct Entering {
    /// The container.
    pub container: Instance,
    /// Where the graph of its last begun iteration goes; that of index 0 where none has begun.
    pub last: Instance,
    /// The graph that is entered, if one is, by its container and its own indexes.
    pub graph: Option<Instance>,
    /// How much each of its actions waits for.
    pub counts: Vec<CountAt>,
    /// Each of its actions.
    pub places: Vec<Instance>,
}

// An iteration of a loop, by the loop and the indexes inside it.
fn iteration(alloc: Global, place: &Instance, index: u64) -> Result<Instance, AllocError>
    ensures { IfOk result (λ i. i ≡ record { action = place.now.action; at = place.now.at ++ index ∷ [] }) }
{
    let mut iteration = place.copy(alloc)?;
    iteration.at.push(index)?;
    Ok(iteration)
}

fn graph_of(
    alloc: Global,
    container: u32,
    graph: Option<&[u32]>,
    at: &Indexes,
) -> Result<Option<Instance>, AllocError>
    ensures { IfOk result (λ g. g ≡ graph_of container at.now (option_map (λ ns. ns.now) graph.entry)) }
{
    match graph {
        Some(_) => Ok(Some(Instance {
            action: container,
            at: at.copy(alloc)?,
        })),
        None => Ok(None),
    }
}

fn numbers_of(graph: Option<&[u32]>) -> &[u32]
    ensures { result.now ≡ or_none (option_map (λ ns. ns.now) graph.entry) }
{
    match graph {
        Some(numbers) => numbers,
        None => &[],
    }
}

fn edits(
    alloc: Global,
    plan: &Plan,
    place: &Instance,
    graph: Option<&[u32]>,
    at: &Indexes,
    index: u64,
) -> Result<Entering, AllocError>
    ensures { IfOk result (IsMade (plan_tree plan.now) place.now (option_map (λ ns. ns.now) graph.entry) at.now index) }
{
    let numbers = numbers_of(graph);
    Ok(Entering {
        container: place.copy(alloc)?,
        last: iteration(alloc, place, index)?,
        graph: graph_of(alloc, place.action, graph, at)?,
        counts: entered(alloc, plan, numbers, at)?,
        places: instances(alloc, numbers, at)?,
    })
}

/// As a container opens whose decision takes the branch of a number.
pub fn opening_edits(
    alloc: Global,
    plan: &Plan,
    place: &Instance,
    taken: u64,
) -> Result<Entering, AllocError>
    ensures { IfOk result (IsMade (plan_tree plan.now) place.now (opened_at (plan_tree plan.now) place.now.action taken) place.now.at 0) }
{
    edits(
        alloc,
        plan,
        place,
        opened_graph(plan, place.action, taken),
        &place.at,
        0,
    )
}

/// As the iteration of an index begins.
pub fn turning_edits(
    alloc: Global,
    plan: &Plan,
    place: &Instance,
    index: u64,
) -> Result<Entering, AllocError>
    ensures { IfOk result (IsMade (plan_tree plan.now) place.now (turned_at (plan_tree plan.now) place.now.action)
        (place.now.at ++ index ∷ []) index) }
{
    let turn = iteration(alloc, place, index)?;
    edits(
        alloc,
        plan,
        place,
        turned_graph(plan, place.action),
        &turn.at,
        index,
    )
}
