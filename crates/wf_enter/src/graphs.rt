//! Which graph a container enters.
ghost use Rattle.std.specs.Prelude.{◌≡◌, option_map};
ghost use Rattle.wf_events.specs.PlanSeen.{plan_tree, shape_tree};
ghost use Rattle.wf_enter.specs.Graphs.{opened_at, opened_numbers, turned_at, turned_numbers};

use wf_events::{Plan, Shape};

fn opened_of(shape: &Shape, taken: u64) -> Option<&[u32]>
    ensures { option_map (λ ns. ns.now) result ≡ opened_numbers (shape_tree shape.now) taken }
{
    match shape {
        Shape::Scope(graph) => Some(graph.as_slice()),
        Shape::Choice(_) => match shape.taken(taken) {
            Some(branch) => Some(branch.own.as_slice()),
            None => None,
        },
        _ => None,
    }
}

/// The actions of the graph that a container enters as it opens, where a decision takes the branch of a number: none of a loop, and none
/// where the number is no branch's.
pub fn opened_graph(plan: &Plan, container: u32, taken: u64) -> Option<&[u32]>
    ensures { option_map (λ ns. ns.now) result ≡ opened_at (plan_tree plan.now) container taken }
{
    match plan.entry(container) {
        Some(entry) => opened_of(&entry.shape, taken),
        None => None,
    }
}

fn turned_of(shape: &Shape) -> Option<&[u32]>
    ensures { option_map (λ ns. ns.now) result ≡ turned_numbers (shape_tree shape.now) }
{
    match shape {
        Shape::Foreach { graph, .. } => Some(graph.as_slice()),
        Shape::Until { graph, .. } => Some(graph.as_slice()),
        _ => None,
    }
}

/// The actions of the graph that a loop enters as an iteration begins.
pub fn turned_graph(plan: &Plan, container: u32) -> Option<&[u32]>
    ensures { option_map (λ ns. ns.now) result ≡ turned_at (plan_tree plan.now) container }
{
    match plan.entry(container) {
        Some(entry) => turned_of(&entry.shape),
        None => None,
    }
}
