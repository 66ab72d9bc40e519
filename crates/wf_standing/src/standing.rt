//! Where each action of a definition stands.
ghost use Rattle.std.specs.Prelude.{◌≡◌, [], ◌∷◌, ◌++◌, IfOk, map};
ghost use Rattle.wf_def.specs.ActionSeen.{action_tree, cases_seen, graph_tree, kind_tree};
ghost use Rattle.wf_def.specs.ActionTree.{case_trees};
ghost use Rattle.wf_standing.specs.Seen.{standing_tree};
ghost use Rattle.wf_standing.specs.Standing.{action_standings, case_standings, graph_standings, kind_standings, standings_of};

use std::alloc::{AllocError, Global};
use wf_def::{Action, Cases, Graph, Kind};

/// An action, and the containers round it, outermost first.
#[derive(Drop)]
pub struct Standing<'a> {
    pub action: &'a Action,
    pub round: Vec<&'a Action>,
}

// The containers, and one inside them.
fn with<'a>(
    alloc: Global,
    round: &[&'a Action],
    action: &'a Action,
) -> Result<Vec<&'a Action>, AllocError>
    ensures { IfOk result
        (λ inner. map (λ a. action_tree a.now) inner.items ≡ map (λ a. action_tree a.now) round.now ++ action_tree action.now ∷ []) }
{
    let mut inner = copied(alloc, round)?;
    inner.push(action)?;
    Ok(inner)
}

fn copied<'a>(alloc: Global, round: &[&'a Action]) -> Result<Vec<&'a Action>, AllocError>
    ensures { IfOk result (λ copy. map (λ a. action_tree a.now) copy.items ≡ map (λ a. action_tree a.now) round.now) }
{
    let mut copy = Vec::new(alloc);
    for action in round {
        copy.push(*action)?;
    }
    Ok(copy)
}

// Each adds to what was found before.
#[cycle(walk)]
fn in_graph<'a>(
    alloc: Global,
    found: Vec<Standing<'a>>,
    round: &[&'a Action],
    graph: &'a Graph,
) -> Result<Vec<Standing<'a>>, AllocError>
    ensures { IfOk result (λ all. map standing_tree all.items
        ≡ map standing_tree found.entry.items ++ graph_standings (map (λ a. action_tree a.now) round.now) (graph_tree graph.now)) }
{
    let mut all = found;
    for action in graph.actions.as_slice() {
        all = in_action(alloc, all, round, action)?;
    }
    Ok(all)
}

#[cycle(walk)]
fn in_action<'a>(
    alloc: Global,
    found: Vec<Standing<'a>>,
    round: &[&'a Action],
    action: &'a Action,
) -> Result<Vec<Standing<'a>>, AllocError>
    ensures { IfOk result (λ all. map standing_tree all.items
        ≡ map standing_tree found.entry.items ++ action_standings (map (λ a. action_tree a.now) round.now) (action_tree action.now)) }
{
    let mut all = found;
    let inner = with(alloc, round, action)?;
    all.push(Standing {
        action,
        round: copied(alloc, round)?,
    })?;
    in_kind(alloc, all, &inner, &action.kind)
}

#[cycle(walk)]
fn in_kind<'a>(
    alloc: Global,
    found: Vec<Standing<'a>>,
    inner: &[&'a Action],
    kind: &'a Kind,
) -> Result<Vec<Standing<'a>>, AllocError>
    ensures { IfOk result (λ all. map standing_tree all.items
        ≡ map standing_tree found.entry.items ++ kind_standings (map (λ a. action_tree a.now) inner.now) (kind_tree kind.now)) }
{
    match kind {
        Kind::Scope { graph } => in_graph(alloc, found, inner, graph),
        Kind::If { test: _, yes, no } => {
            let all = in_graph(alloc, found, inner, yes)?;
            in_graph(alloc, all, inner, no)
        }
        Kind::Switch {
            on: _,
            cases,
            default,
        } => {
            let all = in_cases(alloc, found, inner, cases)?;
            match default {
                Some(graph) => in_graph(alloc, all, inner, graph),
                None => Ok(all),
            }
        }
        Kind::Foreach {
            list: _,
            repetitions: _,
            graph,
        } => in_graph(alloc, found, inner, graph),
        Kind::Until {
            test: _,
            count: _,
            fails: _,
            graph,
        } => in_graph(alloc, found, inner, graph),
        _ => Ok(found),
    }
}

#[cycle(walk)]
fn in_cases<'a>(
    alloc: Global,
    found: Vec<Standing<'a>>,
    inner: &[&'a Action],
    cases: &'a Cases,
) -> Result<Vec<Standing<'a>>, AllocError>
    ensures { IfOk result (λ all. map standing_tree all.items
        ≡ map standing_tree found.entry.items
        ++ case_standings (map (λ a. action_tree a.now) inner.now) (case_trees (cases_seen cases.now))) }
{
    let mut all = found;
    for case in cases.as_slice() {
        all = in_graph(alloc, all, inner, &case.graph)?;
    }
    Ok(all)
}

/// All actions of a definition with this graph at the top, in one walk.
pub fn standings_of<'a>(alloc: Global, graph: &'a Graph) -> Result<Vec<Standing<'a>>, AllocError>
    ensures { IfOk result (λ all. map standing_tree all.items ≡ standings_of (graph_tree graph.now)) }
{
    in_graph(alloc, Vec::new(alloc), &[], graph)
}
