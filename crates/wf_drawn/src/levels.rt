//! The levels on which actions stand.
ghost use Rattle.std.specs.Prelude.{◌≡◌, IfOk, map, max, replicate, slice_set};
ghost use Rattle.wf_def.specs.ActionSeen.{action_tree, actions_seen, graph_tree};
ghost use Rattle.wf_drawn.specs.Levels.{below_all, depth, level_at, levels, one_below, put_all_below, put_below};

use std::alloc::{AllocError, Global};
use wf_def::{Action, Actions, Afters, Graph, all_actions};

/// The level of the action of a number.
pub fn level_at(levels: &[u64], number: u32) -> u64
    ensures { result ≡ level_at levels.now number }
{
    match levels.get(number as usize) {
        Some(level) => *level,
        None => 0,
    }
}

fn one_below(level: u64) -> u64
    ensures { result ≡ one_below level }
{
    level.saturating_add(1)
}

fn deeper(one: u64, other: u64) -> u64
    ensures { result ≡ max one other }
{
    if one < other { other } else { one }
}

// Below all that are waited for.
fn below_all(levels: &[u64], after: &Afters) -> u64
    ensures { result ≡ below_all levels.now after.now }
{
    let mut level = 0;
    for entry in after.as_slice() {
        level = deeper(one_below(level_at(levels, entry.number)), level);
    }
    level
}

#[tactic(auto, using(crate::proofs::LevelLemmas::set_past))]
fn put_at(levels: &mut [u64], number: u32, level: u64)
    ensures { levels.new ≡ slice_set levels.old number level }
{
    let place = number as usize;
    if place < levels.len() {
        levels[place] = level;
    }
}

fn put_below(levels: &mut [u64], action: &Action)
    ensures { levels.new ≡ put_below levels.old (action_tree action.now) }
{
    let level = below_all(levels, &action.after);
    put_at(levels, action.number, level);
}

fn put_all_below(levels: &mut [u64], actions: &[&Action])
    ensures { levels.new ≡ put_all_below levels.old (map (λ a. action_tree a.now) actions.now) }
{
    for action in actions {
        put_below(levels, action);
    }
}

// Everything on the first level.
fn on_top(alloc: Global, count: usize) -> Result<Vec<u64>, AllocError>
    ensures { IfOk result (λ levels. levels.items ≡ replicate count 0) }
{
    Ok(vec![in alloc; 0; count]?)
}

/// The levels of the actions of a definition, at every depth, by their numbers.
#[tactic(auto, using(crate::proofs::LevelLemmas::rounds_more))]
pub fn levels_of(alloc: Global, graph: &Graph) -> Result<Vec<u64>, AllocError>
    ensures { IfOk result (λ all. all.items ≡ levels (graph_tree graph.now)) }
{
    let actions = all_actions(alloc, graph)?;
    let mut levels = on_top(alloc, actions.len())?;
    for round in 0..actions.len() {
        put_all_below(&mut levels, &actions);
    }
    Ok(levels)
}

/// How many levels a graph has.
pub fn depth(levels: &[u64], actions: &Actions) -> u64
    ensures { result ≡ depth levels.now (actions_seen actions.now) }
{
    let mut depth = 0;
    for action in actions.as_slice() {
        depth = deeper(one_below(level_at(levels, action.number)), depth);
    }
    depth
}
