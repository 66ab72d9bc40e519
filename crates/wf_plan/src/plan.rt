//! The plan.
ghost use Rattle.std.specs.Prelude.{◌≡◌, ◌<◌, IfOk, None, [], length, map, option_map, replicate};
ghost use Rattle.wf_def.specs.ActionSeen.{action_tree, graph_tree};
ghost use Rattle.wf_def.specs.Layered.{need_of};
ghost use Rattle.wf_plan.specs.Plan.{entry_of, plan_of};
ghost use Rattle.wf_plan.specs.PlanSeen.{at_place, entries_seen, entry_tree, list_at, lists_of, plan_tree, wait_need};
ghost use Rattle.wf_plan.specs.Walk.{all_added, all_entered, all_held};

use crate::block::block_of;
use crate::shape::{Shape, numbers_of, shape_of};
use crate::tables::{add_entries, hold_all, take_place};
use std::alloc::{AllocError, Global};
use wf_def::{Action, Afters, Graph, Statuses, all_actions};

/// What is waited for: an action, and the statuses that are listed for it.
#[derive(Clone, Copy)]
pub struct Wait {
    pub number: u32,
    pub statuses: Statuses,
}

/// An action, as the machine goes by it.
#[derive(Drop)]
pub struct Entry {
    pub after: Vec<Wait>,
    pub shape: Shape,
    /// The action and all inside it that stand in no loop there: those that get rows together where it doesn't run.
    pub block: Vec<u32>,
}

/// The actions of a definition by their numbers.
#[derive(Drop)]
pub struct Plan {
    top: Vec<u32>,
    entries: Vec<Option<Entry>>,
    followers: Vec<Vec<u32>>,
    holders: Vec<Option<u32>>,
}

fn waits_of(alloc: Global, after: &Afters) -> Result<Vec<Wait>, AllocError>
    ensures { IfOk result (λ waits. map wait_need waits.items ≡ map need_of after.now) }
{
    let mut waits = Vec::new(alloc);
    for entry in after.as_slice() {
        waits.push(Wait {
            number: entry.number,
            statuses: entry.statuses,
        })?;
    }
    Ok(waits)
}

fn entry_of(alloc: Global, action: &Action) -> Result<Entry, AllocError>
    ensures { IfOk result (λ e. entry_tree e ≡ entry_of (action_tree action.now)) }
{
    Ok(Entry {
        after: waits_of(alloc, &action.after)?,
        shape: shape_of(alloc, &action.kind)?,
        block: block_of(alloc, action)?,
    })
}

// One place for each action, and nothing there.
fn free<T: Drop>(alloc: Global, count: usize) -> Result<Vec<Option<T>>, AllocError>
    ensures { IfOk result (λ table. table.items ≡ replicate count None) }
{
    let mut table = Vec::with_capacity(alloc, count)?;
    for _ in 0..count {
        table.push(None)?;
    }
    Ok(table)
}

fn empty(alloc: Global, count: usize) -> Result<Vec<Vec<u32>>, AllocError>
    ensures { IfOk result (λ table. lists_of table.items ≡ replicate count []) }
{
    let mut table = Vec::with_capacity(alloc, count)?;
    for _ in 0..count {
        table.push(Vec::new(alloc))?;
    }
    Ok(table)
}

fn entries_of(alloc: Global, actions: &[&Action]) -> Result<Vec<Option<Entry>>, AllocError>
    ensures { IfOk result (λ table. entries_seen table.items
        ≡ all_entered (replicate (length actions.now) None) (map (λ a. action_tree a.now) actions.now)) }
{
    let mut table = free(alloc, actions.len())?;
    for action in actions {
        let entry = entry_of(alloc, action)?;
        take_place(&mut table, action.number as usize, entry);
    }
    Ok(table)
}

fn followers_of(alloc: Global, actions: &[&Action]) -> Result<Vec<Vec<u32>>, AllocError>
    ensures { IfOk result (λ table. lists_of table.items
        ≡ all_added (replicate (length actions.now) []) (map (λ a. action_tree a.now) actions.now)) }
{
    let mut table = empty(alloc, actions.len())?;
    for action in actions {
        add_entries(&mut table, &action.after, action.number)?;
    }
    Ok(table)
}

fn holders_of(alloc: Global, actions: &[&Action]) -> Result<Vec<Option<u32>>, AllocError>
    ensures { IfOk result (λ table. table.items
        ≡ all_held (replicate (length actions.now) None) (map (λ a. action_tree a.now) actions.now)) }
{
    let mut table = free(alloc, actions.len())?;
    for action in actions {
        let shape = shape_of(alloc, &action.kind)?;
        hold_all(&mut table, &shape, action.number);
    }
    Ok(table)
}

impl Plan {
    /// The plan of a definition.
    pub fn of(alloc: Global, graph: &Graph) -> Result<Plan, AllocError>
        ensures { IfOk result (λ p. plan_tree p ≡ plan_of (graph_tree graph.now)) }
    {
        let actions = all_actions(alloc, graph)?;
        Ok(Plan {
            top: numbers_of(alloc, graph)?,
            entries: entries_of(alloc, &actions)?,
            followers: followers_of(alloc, &actions)?,
            holders: holders_of(alloc, &actions)?,
        })
    }

    /// The actions of the definition's own graph, in their order.
    pub fn top(&self) -> &[u32]
        ensures { result.now ≡ (plan_tree self.now).top }
    {
        &self.top
    }

    /// What an action waits for, which graphs it holds, and which actions get rows with it.
    pub fn entry(&self, action: u32) -> Option<&Entry>
        ensures { option_map (λ e. entry_tree e.now) result ≡ at_place (plan_tree self.now).entries action }
    {
        match self.entries.get(action as usize) {
            Some(Some(entry)) => Some(entry),
            _ => None,
        }
    }

    /// Which actions wait for an action.
    pub fn followers(&self, action: u32) -> &[u32]
        ensures { result.now ≡ list_at (plan_tree self.now).followers action }
    {
        match self.followers.get(action as usize) {
            Some(followers) => followers,
            None => &[],
        }
    }

    /// The container in a graph of which an action stands; none at the top.
    pub fn holder(&self, action: u32) -> Option<u32>
        ensures { result ≡ at_place (plan_tree self.now).holders action }
    {
        match self.holders.get(action as usize) {
            Some(holder) => *holder,
            None => None,
        }
    }
}
