//! The graph round an action that gets its row, and the container that holds it.
ghost use Rattle.std.specs.Prelude.{◌≡◌, IfOk, option_map};
ghost use Rattle.wf_tables.specs.PlanSeen.{entry_tree, plan_tree, shape_tree};
ghost use Rattle.wf_events.specs.Round.{but_last, is_turn, outer_at, outer_or_same, round_at, round_in, turn_or_none};

use std::alloc::{AllocError, Global};
use wf_lists::TryCopy;
use wf_tables::{Entry, Instance, Plan, Shape};
use wf_val::Indexes;

/// The graph in which an action stands.
#[derive(Drop)]
pub struct Round {
    /// The graph, by its container and the indexes inside that.
    pub graph: Instance,
    /// The container where it stands itself.
    pub container: Instance,
    /// Whether the graph is an iteration of a Foreach.
    pub is_turn: bool,
}

#[tactic(auto, using(crate::proofs::RoundLemmas::last_dropped))]
fn but_last(at: &[u64]) -> &[u64]
    ensures { result.now ≡ but_last at.now }
{
    match at.split_last() {
        Some((_, before)) => before,
        None => at,
    }
}

fn indexes(alloc: Global, at: &[u64]) -> Result<Indexes, AllocError>
    ensures { IfOk result (λ i. i ≡ at.now) }
{
    let mut copied = Indexes::new(alloc);
    for index in at {
        copied.push(*index)?;
    }
    Ok(copied)
}

fn outer_at(alloc: Global, shape: &Shape, at: &Indexes) -> Result<Indexes, AllocError>
    ensures { IfOk result (λ i. i ≡ outer_at (shape_tree shape.now) at.now) }
{
    match shape {
        Shape::Foreach { .. } => indexes(alloc, but_last(at.as_slice())),
        Shape::Until { .. } => indexes(alloc, but_last(at.as_slice())),
        _ => at.copy(alloc),
    }
}

fn is_turn(shape: &Shape, at: &Indexes) -> bool
    ensures { result ≡ is_turn (shape_tree shape.now) at.now }
{
    match shape {
        Shape::Foreach { .. } => at.len() > 0,
        _ => false,
    }
}

fn outer_or_same(alloc: Global, entry: Option<&Entry>, at: &Indexes) -> Result<Indexes, AllocError>
    ensures { IfOk result (λ i. i ≡ outer_or_same (option_map (λ e. entry_tree e.now) entry.entry) at.now) }
{
    match entry {
        Some(entry) => outer_at(alloc, &entry.shape, at),
        None => at.copy(alloc),
    }
}

fn turn_or_none(entry: Option<&Entry>, at: &Indexes) -> bool
    ensures { result ≡ turn_or_none (option_map (λ e. entry_tree e.now) entry.entry) at.now }
{
    match entry {
        Some(entry) => is_turn(&entry.shape, at),
        None => false,
    }
}

fn round_in(alloc: Global, plan: &Plan, at: &Indexes, container: u32) -> Result<Round, AllocError>
    ensures { IfOk result (λ r. r ≡ round_in (plan_tree plan.now) at.now container) }
{
    let is_turn = turn_or_none(plan.entry(container), at);
    let outer = outer_or_same(alloc, plan.entry(container), at)?;
    Ok(Round {
        graph: Instance {
            action: container,
            at: at.copy(alloc)?,
        },
        container: Instance {
            action: container,
            at: outer,
        },
        is_turn,
    })
}

/// The graph round an action; none at the top.
pub fn round_of(alloc: Global, plan: &Plan, place: &Instance) -> Result<Option<Round>, AllocError>
    ensures { IfOk result (λ r. r ≡ round_at (plan_tree plan.now) place.now) }
{
    match plan.holder(place.action) {
        Some(container) => Ok(Some(round_in(alloc, plan, &place.at, container)?)),
        None => Ok(None),
    }
}
