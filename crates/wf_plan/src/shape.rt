//! Which graphs an action holds.
ghost use Rattle.std.specs.Prelude.{◌≡◌, ◌∷◌, ◌++◌, [], IfOk, OnOk, cond, option_map, slice_get};
ghost use Rattle.wf_def.specs.ActionSeen.{cases_seen, graph_tree, kind_tree};
ghost use Rattle.wf_def.specs.ActionTree.{case_trees};
ghost use Rattle.wf_def.specs.Layered.{layered, layered_kind};
ghost use Rattle.wf_def.specs.Definition.{is_one};
ghost use Rattle.wf_plan.specs.Plan.{branch_of, case_branches, default_branch, own_numbers, shape_of};
ghost use Rattle.wf_plan.specs.Plan.{passed_but, passed_over, taken_at, taken_of};
ghost use Rattle.wf_plan.specs.PlanSeen.{branch_tree, branches_seen, shape_tree};

use crate::block::block_in;
use std::alloc::{AllocError, Global};
use wf_def::{Cases, Graph, Kind};

/// A branch of an If or a Switch.
#[derive(Drop)]
pub struct Branch {
    /// Its own actions, in their order.
    pub own: Vec<u32>,
    /// These and all inside them that stand in no loop there: those that get rows together where it isn't taken.
    pub all: Vec<u32>,
}

/// The graphs that an action holds, each as the numbers of its actions in their order, and how its iterations go.
#[derive(Drop)]
pub enum Shape {
    Leaf,
    Scope(Vec<u32>),
    /// The branches of an If or a Switch, and of a Switch behind its cases what is taken where none of them is.
    Choice(Vec<Branch>),
    /// One iteration after the other where `repetitions` is 1, else at most so many unfinished ones side by side.
    Foreach { repetitions: u32, graph: Vec<u32> },
    Until { count: u32, graph: Vec<u32> },
}

// The actions of a graph, in their order.
pub(crate) fn numbers_of(alloc: Global, graph: &Graph) -> Result<Vec<u32>, AllocError>
    ensures { IfOk result (λ numbers. numbers.items ≡ own_numbers (layered (graph_tree graph.now))) }
{
    let mut numbers = Vec::new(alloc);
    for action in graph.actions.as_slice() {
        numbers.push(action.number)?;
    }
    Ok(numbers)
}

fn branch_of(alloc: Global, graph: &Graph) -> Result<Branch, AllocError>
    ensures { IfOk result (λ branch. branch_tree branch ≡ branch_of (layered (graph_tree graph.now))) }
{
    Ok(Branch {
        own: numbers_of(alloc, graph)?,
        all: block_in(alloc, graph)?,
    })
}

fn branches_of(alloc: Global, yes: &Graph, no: &Graph) -> Result<Vec<Branch>, AllocError>
    ensures { IfOk result (λ branches. branches_seen branches.items
        ≡ branch_of (layered (graph_tree yes.now)) ∷ branch_of (layered (graph_tree no.now)) ∷ []) }
{
    let mut branches = Vec::new(alloc);
    branches.push(branch_of(alloc, yes)?)?;
    branches.push(branch_of(alloc, no)?)?;
    Ok(branches)
}

fn cases_of(alloc: Global, cases: &Cases) -> Result<Vec<Branch>, AllocError>
    ensures { IfOk result (λ branches. branches_seen branches.items ≡ case_branches (case_trees (cases_seen cases.now))) }
{
    let mut branches = Vec::new(alloc);
    for case in cases.as_slice() {
        branches.push(branch_of(alloc, &case.graph)?)?;
    }
    Ok(branches)
}

fn default_of(alloc: Global, default: &Option<Graph>) -> Result<Branch, AllocError>
    ensures { IfOk result (λ branch. branch_tree branch ≡ default_branch (option_map graph_tree default.now)) }
{
    match default {
        Some(graph) => branch_of(alloc, graph),
        None => Ok(Branch {
            own: Vec::new(alloc),
            all: Vec::new(alloc),
        }),
    }
}

// The cases, and behind them what is taken where none of them is.
fn cases_then(
    alloc: Global,
    cases: &Cases,
    default: &Option<Graph>,
) -> Result<Vec<Branch>, AllocError>
    ensures { IfOk result (λ branches. branches_seen branches.items
        ≡ case_branches (case_trees (cases_seen cases.now)) ++ default_branch (option_map graph_tree default.now) ∷ []) }
{
    let mut branches = cases_of(alloc, cases)?;
    branches.push(default_of(alloc, default)?)?;
    Ok(branches)
}

pub(crate) fn shape_of(alloc: Global, kind: &Kind) -> Result<Shape, AllocError>
    ensures { IfOk result (λ shape. shape_tree shape ≡ shape_of (layered_kind (kind_tree kind.now))) }
{
    match kind {
        Kind::Scope { graph } => Ok(Shape::Scope(numbers_of(alloc, graph)?)),
        Kind::If { test: _, yes, no } => Ok(Shape::Choice(branches_of(alloc, yes, no)?)),
        Kind::Switch {
            on: _,
            cases,
            default,
        } => Ok(Shape::Choice(cases_then(alloc, cases, default)?)),
        Kind::Foreach {
            list: _,
            repetitions,
            graph,
        } => Ok(Shape::Foreach {
            repetitions: *repetitions,
            graph: numbers_of(alloc, graph)?,
        }),
        Kind::Until {
            test: _,
            count,
            fails: _,
            graph,
        } => Ok(Shape::Until {
            count: *count,
            graph: numbers_of(alloc, graph)?,
        }),
        _ => Ok(Shape::Leaf),
    }
}

// Puts a branch behind, where it isn't the one that is taken.
#[tactic(auto, using(crate::proofs::GraphLemmas::one_added, crate::proofs::GraphLemmas::other_added))]
fn add_passed(numbers: &mut Vec<u32>, branch: &Branch, taken: u64) -> Result<(), AllocError>
    ensures { OnOk result (numbers.new.items ≡ numbers.old.items ++ cond (is_one taken) [] (branch_tree branch.now).all) }
{
    if taken != 1 {
        numbers.extend_from_slice(&branch.all)?;
    }
    Ok(())
}

fn passed_but(alloc: Global, branches: &[Branch], taken: u64) -> Result<Vec<u32>, AllocError>
    ensures { IfOk result (λ numbers. numbers.items ≡ passed_but (branches_seen branches.now) taken) }
{
    let mut numbers = Vec::new(alloc);
    let mut next = taken;
    for branch in branches {
        add_passed(&mut numbers, branch, next)?;
        next = next.saturating_sub(1);
    }
    Ok(numbers)
}

fn branch_at(branches: &[Branch], place: usize) -> Option<&Branch>
    ensures { option_map (λ b. b.now) result ≡ slice_get branches.now place }
{
    branches.get(place)
}

// The branch of a number, counted from 1.
#[tactic(auto, using(crate::proofs::GraphLemmas::none_taken))]
fn taken_at(branches: &[Branch], taken: u64) -> Option<&Branch>
    ensures { option_map (λ b. branch_tree b.now) result ≡ taken_at (branches_seen branches.now) taken }
{
    if taken == 0 {
        None
    } else {
        branch_at(branches, (taken - 1) as usize)
    }
}

impl Shape {
    /// The branch of a number, counted from 1.
    pub fn taken(&self, taken: u64) -> Option<&Branch>
        ensures { option_map (λ b. branch_tree b.now) result ≡ taken_of (shape_tree self.now) taken }
    {
        match self {
            Shape::Choice(branches) => taken_at(branches, taken),
            _ => None,
        }
    }

    /// What is passed over where the branch of a number is taken, counted from 1: all other branches. Another number takes none.
    pub fn passed_over(&self, alloc: Global, taken: u64) -> Result<Vec<u32>, AllocError>
        ensures { IfOk result (λ numbers. numbers.items ≡ passed_over (shape_tree self.now) taken) }
    {
        match self {
            Shape::Choice(branches) => passed_but(alloc, branches, taken),
            _ => Ok(Vec::new(alloc)),
        }
    }
}
