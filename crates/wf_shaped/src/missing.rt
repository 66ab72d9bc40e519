//! Instances that are called for and have no row.
ghost use Rattle.std.specs.Prelude.{◌≡◌, ◌++◌, ◌∷◌, [], IfOk};
ghost use Rattle.wf_def.specs.ActionSeen.{action_tree, cases_seen, graph_tree, kind_tree};
ghost use Rattle.wf_def.specs.ActionTree.{action_name, actions_in, case_trees};
ghost use Rattle.wf_record.specs.Seen.{record_tree};
ghost use Rattle.wf_shaped.specs.Least.{least_from};
ghost use Rattle.wf_catalog.specs.References.{in_cases};
ghost use Rattle.wf_shaped.specs.Told.{held, indexes_inside, instances, instances_of, missing, turns_from};

use crate::least::Least;
use std::alloc::{AllocError, Global};
use wf_def::{Action, Cases, Graph, Kind};
use wf_lists::TryCopy;
use wf_record::Record;
use wf_val::{Address, Indexes};

fn with_turn(alloc: Global, at: &Indexes, turn: u64) -> Result<Indexes, AllocError>
    ensures { IfOk result (λ is. is ≡ at.now ++ turn ∷ []) }
{
    let mut indexes = at.copy(alloc)?;
    indexes.push(turn)?;
    Ok(indexes)
}

fn instance(alloc: Global, action: &Action, at: Indexes) -> Result<Address, AllocError>
    ensures { IfOk result (λ y. y ≡ record { name = action_name (action_tree action.now); at = at }) }
{
    let name = action.name.copy(alloc)?;
    Ok(Address { name, at })
}

// In the iterations of a loop, of which there are so many. Those behind the first that is missing are above it.
fn missing_turns(
    alloc: Global,
    log: &Record,
    action: &Action,
    at: &Indexes,
    count: u64,
    least: Least,
) -> Result<Least, AllocError>
    ensures { IfOk result (λ l. l.address ≡ least_from least.address
        (missing (record_tree log.now).rows (instances (turns_from at.now 0 count) (action_tree action.now)))) }
{
    for turn in 0..count {
        let indexes = with_turn(alloc, at, turn)?;
        let address = instance(alloc, action, indexes)?;
        if log.row(&address).is_none() {
            return Ok(least.with(address));
        }
    }
    Ok(least)
}

fn missing_one(
    alloc: Global,
    log: &Record,
    action: &Action,
    at: &Indexes,
    least: Least,
) -> Result<Least, AllocError>
    ensures { IfOk result (λ l. l.address ≡ least_from least.address
        (missing (record_tree log.now).rows (instances (at.now ∷ []) (action_tree action.now)))) }
{
    let indexes = at.copy(alloc)?;
    let address = instance(alloc, action, indexes)?;
    if log.row(&address).is_none() {
        return Ok(least.with(address));
    }
    Ok(least)
}

fn missing_of(
    alloc: Global,
    log: &Record,
    action: &Action,
    at: &Indexes,
    turns: Option<u64>,
    least: Least,
) -> Result<Least, AllocError>
    ensures { IfOk result (λ l. l.address ≡ least_from least.address
        (missing (record_tree log.now).rows (instances (indexes_inside at.now turns) (action_tree action.now)))) }
{
    if least.is_under(&action.name) {
        return Ok(least);
    }
    match turns {
        Some(count) => missing_turns(alloc, log, action, at, count, least),
        None => missing_one(alloc, log, action, at, least),
    }
}

/// The least of these and of the instances of a graph's own actions that have no row: at these indexes, or in so many iterations there.
pub(crate) fn missing_in_graph(
    alloc: Global,
    log: &Record,
    graph: &Graph,
    at: &Indexes,
    turns: Option<u64>,
    least: Least,
) -> Result<Least, AllocError>
    ensures { IfOk result (λ l. l.address ≡ least_from least.address
        (missing (record_tree log.now).rows (instances_of (indexes_inside at.now turns) (actions_in (graph_tree graph.now))))) }
{
    let mut least = least;
    for action in graph.actions.as_slice() {
        least = missing_of(alloc, log, action, at, turns, least)?;
    }
    Ok(least)
}

fn missing_in_cases(
    alloc: Global,
    log: &Record,
    cases: &Cases,
    at: &Indexes,
    turns: Option<u64>,
    least: Least,
) -> Result<Least, AllocError>
    ensures { IfOk result (λ l. l.address ≡ least_from least.address (missing (record_tree log.now).rows
        (instances_of (indexes_inside at.now turns) (in_cases (case_trees (cases_seen cases.now)))))) }
{
    let mut least = least;
    for case in cases.as_slice() {
        least = missing_in_graph(alloc, log, &case.graph, at, turns, least)?;
    }
    Ok(least)
}

#[tactic(auto, using(crate::proofs::MissingLemmas::least_of_both))]
fn missing_in_branches(
    alloc: Global,
    log: &Record,
    yes: &Graph,
    no: &Graph,
    at: &Indexes,
    turns: Option<u64>,
    least: Least,
) -> Result<Least, AllocError>
    ensures { IfOk result (λ l. l.address ≡ least_from least.address (missing (record_tree log.now).rows
        (instances_of (indexes_inside at.now turns) (actions_in (graph_tree yes.now) ++ actions_in (graph_tree no.now))))) }
{
    let least = missing_in_graph(alloc, log, yes, at, turns, least)?;
    missing_in_graph(alloc, log, no, at, turns, least)
}

#[tactic(auto, using(crate::proofs::MissingLemmas::least_of_both))]
fn missing_in_switch(
    alloc: Global,
    log: &Record,
    cases: &Cases,
    default: &Graph,
    at: &Indexes,
    turns: Option<u64>,
    least: Least,
) -> Result<Least, AllocError>
    ensures { IfOk result (λ l. l.address ≡ least_from least.address (missing (record_tree log.now).rows (instances_of
        (indexes_inside at.now turns) (in_cases (case_trees (cases_seen cases.now)) ++ actions_in (graph_tree default.now))))) }
{
    let least = missing_in_cases(alloc, log, cases, at, turns, least)?;
    missing_in_graph(alloc, log, default, at, turns, least)
}

/// And of the actions of a container's own graphs.
pub(crate) fn missing_inside(
    alloc: Global,
    log: &Record,
    kind: &Kind,
    at: &Indexes,
    turns: Option<u64>,
    least: Least,
) -> Result<Least, AllocError>
    ensures { IfOk result (λ l. l.address ≡ least_from least.address
        (missing (record_tree log.now).rows (instances_of (indexes_inside at.now turns) (held (kind_tree kind.now))))) }
{
    match kind {
        Kind::Scope { graph } => missing_in_graph(alloc, log, graph, at, turns, least),
        Kind::If { test: _, yes, no } => {
            missing_in_branches(alloc, log, yes, no, at, turns, least)
        }
        Kind::Switch {
            on: _,
            cases,
            default,
        } => match default {
            Some(graph) => missing_in_switch(alloc, log, cases, graph, at, turns, least),
            None => missing_in_cases(alloc, log, cases, at, turns, least),
        },
        Kind::Foreach {
            list: _,
            repetitions: _,
            graph,
        } => missing_in_graph(alloc, log, graph, at, turns, least),
        Kind::Until {
            test: _,
            count: _,
            fails: _,
            graph,
        } => missing_in_graph(alloc, log, graph, at, turns, least),
        _ => Ok(least),
    }
}
