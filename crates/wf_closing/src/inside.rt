//! What closing asks of a container beside its kind.
ghost use Rattle.std.specs.Prelude.{◌≡◌, ◌++◌, ◌∷◌, [], IfOk, OnOk, filter, map};
ghost use Rattle.wf_asks.specs.Instances.{address_of, rows_in};
ghost use Rattle.wf_def.specs.ActionSeen.{action_tree, cases_seen, graph_tree, kind_tree};
ghost use Rattle.wf_def.specs.ActionTree.{action_kind, action_number, actions_in, case_trees};
ghost use Rattle.wf_def.specs.AllActions.{all_actions, cases_actions, kind_actions};
ghost use Rattle.wf_meant.specs.Containers.{has_succeeded, is_terminate};
ghost use Rattle.wf_closing.specs.Inside.{any_succeeded, case_graphs, graphs_in, inside_of, status_in};
ghost use Rattle.wf_closing.specs.InsideSeen.{inside_tree};
ghost use Rattle.wf_closing.specs.Steps.{judged_of};
ghost use Rattle.wf_closing.specs.StepsSeen.{judged_tree, row_content};

use crate::judged::Judged;
use std::alloc::{AllocError, Global};
use wf_asks::{Instance, Rows};
use wf_def::{Action, Cases, Graph, Kind, all_actions};
use wf_lists::TryCopy;
use wf_record::{Row, Status};
use wf_val::Indexes;

/// A container's own graphs, as they are judged, and the numbers of the Terminates inside it, at any depth.
#[derive(Drop)]
pub struct Inside {
    pub graphs: Vec<Judged>,
    pub terminates: Vec<u32>,
}

// Judges a graph behind those that are judged.
fn add_graph(alloc: Global, graphs: &mut Vec<Judged>, graph: &Graph) -> Result<(), AllocError>
    ensures { OnOk result (map judged_tree graphs.new.items
        ≡ map judged_tree graphs.old.items ++ judged_of (actions_in (graph_tree graph.now)) ∷ []) }
{
    graphs.push(Judged::of(alloc, graph.actions.as_slice())?)?;
    Ok(())
}

fn add_cases(alloc: Global, graphs: &mut Vec<Judged>, cases: &Cases) -> Result<(), AllocError>
    ensures { OnOk result (map judged_tree graphs.new.items ≡ map judged_tree graphs.old.items
        ++ map (λ g. judged_of (actions_in g)) (case_graphs (case_trees (cases_seen cases.now)))) }
{
    for case in cases.as_slice() {
        add_graph(alloc, graphs, &case.graph)?;
    }
    Ok(())
}

fn add_all(alloc: Global, graphs: &mut Vec<Judged>, kind: &Kind) -> Result<(), AllocError>
    ensures { OnOk result (map judged_tree graphs.new.items ≡ map judged_tree graphs.old.items
        ++ map (λ g. judged_of (actions_in g)) (graphs_in (kind_tree kind.now))) }
{
    match kind {
        Kind::Scope { graph } => add_graph(alloc, graphs, graph),
        Kind::If { test: _, yes, no } => {
            add_graph(alloc, graphs, yes)?;
            add_graph(alloc, graphs, no)
        }
        Kind::Switch {
            on: _,
            cases,
            default,
        } => {
            add_cases(alloc, graphs, cases)?;
            match default {
                Some(graph) => add_graph(alloc, graphs, graph),
                None => Ok(()),
            }
        }
        Kind::Foreach {
            list: _,
            repetitions: _,
            graph,
        } => add_graph(alloc, graphs, graph),
        Kind::Until {
            test: _,
            count: _,
            fails: _,
            graph,
        } => add_graph(alloc, graphs, graph),
        _ => Ok(()),
    }
}

// The Terminates among these, behind others.
fn add_terminates(numbers: &mut Vec<u32>, actions: &[&Action]) -> Result<(), AllocError>
    ensures { OnOk result (numbers.new.items ≡ numbers.old.items
        ++ map action_number (filter (λ a. is_terminate (action_kind a)) (map (λ a. action_tree a.now) actions.now))) }
{
    for action in actions {
        add_terminate(numbers, action)?;
    }
    Ok(())
}

fn add_terminate(numbers: &mut Vec<u32>, action: &Action) -> Result<(), AllocError>
    ensures { OnOk result (numbers.new.items ≡ numbers.old.items
        ++ map action_number (filter (λ a. is_terminate (action_kind a)) (action_tree action.now ∷ []))) }
{
    match action.kind {
        Kind::Terminate { .. } => {
            numbers.push(action.number)?;
            Ok(())
        }
        _ => Ok(()),
    }
}

fn terminates_in(alloc: Global, numbers: &mut Vec<u32>, graph: &Graph) -> Result<(), AllocError>
    ensures { OnOk result (numbers.new.items ≡ numbers.old.items
        ++ map action_number (filter (λ a. is_terminate (action_kind a)) (all_actions (graph_tree graph.now)))) }
{
    add_terminates(numbers, &all_actions(alloc, graph)?)
}

fn terminates_of_cases(
    alloc: Global,
    numbers: &mut Vec<u32>,
    cases: &Cases,
) -> Result<(), AllocError>
    ensures { OnOk result (numbers.new.items ≡ numbers.old.items
        ++ map action_number (filter (λ a. is_terminate (action_kind a)) (cases_actions (case_trees (cases_seen cases.now))))) }
{
    for case in cases.as_slice() {
        terminates_in(alloc, numbers, &case.graph)?;
    }
    Ok(())
}

fn terminates_of(alloc: Global, numbers: &mut Vec<u32>, kind: &Kind) -> Result<(), AllocError>
    ensures { OnOk result (numbers.new.items ≡ numbers.old.items
        ++ map action_number (filter (λ a. is_terminate (action_kind a)) (kind_actions (kind_tree kind.now)))) }
{
    match kind {
        Kind::Scope { graph } => terminates_in(alloc, numbers, graph),
        Kind::If { test: _, yes, no } => {
            terminates_in(alloc, numbers, yes)?;
            terminates_in(alloc, numbers, no)
        }
        Kind::Switch {
            on: _,
            cases,
            default,
        } => {
            terminates_of_cases(alloc, numbers, cases)?;
            match default {
                Some(graph) => terminates_in(alloc, numbers, graph),
                None => Ok(()),
            }
        }
        Kind::Foreach {
            list: _,
            repetitions: _,
            graph,
        } => terminates_in(alloc, numbers, graph),
        Kind::Until {
            test: _,
            count: _,
            fails: _,
            graph,
        } => terminates_in(alloc, numbers, graph),
        _ => Ok(()),
    }
}

impl Inside {
    /// What closing asks of an action of this kind; of one that is no container it asks nothing.
    pub fn of(alloc: Global, kind: &Kind) -> Result<Inside, AllocError>
        ensures { IfOk result (λ i. inside_tree i ≡ inside_of (kind_tree kind.now)) }
    {
        let mut graphs = Vec::new(alloc);
        add_all(alloc, &mut graphs, kind)?;
        let mut terminates = Vec::new(alloc);
        terminates_of(alloc, &mut terminates, kind)?;
        Ok(Inside { graphs, terminates })
    }

    /// How the graph at a place among the container's own ended at these indexes; one that isn't there Succeeded.
    pub fn status(
        &self,
        alloc: Global,
        place: usize,
        at: &Indexes,
        rows: &Rows<Row>,
    ) -> Result<Status, AllocError>
        ensures { IfOk result (λ s. s ≡ status_in (inside_tree self.now) place at.now (rows_in row_content rows.now.0)) }
    {
        match self.graphs.get(place) {
            Some(graph) => graph.status(alloc, at, rows),
            None => Ok(Status::Succeeded),
        }
    }

    /// Whether one of the Terminates inside Succeeded at these indexes. They stand in no loop, so those of a container round them are
    /// theirs.
    pub fn is_terminated(
        &self,
        alloc: Global,
        at: &Indexes,
        rows: &Rows<Row>,
    ) -> Result<bool, AllocError>
        ensures { IfOk result (λ b. b ≡ any_succeeded (inside_tree self.now).terminates at.now (rows_in row_content rows.now.0)) }
    {
        let mut place = Instance {
            action: 0,
            at: at.copy(alloc)?,
        };
        for number in &self.terminates {
            place.action = *number;
            if has_succeeded(rows, &place) {
                return Ok(true);
            }
        }
        Ok(false)
    }
}

fn has_succeeded(rows: &Rows<Row>, place: &Instance) -> bool
    ensures { result ≡ has_succeeded (rows_in row_content rows.now.0 (address_of place.now)) }
{
    match rows.get(place) {
        Some(found) => matches!(found.row.status, Status::Succeeded),
        None => false,
    }
}
