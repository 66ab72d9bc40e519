//! The actions of a container's own graphs.
ghost use Rattle.std.specs.Prelude.{◌≡◌, ◌++◌, IfOk, map, option_map};
ghost use Rattle.wf_def.specs.ActionSeen.{cases_seen, graph_tree, kind_tree};
ghost use Rattle.wf_def.specs.ActionTree.{actions_in, case_trees};
ghost use Rattle.wf_catalog.specs.References.{by_name, first_level, in_cases};
ghost use Rattle.wf_views.specs.Inner.{default_actions};
ghost use Rattle.wf_catalog.specs.PlacesSeen.{named_tree};

use std::alloc::{AllocError, Global};
use wf_catalog::{Named, by_keys};
use wf_def::{Cases, Graph, Kind};
use wf_lists::Sorted;

fn in_graph<'a>(found: Vec<Named<'a>>, graph: &'a Graph) -> Result<Vec<Named<'a>>, AllocError>
    ensures { IfOk result (λ all. map named_tree all.items ≡ map named_tree found.entry.items ++ actions_in (graph_tree graph.now)) }
{
    let mut all = found;
    for action in graph.actions.as_slice() {
        all.push(Named { action })?;
    }
    Ok(all)
}

fn in_cases<'a>(found: Vec<Named<'a>>, cases: &'a Cases) -> Result<Vec<Named<'a>>, AllocError>
    ensures { IfOk result (λ all. map named_tree all.items ≡ map named_tree found.entry.items
        ++ in_cases (case_trees (cases_seen cases.now))) }
{
    let mut all = found;
    for case in cases.as_slice() {
        all = in_graph(all, &case.graph)?;
    }
    Ok(all)
}

fn in_branches<'a>(
    alloc: Global,
    yes: &'a Graph,
    no: &'a Graph,
) -> Result<Vec<Named<'a>>, AllocError>
    ensures { IfOk result (λ all. map named_tree all.items ≡ actions_in (graph_tree yes.now) ++ actions_in (graph_tree no.now)) }
{
    let all = in_graph(Vec::new(alloc), yes)?;
    in_graph(all, no)
}

fn in_switch<'a>(
    alloc: Global,
    cases: &'a Cases,
    default: Option<&'a Graph>,
) -> Result<Vec<Named<'a>>, AllocError>
    ensures { IfOk result (λ all. map named_tree all.items
        ≡ in_cases (case_trees (cases_seen cases.now)) ++ default_actions (option_map (λ g. graph_tree g.now) default.entry)) }
{
    let all = in_cases(Vec::new(alloc), cases)?;
    match default {
        Some(graph) => in_graph(all, graph),
        None => Ok(all),
    }
}

// The actions as they stand; none of a kind that holds no others.
fn first_level<'a>(alloc: Global, kind: &'a Kind) -> Result<Option<Vec<Named<'a>>>, AllocError>
    ensures { IfOk result (λ all. option_map (λ v. map named_tree v.items) all ≡ first_level (kind_tree kind.now)) }
{
    match kind {
        Kind::Scope { graph } => Ok(Some(in_graph(Vec::new(alloc), graph)?)),
        Kind::If { test: _, yes, no } => Ok(Some(in_branches(alloc, yes, no)?)),
        Kind::Switch {
            on: _,
            cases,
            default,
        } => Ok(Some(in_switch(alloc, cases, default.as_ref())?)),
        Kind::Foreach {
            list: _,
            repetitions: _,
            graph,
        } => Ok(Some(in_graph(Vec::new(alloc), graph)?)),
        Kind::Until {
            test: _,
            count: _,
            fails: _,
            graph,
        } => Ok(Some(in_graph(Vec::new(alloc), graph)?)),
        _ => Ok(None),
    }
}

/// The same in the order of their names.
#[tactic(auto, using(crate::proofs::ViewLemmas::named_in_order))]
pub(crate) fn inner_of<'a>(
    alloc: Global,
    kind: &'a Kind,
) -> Result<Option<Sorted<Named<'a>>>, AllocError>
    ensures { IfOk result (λ all. option_map (map named_tree) all ≡ option_map by_name (first_level (kind_tree kind.now))) }
{
    match first_level(alloc, kind)? {
        Some(actions) => Ok(Some(by_keys(alloc, actions)?)),
        None => Ok(None),
    }
}
