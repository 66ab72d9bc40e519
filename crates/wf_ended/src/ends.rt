//! What the ends of a definition's runs are told by.
ghost use Rattle.std.specs.Prelude.{◌≡◌, ◌++◌, ◌∷◌, [], IfOk, OnOk, filter, map};
ghost use Rattle.wf_asks.specs.Instances.{address_of};
ghost use Rattle.wf_closing.specs.Steps.{judged_of};
ghost use Rattle.wf_closing.specs.StepsSeen.{judged_tree};
ghost use Rattle.wf_def.specs.ActionSeen.{action_tree, graph_tree};
ghost use Rattle.wf_def.specs.ActionTree.{action_kind, action_number, actions_in};
ghost use Rattle.wf_def.specs.AllActions.{all_actions};
ghost use Rattle.wf_layers.specs.Address.{address};
ghost use Rattle.wf_catalog.specs.Containers.{is_terminate};
ghost use Rattle.wf_catalog.specs.Record.{is_response};
ghost use Rattle.wf_catalog.specs.ReadSeen.{def_tree};
ghost use Rattle.wf_ended.specs.First.{places_of};

use std::alloc::{AllocError, Global};
use wf_asks::Instance;
use wf_catalog::Places;
use wf_closing::Judged;
use wf_def::{Action, Graph, Kind, all_actions};
use wf_sight_laws::Checked;
use wf_val::Indexes;

/// Of a definition that breaks no rule the graph at the top, as it is judged, and where its Terminates and Responses stand.
#[derive(Drop)]
pub struct Ends<'a> {
    pub checked: &'a Checked,
    pub(crate) places: &'a Places<'a>,
    pub(crate) top: Judged,
    pub(crate) terminates: Vec<Instance>,
    pub(crate) responses: Vec<Instance>,
    ghost placed: { places.now ≡ checked.now.def },
    ghost judged: { judged_tree top ≡ judged_of (actions_in (def_tree checked.now.def).top) },
    ghost terminating: { map address_of terminates.items ≡ places_of is_terminate (all_actions (def_tree checked.now.def).top) },
    ghost responding: { map address_of responses.items ≡ places_of is_response (all_actions (def_tree checked.now.def).top) },
}

fn add_response(numbers: &mut Vec<u32>, action: &Action) -> Result<(), AllocError>
    ensures { OnOk result (numbers.new.items ≡ numbers.old.items
        ++ map action_number (filter (λ a. is_response (action_kind a)) (action_tree action.now ∷ []))) }
{
    match action.kind {
        Kind::Response { .. } => {
            numbers.push(action.number)?;
            Ok(())
        }
        _ => Ok(()),
    }
}

fn responses_among(alloc: Global, actions: &[&Action]) -> Result<Vec<u32>, AllocError>
    ensures { IfOk result (λ ns. ns.items
        ≡ map action_number (filter (λ a. is_response (action_kind a)) (map (λ a. action_tree a.now) actions.now))) }
{
    let mut numbers = Vec::new(alloc);
    for action in actions {
        add_response(&mut numbers, action)?;
    }
    Ok(numbers)
}

fn outside_loops(alloc: Global, numbers: &[u32]) -> Result<Vec<Instance>, AllocError>
    ensures { IfOk result (λ xs. map address_of xs.items ≡ map (λ n. address n []) numbers.now) }
{
    let mut places = Vec::with_capacity(alloc, numbers.len())?;
    for number in numbers {
        places.push(Instance {
            action: *number,
            at: Indexes::new(alloc),
        })?;
    }
    Ok(places)
}

fn add_terminate(numbers: &mut Vec<u32>, action: &Action) -> Result<(), AllocError>
    ensures { OnOk result (numbers.new.items ≡ numbers.old.items
        ++ map action_number (filter (λ a. is_terminate (action_kind a)) (action_tree action.now ∷ []))) }
{
    match action.kind {
        Kind::Terminate { .. } => {
            numbers.push(action.number)?;
            Ok(())
        }
        _ => Ok(()),
    }
}

fn terminates_among(alloc: Global, actions: &[&Action]) -> Result<Vec<u32>, AllocError>
    ensures { IfOk result (λ ns. ns.items
        ≡ map action_number (filter (λ a. is_terminate (action_kind a)) (map (λ a. action_tree a.now) actions.now))) }
{
    let mut numbers = Vec::new(alloc);
    for action in actions {
        add_terminate(&mut numbers, action)?;
    }
    Ok(numbers)
}

// The Terminates of a graph at any depth. They stand in no loop, so each has one instance.
fn terminates(alloc: Global, graph: &Graph) -> Result<Vec<Instance>, AllocError>
    ensures { IfOk result (λ xs. map address_of xs.items ≡ places_of is_terminate (all_actions (graph_tree graph.now))) }
{
    let numbers = terminates_among(alloc, &all_actions(alloc, graph)?)?;
    outside_loops(alloc, &numbers)
}

// The Responses of a graph, which stand in no loop either.
fn responses(alloc: Global, graph: &Graph) -> Result<Vec<Instance>, AllocError>
    ensures { IfOk result (λ xs. map address_of xs.items ≡ places_of is_response (all_actions (graph_tree graph.now))) }
{
    let numbers = responses_among(alloc, &all_actions(alloc, graph)?)?;
    outside_loops(alloc, &numbers)
}

fn judged(alloc: Global, graph: &Graph) -> Result<Judged, AllocError>
    ensures { IfOk result (λ j. judged_tree j ≡ judged_of (actions_in (graph_tree graph.now))) }
{
    let judged = Judged::of(alloc, graph.actions.as_slice())?;
    Ok(judged)
}

impl<'a> Ends<'a> {
    /// Of a definition and its places. It walks its graphs a few times.
    pub fn of(
        alloc: Global,
        checked: &'a Checked,
        places: &'a Places<'a>,
    ) -> Result<Ends<'a>, AllocError>
        requires { places.now ≡ checked.now.def }
        ensures { IfOk result (λ e. e.checked.now ≡ checked.now) }
    {
        let top = judged(alloc, &checked.def.top)?;
        let terminates = terminates(alloc, &checked.def.top)?;
        let responses = responses(alloc, &checked.def.top)?;
        Ok(Ends {
            checked,
            places,
            top,
            terminates,
            responses,
        })
    }
}
