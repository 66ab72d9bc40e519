//! What keeps an action from running beside its `runAfter`: a Terminate before it that Succeeded.
ghost use Rattle.std.specs.Prelude.{◌≡◌, ◌++◌, ◌∷◌, [], ◌&&◌, IfOk, OnOk, filter, map};
ghost use Rattle.wf_asks.specs.Instances.{address_of, rows_in};
ghost use Rattle.wf_closing.specs.StepsSeen.{row_content};
ghost use Rattle.wf_def.specs.ActionSeen.{action_tree, graph_tree};
ghost use Rattle.wf_def.specs.ActionTree.{action_kind, action_number};
ghost use Rattle.wf_def.specs.AllActions.{all_actions};
ghost use Rattle.wf_layers.specs.Address.{address};
ghost use Rattle.wf_closing.specs.Containers.{has_succeeded, is_terminate};
ghost use Rattle.wf_order.specs.OrderSeen.{order_tree};
ghost use Rattle.wf_order.specs.Table.{before};
ghost use Rattle.wf_doing.specs.Halting.{any_halts, halts_by, terminates_in};

use std::alloc::{AllocError, Global};
use wf_asks::{Instance, Rows};
use wf_def::{Action, Graph, Kind, all_actions};
use wf_order::Order;
use wf_record::{Row, Status};
use wf_val::Indexes;

fn add_terminate(numbers: &mut Vec<u32>, action: &Action) -> Result<(), AllocError>
    ensures { OnOk result (numbers.new.items ≡ numbers.old.items
        ++ map action_number (filter (λ a. is_terminate (action_kind a)) (action_tree action.now ∷ []))) }
{
    match action.kind {
        Kind::Terminate { .. } => {
            numbers.push(action.number)?;
            Ok(())
        }
        _ => Ok(()),
    }
}

// The numbers of the Terminates among these.
fn numbers_of(alloc: Global, actions: &[&Action]) -> Result<Vec<u32>, AllocError>
    ensures { IfOk result (λ ns. ns.items
        ≡ map action_number (filter (λ a. is_terminate (action_kind a)) (map (λ a. action_tree a.now) actions.now))) }
{
    let mut numbers = Vec::new(alloc);
    for action in actions {
        add_terminate(&mut numbers, action)?;
    }
    Ok(numbers)
}

fn outside_loops(alloc: Global, numbers: &[u32]) -> Result<Vec<Instance>, AllocError>
    ensures { IfOk result (λ xs. map address_of xs.items ≡ map (λ n. address n []) numbers.now) }
{
    let mut places = Vec::with_capacity(alloc, numbers.len())?;
    for number in numbers {
        places.push(Instance {
            action: *number,
            at: Indexes::new(alloc),
        })?;
    }
    Ok(places)
}

/// The Terminates of a graph at any depth. They stand in no loop, so each has one instance.
pub fn terminates(alloc: Global, graph: &Graph) -> Result<Vec<Instance>, AllocError>
    ensures { IfOk result (λ xs. map address_of xs.items ≡ terminates_in (all_actions (graph_tree graph.now))) }
{
    let numbers = numbers_of(alloc, &all_actions(alloc, graph)?)?;
    outside_loops(alloc, &numbers)
}

fn has_succeeded(rows: &Rows<Row>, place: &Instance) -> bool
    ensures { result ≡ has_succeeded (rows_in row_content rows.now.0 (address_of place.now)) }
{
    match rows.get(place) {
        Some(found) => matches!(found.row.status, Status::Succeeded),
        None => false,
    }
}

fn halts_by(order: &Order, place: &Instance, number: u32, rows: &Rows<Row>) -> bool
    ensures { result ≡ halts_by (order_tree order.now) number (rows_in row_content rows.now.0) (address_of place.now) }
{
    order.before(place.action, number) && has_succeeded(rows, place)
}

/// Whether one of these is before the action and Succeeded.
pub fn halts(order: &Order, terminates: &[Instance], number: u32, rows: &Rows<Row>) -> bool
    ensures { result ≡ any_halts (order_tree order.now) number (rows_in row_content rows.now.0) (map address_of terminates.now) }
{
    for place in terminates {
        if halts_by(order, place, number, rows) {
            return true;
        }
    }
    false
}
