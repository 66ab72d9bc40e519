//! What is asked of a name, and the least name of which it holds.
ghost use Rattle.std.specs.Prelude.{◌≡◌, IfOk, if◌then◌else◌, map, option_map};
ghost use Rattle.std.specs.List.{find};
ghost use Rattle.wf_def.specs.ActionSeen.{action_tree, graph_tree, kind_tree};
ghost use Rattle.wf_loops.specs.OrderSeen.{order_tree};
ghost use Rattle.wf_record.specs.Seen.{record_tree, row_tree};
ghost use Rattle.wf_resubmit.specs.Least.{least_of, lesser};
ghost use Rattle.wf_resubmit.specs.Refused.{has_run, is_idle, is_in_loop, is_loop, is_missing, is_round, loop_of};

use std::alloc::{AllocError, Global};
use wf_def::{Action, Graph, Kind};
use wf_loops::Order;
use wf_record::{Record, Row, Status};
use wf_val::{Address, Indexes, Name};

// The lesser of two names.
fn lesser<'a>(least: Option<&'a Name>, name: &'a Name) -> Option<&'a Name>
    ensures { option_map (λ n. n.now) result ≡ lesser (option_map (λ n. n.now) least.entry) name.now }
{
    match least {
        Some(least) if !name.order(least).is_lt() => Some(least),
        _ => Some(name),
    }
}

// And only where something holds of this one.
fn lesser_if<'a>(holds: bool, least: Option<&'a Name>, name: &'a Name) -> Option<&'a Name>
    ensures { option_map (λ n. n.now) result
        ≡ (if holds then lesser (option_map (λ n. n.now) least.entry) name.now else option_map (λ n. n.now) least.entry) }
{
    if holds { lesser(least, name) } else { least }
}

// ---- no action has the name

fn is_missing(graph: &Graph, name: &Name) -> bool
    ensures { result ≡ is_missing (graph_tree graph.now) name.now }
{
    graph.find(name).is_none()
}

pub fn least_missing<'a>(graph: &Graph, names: &'a [Name]) -> Option<&'a Name>
    ensures { option_map (λ n. n.now) result ≡ least_of (is_missing (graph_tree graph.now)) names.now }
{
    let mut least = None;
    for name in names {
        least = lesser_if(is_missing(graph, name), least, name);
    }
    least
}

// ---- it stands in a loop

fn is_loop(kind: &Kind) -> bool
    ensures { result ≡ is_loop (kind_tree kind.now) }
{
    match kind {
        Kind::Foreach {
            list: _,
            repetitions: _,
            graph: _,
        } => true,
        Kind::Until {
            test: _,
            count: _,
            fails: _,
            graph: _,
        } => true,
        _ => false,
    }
}

fn is_round(order: &Order, number: u32, action: &Action) -> bool
    ensures { result ≡ is_round (order_tree order.now) number (action_tree action.now) }
{
    is_loop(&action.kind) && order.contains(action.number, number)
}

fn loop_round<'a>(actions: &[&'a Action], order: &Order, number: u32) -> Option<&'a Action>
    ensures { option_map (λ a. action_tree a.now) result
        ≡ find (is_round (order_tree order.now) number) (map (λ a. action_tree a.now) actions.now) }
{
    for action in actions {
        if is_round(order, number, action) {
            return Some(action);
        }
    }
    None
}

/// The outermost loop round the action of a name.
pub fn loop_of<'a>(
    graph: &Graph,
    actions: &[&'a Action],
    order: &Order,
    name: &Name,
) -> Option<&'a Action>
    ensures { option_map (λ a. action_tree a.now) result
        ≡ loop_of (graph_tree graph.now) (map (λ a. action_tree a.now) actions.now) (order_tree order.now) name.now }
{
    match graph.find(name) {
        Some(action) => loop_round(actions, order, action.number),
        None => None,
    }
}

fn is_in_loop(graph: &Graph, actions: &[&Action], order: &Order, name: &Name) -> bool
    ensures { result
        ≡ is_in_loop (graph_tree graph.now) (map (λ a. action_tree a.now) actions.now) (order_tree order.now) name.now }
{
    loop_of(graph, actions, order, name).is_some()
}

pub fn least_in_loop<'n>(
    graph: &Graph,
    actions: &[&Action],
    order: &Order,
    names: &'n [Name],
) -> Option<&'n Name>
    ensures { option_map (λ n. n.now) result
        ≡ least_of (is_in_loop (graph_tree graph.now) (map (λ a. action_tree a.now) actions.now) (order_tree order.now)) names.now }
{
    let mut least = None;
    for name in names {
        least = lesser_if(is_in_loop(graph, actions, order, name), least, name);
    }
    least
}

// ---- it has not run

fn has_run(row: Option<&Row>) -> bool
    ensures { result ≡ has_run (option_map (λ r. row_tree r.now) row.entry) }
{
    match row {
        Some(row) => !matches!(row.status, Status::Skipped),
        None => false,
    }
}

fn is_idle(alloc: Global, log: &Record, name: &Name) -> Result<bool, AllocError>
    ensures { IfOk result (λ idle. idle ≡ is_idle (record_tree log.now).rows name.now) }
{
    let address = Address {
        name: name.copy(alloc)?,
        at: Indexes::new(alloc),
    };
    Ok(!has_run(log.row(&address)))
}

pub fn least_idle<'a>(
    alloc: Global,
    log: &Record,
    names: &'a [Name],
) -> Result<Option<&'a Name>, AllocError>
    ensures { IfOk result (λ least. option_map (λ n. n.now) least ≡ least_of (is_idle (record_tree log.now).rows) names.now) }
{
    let mut least = None;
    for name in names {
        least = lesser_if(is_idle(alloc, log, name)?, least, name);
    }
    Ok(least)
}
