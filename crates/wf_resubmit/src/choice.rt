//! The actions from which a run is resubmitted.
ghost use Rattle.std.specs.Prelude.{◌≡◌, ◌≢◌, IfErr, IfOk, None, OnOk, Some, map, option_map};
ghost use Rattle.wf_def.specs.ActionSeen.{action_tree, graph_tree};
ghost use Rattle.wf_loops.specs.OrderSeen.{order_tree};
ghost use Rattle.wf_record.specs.Seen.{record_tree};
ghost use Rattle.wf_resubmit.specs.Least.{least_of};
ghost use Rattle.wf_resubmit.specs.Refused.{in_loop, is_idle, is_in_loop, is_missing, name_of, no_action, not_run, number_of};
ghost use Rattle.wf_resubmit.specs.Refused.{numbers_of, other_definition, refused, refused_by_loops, refused_by_rows};
ghost use Rattle.wf_resubmit.specs.declared.fault.ResubmitFault.{ResubmitFault};

use crate::asked::{least_idle, least_in_loop, least_missing, loop_of};
use crate::fault::ResubmitFault;
use std::alloc::{AllocError, Global};
use wf_def::{Action, Graph, all_actions};
use wf_lists::Series;
use wf_loops::Order;
use wf_record::Record;
use wf_val::{Digest, Name, Schedule};

fn all_there(alloc: Global, graph: &Graph, names: &[Name]) -> Result<(), ResubmitFault>
    ensures fine { OnOk result (no_action (least_of (is_missing (graph_tree graph.now)) names.now) ≡ None) }
    ensures fault { IfErr result (λ f. f ≢ ResubmitFault.Memory
        → no_action (least_of (is_missing (graph_tree graph.now)) names.now) ≡ Some f) }
{
    match least_missing(graph, names) {
        None => Ok(()),
        Some(name) => Err(ResubmitFault::NoAction {
            name: name.copy(alloc)?,
        }),
    }
}

fn name_of(alloc: Global, action: Option<&Action>) -> Result<Name, AllocError>
    ensures { IfOk result (λ n. n ≡ name_of (option_map (λ a. action_tree a.now) action.entry)) }
{
    match action {
        Some(action) => Ok(action.name.copy(alloc)?),
        None => Ok(Name::of(alloc, "")?),
    }
}

fn none_in_loop(
    alloc: Global,
    graph: &Graph,
    actions: &[&Action],
    order: &Order,
    names: &[Name],
) -> Result<(), ResubmitFault>
    ensures fine { OnOk result (in_loop (graph_tree graph.now) (map (λ a. action_tree a.now) actions.now) (order_tree order.now)
        (least_of (is_in_loop (graph_tree graph.now) (map (λ a. action_tree a.now) actions.now) (order_tree order.now)) names.now) ≡ None) }
    ensures fault { IfErr result (λ f. f ≢ ResubmitFault.Memory
        → in_loop (graph_tree graph.now) (map (λ a. action_tree a.now) actions.now) (order_tree order.now)
        (least_of (is_in_loop (graph_tree graph.now) (map (λ a. action_tree a.now) actions.now) (order_tree order.now)) names.now)
        ≡ Some f) }
{
    match least_in_loop(graph, actions, order, names) {
        None => Ok(()),
        Some(name) => Err(ResubmitFault::InLoop {
            name: name.copy(alloc)?,
            around: name_of(alloc, loop_of(graph, actions, order, name))?,
        }),
    }
}

fn out_of_loops(
    alloc: Global,
    graph: &Graph,
    order: &Order,
    names: &[Name],
) -> Result<(), ResubmitFault>
    ensures fine { OnOk result (refused_by_loops (graph_tree graph.now) (order_tree order.now) names.now ≡ None) }
    ensures fault { IfErr result (λ f. f ≢ ResubmitFault.Memory
        → refused_by_loops (graph_tree graph.now) (order_tree order.now) names.now ≡ Some f) }
{
    let actions = all_actions(alloc, graph)?;
    none_in_loop(alloc, graph, &actions, order, names)
}

fn all_ran(alloc: Global, log: &Record, names: &[Name]) -> Result<(), ResubmitFault>
    ensures fine { OnOk result (not_run (least_of (is_idle (record_tree log.now).rows) names.now) ≡ None) }
    ensures fault { IfErr result (λ f. f ≢ ResubmitFault.Memory
        → not_run (least_of (is_idle (record_tree log.now).rows) names.now) ≡ Some f) }
{
    match least_idle(alloc, log, names)? {
        None => Ok(()),
        Some(name) => Err(ResubmitFault::NotRun {
            name: name.copy(alloc)?,
        }),
    }
}

fn same_definition(kept: Digest, given: Digest) -> Result<(), ResubmitFault>
    ensures fine { OnOk result (other_definition kept given ≡ None) }
    ensures fault { IfErr result (λ f. other_definition kept given ≡ Some f) }
{
    if kept.bytes == given.bytes {
        Ok(())
    } else {
        Err(ResubmitFault::OtherDefinition { kept, given })
    }
}

// Whether all have run, and then whether it is the definition's record.
#[tactic(auto, using(crate::proofs::RefusedLemmas::told_after))]
fn may_be_kept(
    alloc: Global,
    given: Digest,
    log: &Record,
    names: &[Name],
) -> Result<(), ResubmitFault>
    ensures fine { OnOk result (refused_by_rows given log.now.digest (record_tree log.now).rows names.now ≡ None) }
    ensures fault { IfErr result (λ f. f ≢ ResubmitFault.Memory
        → refused_by_rows given log.now.digest (record_tree log.now).rows names.now ≡ Some f) }
{
    all_ran(alloc, log, names)?;
    same_definition(log.digest, given)
}

fn number_of(action: Option<&Action>) -> u32
    ensures { result ≡ number_of (option_map (λ a. action_tree a.now) action.entry) }
{
    match action {
        Some(action) => action.number,
        None => 0,
    }
}

fn numbers_of(alloc: Global, graph: &Graph, names: &[Name]) -> Result<Schedule, AllocError>
    ensures { IfOk result (λ ns. ns ≡ numbers_of (graph_tree graph.now) names.now) }
{
    let mut numbers = Series::new(alloc);
    for name in names {
        numbers.push(number_of(graph.find(name)))?;
    }
    Ok(numbers)
}

/// The numbers of the actions from which a run is resubmitted, in the order of their names, where a name that stands twice gives its number
/// twice; or why it can't be. `given` is the digest of the definition that has this graph and this order.
#[tactic(auto, using(crate::proofs::RefusedLemmas::told_after))]
pub fn chosen(
    alloc: Global,
    graph: &Graph,
    order: &Order,
    given: Digest,
    log: &Record,
    names: &[Name],
) -> Result<Schedule, ResubmitFault>
    ensures fine { OnOk result (refused (graph_tree graph.now) (order_tree order.now) given log.now.digest
        (record_tree log.now).rows names.now ≡ None) }
    ensures numbers { IfOk result (λ ns. ns ≡ numbers_of (graph_tree graph.now) names.now) }
    ensures fault { IfErr result (λ f. f ≢ ResubmitFault.Memory
        → refused (graph_tree graph.now) (order_tree order.now) given log.now.digest (record_tree log.now).rows names.now ≡ Some f) }
{
    all_there(alloc, graph, names)?;
    out_of_loops(alloc, graph, order, names)?;
    may_be_kept(alloc, given, log, names)?;
    Ok(numbers_of(alloc, graph, names)?)
}
