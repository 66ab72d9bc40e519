//! What is waited for and what graphs lack, counted anew by the rows that are there.
ghost use Rattle.std.specs.Prelude.{◌≡◌, ◌&&◌, [], IfOk, None, cond, map};
ghost use Rattle.wf_layers.specs.Address.{Address, same_at};
ghost use Rattle.wf_layers.specs.Machine.{has_ended};
ghost use Rattle.wf_layers.specs.Waiting.{waiting};
ghost use Rattle.wf_kept.specs.Counted.{nonzero};
ghost use Rattle.wf_enter.specs.Instances.{address_of, rows_in};
ghost use Rattle.wf_enter.specs.Known.{is_among, opens_in};
ghost use Rattle.wf_enter.specs.PlanSeen.{entry_tree, plan_tree, wait_need};
ghost use Rattle.wf_enter.specs.Tables.{count_in};
ghost use Rattle.wf_resting.specs.Resting.{counts_at, lacking_of, lacks_at, waits_at};

use crate::graphs::entered;
use std::alloc::{AllocError, Global};
use wf_enter::{Acts, CountAt, Entry, Instance, Opens, Plan, Rows, Wait, set_counts};
use wf_lists::TryCopy;
use wf_room::Roomy;
use wf_val::Indexes;

/// Whether an action has a row.
pub(crate) fn has_row<A: Acts>(rows: &Rows<A::Row>, place: &Instance) -> bool
    ensures { result ≡ has_ended (rows_in A.row_tree rows.now.0 (address_of place.now)) }
{
    match rows.get(place) {
        Some(_) => true,
        None => false,
    }
}

// How much of what is named has no row at these indexes. The instance's action is another one afterwards.
fn waiting<A: Acts>(rows: &Rows<A::Row>, after: &[Wait], place: &mut Instance) -> u64
    ensures count { result ≡ waiting (map wait_need after.now) place.old.at (rows_in A.row_tree rows.now.0) }
    ensures at { place.new.at ≡ place.old.at }
{
    let mut count = 0;
    for wait in after {
        place.action = wait.number;
        if !has_row::<A>(rows, place) {
            count += 1;
        }
    }
    count
}

fn waiting_of<A: Acts>(rows: &Rows<A::Row>, entry: &Entry, place: &mut Instance) -> u64
    ensures count { result ≡ waiting (entry_tree entry.now).after place.old.at (rows_in A.row_tree rows.now.0) }
    ensures same { place.new ≡ place.old }
{
    let action = place.action;
    let count = waiting::<A>(rows, &entry.after, place);
    place.action = action;
    count
}

// How much an action waits for. The instance is the same afterwards.
fn waits_at<A: Acts>(plan: &Plan, rows: &Rows<A::Row>, place: &mut Instance) -> u64
    ensures count { result ≡ waits_at (plan_tree plan.now) (rows_in A.row_tree rows.now.0) (address_of place.old) }
    ensures same { place.new ≡ place.old }
{
    match plan.entry(place.action) {
        Some(entry) => waiting_of::<A>(rows, entry, place),
        None => 0,
    }
}

fn wait_count<A: Acts>(plan: &Plan, rows: &Rows<A::Row>, place: Instance) -> CountAt
    ensures { result ≡ record {
      instance = place;
      count = waits_at (plan_tree plan.now) (rows_in A.row_tree rows.now.0) (address_of place);
    } }
{
    let mut instance = place;
    let count = waits_at::<A>(plan, rows, &mut instance);
    CountAt { instance, count }
}

// How much each of these actions waits for at these indexes.
fn waits_of<A: Acts>(
    alloc: Global,
    plan: &Plan,
    rows: &Rows<A::Row>,
    actions: &[u32],
    at: &Indexes,
) -> Result<Vec<CountAt>, AllocError>
    ensures { IfOk result (λ counts. counts.items
        ≡ counts_at (waits_at (plan_tree plan.now) (rows_in A.row_tree rows.now.0)) at.now actions.now) }
{
    let mut counts = Vec::with_capacity(alloc, actions.len())?;
    for action in actions {
        let place = Instance {
            action: *action,
            at: at.copy(alloc)?,
        };
        counts.push(wait_count::<A>(plan, rows, place))?;
    }
    Ok(counts)
}

// How many of these actions have no row at the indexes of an instance. The instance's action is another one afterwards.
fn lacking<A: Acts>(rows: &Rows<A::Row>, graph: &[u32], place: &mut Instance) -> u64
    ensures count { result ≡ lacking_of (rows_in A.row_tree rows.now.0) place.old.at graph.now }
    ensures at { place.new.at ≡ place.old.at }
{
    let mut count = 0;
    for action in graph {
        place.action = *action;
        if !has_row::<A>(rows, place) {
            count += 1;
        }
    }
    count
}

fn lacking_in<A: Acts>(rows: &Rows<A::Row>, graph: &[u32], place: &mut Instance) -> u64
    ensures count { result ≡ lacking_of (rows_in A.row_tree rows.now.0) place.old.at graph.now }
    ensures same { place.new ≡ place.old }
{
    let action = place.action;
    let count = lacking::<A>(rows, graph, place);
    place.action = action;
    count
}

// How much the graph lacks that a container has entered. The instance is the same afterwards.
fn lacks_at<A: Acts>(
    acts: &A,
    plan: &Plan,
    rows: &Rows<A::Row>,
    opens: &Opens<A::Decision, A::Verdict>,
    place: &mut Instance,
) -> u64
    ensures count { result ≡ lacks_at (plan_tree plan.now) (A.source acts.now).taken (rows_in A.row_tree rows.now.0)
        (opens_in A.decision_tree A.verdict_tree opens.now.0) (address_of place.old) }
    ensures same { place.new ≡ place.old }
{
    match opens.get(place) {
        Some(open) => {
            let taken = acts.taken(&open.decision);
            lacking_in::<A>(rows, entered(plan, place.action, taken), place)
        }
        None => 0,
    }
}

fn lack_count<A: Acts>(
    acts: &A,
    plan: &Plan,
    rows: &Rows<A::Row>,
    opens: &Opens<A::Decision, A::Verdict>,
    place: Instance,
) -> CountAt
    ensures { result ≡ record {
      instance = place;
      count = lacks_at (plan_tree plan.now) (A.source acts.now).taken (rows_in A.row_tree rows.now.0)
          (opens_in A.decision_tree A.verdict_tree opens.now.0) (address_of place);
    } }
{
    let mut instance = place;
    let count = lacks_at(acts, plan, rows, opens, &mut instance);
    CountAt { instance, count }
}

// How much the graph lacks that each of these actions has entered at these indexes; nothing of one that isn't open.
fn lacks_of<A: Acts>(
    alloc: Global,
    acts: &A,
    plan: &Plan,
    rows: &Rows<A::Row>,
    opens: &Opens<A::Decision, A::Verdict>,
    actions: &[u32],
    at: &Indexes,
) -> Result<Vec<CountAt>, AllocError>
    ensures { IfOk result (λ counts. counts.items
        ≡ counts_at (lacks_at (plan_tree plan.now) (A.source acts.now).taken (rows_in A.row_tree rows.now.0)
        (opens_in A.decision_tree A.verdict_tree opens.now.0)) at.now actions.now) }
{
    let mut counts = Vec::with_capacity(alloc, actions.len())?;
    for action in actions {
        let place = Instance {
            action: *action,
            at: at.copy(alloc)?,
        };
        counts.push(lack_count(acts, plan, rows, opens, place))?;
    }
    Ok(counts)
}

/// How much each of these actions waits for; nothing of one that waits for nothing.
pub fn first_waits<A: Acts>(
    alloc: Global,
    plan: &Plan,
    rows: &Rows<A::Row>,
    actions: &[u32],
) -> Result<Roomy<CountAt>, AllocError>
    ensures { IfOk result (λ waits. (x : Address) → count_in waits.0 x ≡ cond (is_among x.name actions.now && same_at [] x.at)
        (nonzero (waits_at (plan_tree plan.now) (rows_in A.row_tree rows.now.0) x)) None) }
{
    let counts = waits_of::<A>(alloc, plan, rows, actions, &Indexes::new(alloc))?;
    let mut waits = Roomy::new(alloc);
    waits.make_room(counts.len())?;
    set_counts(&mut waits, counts);
    Ok(waits)
}

/// How much the graph lacks that each of these actions has entered; nothing of one whose graph lacks nothing, or that isn't open.
pub fn first_lacks<A: Acts>(
    alloc: Global,
    acts: &A,
    plan: &Plan,
    rows: &Rows<A::Row>,
    opens: &Opens<A::Decision, A::Verdict>,
    actions: &[u32],
) -> Result<Roomy<CountAt>, AllocError>
    ensures { IfOk result (λ lacks. (x : Address) → count_in lacks.0 x ≡ cond (is_among x.name actions.now && same_at [] x.at)
        (nonzero (lacks_at (plan_tree plan.now) (A.source acts.now).taken (rows_in A.row_tree rows.now.0)
        (opens_in A.decision_tree A.verdict_tree opens.now.0) x)) None) }
{
    let counts = lacks_of(
        alloc,
        acts,
        plan,
        rows,
        opens,
        actions,
        &Indexes::new(alloc),
    )?;
    let mut lacks = Roomy::new(alloc);
    lacks.make_room(counts.len())?;
    set_counts(&mut lacks, counts);
    Ok(lacks)
}
