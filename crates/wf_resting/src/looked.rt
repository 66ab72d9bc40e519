//! What may happen first to the actions of open graphs.
ghost use Rattle.std.specs.Prelude.{◌≡◌, ◌<◌, ◌≤◌, ◌+◌, ◌-◌, ◌∷◌, ◌++◌, ◌&&◌, [], IfOk, None, OnOk, cond, length};
ghost use Rattle.wf_layers.specs.Address.{Address, address, is_own, same_at};
ghost use Rattle.wf_layers.specs.Changes.{next_of};
ghost use Rattle.wf_layers.specs.Machine.{has_ended};
ghost use Rattle.wf_enter.specs.Instances.{address_of, rows_in};
ghost use Rattle.wf_enter.specs.Known.{is_among, opens_in};
ghost use Rattle.wf_enter.specs.PlanSeen.{plan_tree};
ghost use Rattle.wf_enter.specs.Tables.{count_in, events_in, left_in};
ghost use Rattle.wf_enter.specs.Looked.{instances_at, look_each};
ghost use Rattle.wf_resting.specs.Resting.{resting_at, resting_by};

use crate::recount::has_row;
use std::alloc::{AllocError, Global};
use wf_enter::{
    Acts, CountAt, EventAt, Instance, Known, Opens, Plan, Rows, Store, last_iteration, look_at,
    look_at_open, take_event,
};
use wf_lists::TryCopy;
use wf_room::Roomy;
use wf_val::Indexes;

fn is_open<A: Acts>(opens: &Opens<A::Decision, A::Verdict>, place: &Instance) -> bool
    ensures { result ≡ has_ended (opens_in A.decision_tree A.verdict_tree opens.now.0 (address_of place.now)) }
{
    match opens.get(place) {
        Some(_) => true,
        None => false,
    }
}

// What has no row is looked at anew. `last` is where the graph of its last begun iteration goes. No memory is taken.
fn look_at_resting<A: Acts>(
    acts: &A,
    plan: &Plan,
    known: Known<'_, A::Row, A::Decision, A::Verdict>,
    waits: &Roomy<CountAt>,
    lacks: &Roomy<CountAt>,
    ready: &mut Roomy<EventAt>,
    place: Instance,
    last: &Instance,
)
    requires last { address_of last.now ≡ address place.action
        (place.at ++ (next_of (opens_in (λ d. d) (λ v. v) known.opens.now.0 (address_of place)) - 1) ∷ []) }
    requires room { 0 < ready.old.1 }
    ensures events { (x : Address) → events_in ready.new.0 x ≡ cond (is_own place.action place.at x)
        (resting_by (A.source acts.now) (plan_tree plan.now) (rows_in A.row_tree known.entry.rows.now.0)
        (opens_in A.decision_tree A.verdict_tree known.entry.opens.now.0) (count_in waits.now.0) (count_in lacks.now.0)
        (left_in known.entry.opens.now.0) None (opens_in A.decision_tree A.verdict_tree known.entry.opens.now.0 (address_of place))
        (address_of place)) (events_in ready.old.0 x) }
    ensures room { ready.old.1 ≤ ready.new.1 + 1 }
{
    if is_open::<A>(known.opens, &place) {
        look_at_open(acts, plan, known.opens, lacks, ready, place, last);
    } else {
        look_at(acts, plan, known, waits, ready, place);
    }
}

// An action of an open graph is looked at anew, where no leaf runs. `last` is where the graph of its last begun iteration goes. No memory
// is taken.
fn look_at_standing<A: Acts>(
    acts: &A,
    plan: &Plan,
    known: Known<'_, A::Row, A::Decision, A::Verdict>,
    waits: &Roomy<CountAt>,
    lacks: &Roomy<CountAt>,
    ready: &mut Roomy<EventAt>,
    place: Instance,
    last: &Instance,
)
    requires last { address_of last.now ≡ address place.action
        (place.at ++ (next_of (opens_in (λ d. d) (λ v. v) known.opens.now.0 (address_of place)) - 1) ∷ []) }
    requires room { 0 < ready.old.1 }
    ensures events { (x : Address) → events_in ready.new.0 x ≡ cond (is_own place.action place.at x)
        (resting_at (A.source acts.now) (plan_tree plan.now) (rows_in A.row_tree known.entry.rows.now.0)
        (opens_in A.decision_tree A.verdict_tree known.entry.opens.now.0) (count_in waits.now.0) (count_in lacks.now.0)
        (left_in known.entry.opens.now.0) (address_of place)) (events_in ready.old.0 x) }
    ensures room { ready.old.1 ≤ ready.new.1 + 1 }
{
    if has_row::<A>(known.rows, &place) {
        take_event(ready, &place);
    } else {
        look_at_resting(acts, plan, known, waits, lacks, ready, place, last);
    }
}

// What may happen next to each of these actions of open graphs, at these indexes.
fn look_at_all<A: Acts>(
    alloc: Global,
    acts: &A,
    plan: &Plan,
    rows: &Rows<A::Row>,
    opens: &Opens<A::Decision, A::Verdict>,
    store: &Store,
    waits: &Roomy<CountAt>,
    lacks: &Roomy<CountAt>,
    ready: &mut Roomy<EventAt>,
    actions: &[u32],
    at: &Indexes,
) -> Result<(), AllocError>
    requires { length actions.now ≤ ready.old.1 }
    ensures { OnOk result ((x : Address) → events_in ready.new.0 x
        ≡ look_each (resting_at (A.source acts.now) (plan_tree plan.now) (rows_in A.row_tree rows.now.0)
        (opens_in A.decision_tree A.verdict_tree opens.now.0) (count_in waits.now.0) (count_in lacks.now.0) (left_in opens.now.0))
        (instances_at at.now actions.now) (events_in ready.old.0) x) }
{
    for action in actions {
        let place = Instance {
            action: *action,
            at: at.copy(alloc)?,
        };
        let last = last_iteration(alloc, opens, &place)?;
        look_at_standing(
            acts,
            plan,
            Known { rows, opens, store },
            waits,
            lacks,
            ready,
            place,
            &last,
        );
    }
    Ok(())
}

/// What may happen next to each of these actions of open graphs.
pub fn first_ready<A: Acts>(
    alloc: Global,
    acts: &A,
    plan: &Plan,
    rows: &Rows<A::Row>,
    opens: &Opens<A::Decision, A::Verdict>,
    store: &Store,
    waits: &Roomy<CountAt>,
    lacks: &Roomy<CountAt>,
    actions: &[u32],
) -> Result<Roomy<EventAt>, AllocError>
    ensures { IfOk result (λ ready. (x : Address) → events_in ready.0 x ≡ cond (is_among x.name actions.now && same_at [] x.at)
        (resting_at (A.source acts.now) (plan_tree plan.now) (rows_in A.row_tree rows.now.0)
        (opens_in A.decision_tree A.verdict_tree opens.now.0) (count_in waits.now.0) (count_in lacks.now.0) (left_in opens.now.0) x)
        None) }
{
    let mut ready = Roomy::new(alloc);
    ready.make_room(actions.len())?;
    let top = Indexes::new(alloc);
    look_at_all(
        alloc, acts, plan, rows, opens, store, waits, lacks, &mut ready, actions, &top,
    )?;
    Ok(ready)
}
