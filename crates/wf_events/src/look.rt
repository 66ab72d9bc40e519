//! Idle actions, looked at anew.
ghost use Rattle.std.specs.Prelude.{◌≡◌, ◌<◌, ◌≤◌, ◌+◌, IfOk, cond, length, option_map};
ghost use Rattle.wf_layers.specs.Address.{Address, is_own};
ghost use Rattle.wf_tables.specs.Instances.{address_of, rows_in};
ghost use Rattle.wf_tables.specs.PlanSeen.{plan_tree};
ghost use Rattle.wf_events.specs.Looked.{idle_at, instances_at, look_each};
ghost use Rattle.wf_tables.specs.Tables.{count_in, event_at, events_in};

use crate::event::idle_kind;
use crate::ready::set_event;
use std::alloc::{AllocError, Global};
use wf_lists::TryCopy;
use wf_room::Roomy;
use wf_tables::{Acts, CountAt, EventAt, EventKind, Instance, Known, Opens, Plan, Rows, Store};
use wf_val::Indexes;

/// These actions at the indexes.
pub fn instances(alloc: Global, actions: &[u32], at: &Indexes) -> Result<Vec<Instance>, AllocError>
    ensures { IfOk result (λ places. places.items ≡ instances_at at.now actions.now) }
{
    let mut places = Vec::with_capacity(alloc, actions.len())?;
    for action in actions {
        places.push(Instance {
            action: *action,
            at: at.copy(alloc)?,
        })?;
    }
    Ok(places)
}

// What may happen next to an idle action; nothing to one that the plan doesn't have.
fn kind_at<A: Acts>(
    acts: &A,
    plan: &Plan,
    known: Known<'_, A::Row, A::Decision, A::Verdict>,
    waits: &Roomy<CountAt>,
    place: &mut Instance,
) -> Option<EventKind>
    ensures kind { option_map (λ k. event_at k place.old.action place.old.at) result
        ≡ idle_at (A.source acts.now) (rows_in A.row_tree known.entry.rows.now.0) (count_in waits.now.0) (plan_tree plan.now)
        (address_of place.old) }
    ensures same { place.new ≡ place.old }
{
    match plan.entry(place.action) {
        Some(entry) => idle_kind(acts, entry, known, waits, place),
        None => None,
    }
}

/// An idle action is looked at anew. No memory is taken.
pub fn look_at<A: Acts>(
    acts: &A,
    plan: &Plan,
    known: Known<'_, A::Row, A::Decision, A::Verdict>,
    waits: &Roomy<CountAt>,
    ready: &mut Roomy<EventAt>,
    place: Instance,
)
    requires { 0 < ready.old.1 }
    ensures events { (x : Address) → events_in ready.new.0 x ≡ cond (is_own place.action place.at x)
        (idle_at (A.source acts.now) (rows_in A.row_tree known.entry.rows.now.0) (count_in waits.now.0) (plan_tree plan.now)
        (address_of place)) (events_in ready.old.0 x) }
    ensures room { ready.old.1 ≤ ready.new.1 + 1 }
{
    let mut place = place;
    let kind = kind_at(acts, plan, known, waits, &mut place);
    set_event(ready, place, kind);
}

/// Idle actions are looked at anew, one after the other. No memory is taken.
pub fn look_at_each<A: Acts>(
    acts: &A,
    plan: &Plan,
    rows: &Rows<A::Row>,
    opens: &Opens<A::Decision, A::Verdict>,
    store: &Store,
    waits: &Roomy<CountAt>,
    ready: &mut Roomy<EventAt>,
    places: Vec<Instance>,
)
    requires { length places.items ≤ ready.old.1 }
    ensures { (x : Address) → events_in ready.new.0 x
        ≡ look_each (idle_at (A.source acts.now) (rows_in A.row_tree rows.now.0) (count_in waits.now.0) (plan_tree plan.now))
        places.items (events_in ready.old.0) x }
{
    for place in places {
        look_at(
            acts,
            plan,
            Known { rows, opens, store },
            waits,
            ready,
            place,
        );
    }
}
