//! An open container, looked at anew as one of its actions gets its row.
ghost use Rattle.std.specs.Prelude.{◌≡◌, ◌<◌, ◌≤◌, ◌+◌, ◌-◌, ◌∷◌, ◌++◌, [], IfOk, cond, option_map};
ghost use Rattle.wf_layers.specs.Address.{Address, address, is_own};
ghost use Rattle.wf_layers.specs.Changes.{next_of};
ghost use Rattle.wf_tables.specs.Instances.{address_of};
ghost use Rattle.wf_tables.specs.Known.{opens_in};
ghost use Rattle.wf_tables.specs.PlanSeen.{plan_tree};
ghost use Rattle.wf_events.specs.Looked.{open_at};
ghost use Rattle.wf_tables.specs.Tables.{count_in, event_at, events_in, left_in};

use crate::event::open_kind;
use crate::ready::set_event;
use crate::until::next_index;
use std::alloc::{AllocError, Global};
use wf_room::Roomy;
use wf_tables::{Acts, CountAt, EventAt, EventKind, Instance, Opens, Plan};

/// Where the graph of the last begun iteration of a loop goes; that of index 0 where none has begun.
pub fn last_iteration<D, V>(
    alloc: Global,
    opens: &Opens<D, V>,
    place: &Instance,
) -> Result<Instance, AllocError>
    ensures { IfOk result (λ last. address_of last ≡ address place.now.action
        (place.now.at ++ (next_of (opens_in (λ d. d) (λ v. v) opens.now.0 (address_of place.now)) - 1) ∷ [])) }
{
    let next = next_index(opens, place);
    let mut last = place.copy(alloc)?;
    last.at.push(next.saturating_sub(1))?;
    Ok(last)
}

// What may happen next to an open container; nothing to what isn't open.
fn kind_at<A: Acts>(
    acts: &A,
    plan: &Plan,
    opens: &Opens<A::Decision, A::Verdict>,
    lacks: &Roomy<CountAt>,
    place: &Instance,
    last: &Instance,
) -> Option<EventKind>
    requires { address_of last.now ≡ address place.now.action
        (place.now.at ++ (next_of (opens_in (λ d. d) (λ v. v) opens.now.0 (address_of place.now)) - 1) ∷ []) }
    ensures { option_map (λ k. event_at k place.now.action place.now.at) result
        ≡ open_at (A.source acts.now) (opens_in A.decision_tree A.verdict_tree opens.now.0) (count_in lacks.now.0) (left_in opens.now.0)
        (plan_tree plan.now) (address_of place.now) }
{
    match plan.entry(place.action) {
        Some(entry) => match opens.get(place) {
            Some(open) => open_kind(acts, &entry.shape, open, lacks, last),
            None => None,
        },
        None => None,
    }
}

/// An open container is looked at anew. `last` is where the graph of its last begun iteration goes. No memory is taken.
pub fn look_at_open<A: Acts>(
    acts: &A,
    plan: &Plan,
    opens: &Opens<A::Decision, A::Verdict>,
    lacks: &Roomy<CountAt>,
    ready: &mut Roomy<EventAt>,
    place: Instance,
    last: &Instance,
)
    requires last { address_of last.now ≡ address place.action
        (place.at ++ (next_of (opens_in (λ d. d) (λ v. v) opens.now.0 (address_of place)) - 1) ∷ []) }
    requires room { 0 < ready.old.1 }
    ensures events { (x : Address) → events_in ready.new.0 x ≡ cond (is_own place.action place.at x)
        (open_at (A.source acts.now) (opens_in A.decision_tree A.verdict_tree opens.now.0) (count_in lacks.now.0) (left_in opens.now.0)
        (plan_tree plan.now) (address_of place)) (events_in ready.old.0 x) }
    ensures room { ready.old.1 ≤ ready.new.1 + 1 }
{
    let kind = kind_at(acts, plan, opens, lacks, &place, last);
    set_event(ready, place, kind);
}
