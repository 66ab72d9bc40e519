//! Who is looked at anew, as an action gets its row.
ghost use Rattle.std.specs.Prelude.{◌≡◌, ◌<◌, ◌≤◌, ◌+◌, ◌&&◌, IfOk, None, cond, length};
ghost use Rattle.wf_layers.specs.Address.{Address, is_own, same_at};
ghost use Rattle.wf_layers.specs.Changes.{next_of};
ghost use Rattle.wf_tables.specs.Instances.{rows_in};
ghost use Rattle.wf_tables.specs.Known.{is_among, opens_in};
ghost use Rattle.wf_tables.specs.PlanSeen.{list_at, plan_tree};
ghost use Rattle.wf_events.specs.Looked.{idle_at, instances_at, open_at};
ghost use Rattle.wf_events.specs.Round.{IsLast, look_out};
ghost use Rattle.wf_tables.specs.Tables.{count_in, events_in, left_in};

use crate::container::{last_iteration, look_at_open};
use crate::look::look_at_each;
use crate::ready::take_event;
use crate::round::Round;
use std::alloc::{AllocError, Global};
use wf_room::Roomy;
use wf_tables::{Acts, CountAt, EventAt, Instance, Opens, Plan, Rows, Store};

/// Where the graph of the last begun iteration goes of the container round an action; at the top that of the action itself.
pub fn last_of<D, V>(
    alloc: Global,
    opens: &Opens<D, V>,
    place: &Instance,
    round: &Option<Round>,
) -> Result<Instance, AllocError>
    ensures { IfOk result (λ last. IsLast (λ x. next_of (opens_in (λ d. d) (λ v. v) opens.now.0 x)) round.now last) }
{
    match round {
        Some(round) => last_iteration(alloc, opens, &round.container),
        None => place.copy(alloc),
    }
}

fn look_out<A: Acts>(
    acts: &A,
    plan: &Plan,
    opens: &Opens<A::Decision, A::Verdict>,
    lacks: &Roomy<CountAt>,
    ready: &mut Roomy<EventAt>,
    round: Option<Round>,
    last: &Instance,
)
    requires last { IsLast (λ x. next_of (opens_in (λ d. d) (λ v. v) opens.now.0 x)) round last.now }
    requires room { 0 < ready.old.1 }
    ensures events { (x : Address) → events_in ready.new.0 x
        ≡ look_out (open_at (A.source acts.now) (opens_in A.decision_tree A.verdict_tree opens.now.0) (count_in lacks.now.0)
        (left_in opens.now.0) (plan_tree plan.now)) round (events_in ready.old.0) x }
    ensures room { ready.old.1 ≤ ready.new.1 + 1 }
{
    match round {
        Some(round) => look_at_open(acts, plan, opens, lacks, ready, round.container, last),
        None => (),
    }
}

/// An action has its row: nothing may happen to it any more, and the container round it and those that name it are looked at anew. No
/// memory is taken.
pub fn settle<A: Acts>(
    acts: &A,
    plan: &Plan,
    rows: &Rows<A::Row>,
    opens: &Opens<A::Decision, A::Verdict>,
    store: &Store,
    waits: &Roomy<CountAt>,
    lacks: &Roomy<CountAt>,
    ready: &mut Roomy<EventAt>,
    place: &Instance,
    followers: Vec<Instance>,
    round: Option<Round>,
    last: &Instance,
)
    requires followers { followers.items ≡ instances_at place.now.at (list_at (plan_tree plan.now).followers place.now.action) }
    requires last { IsLast (λ x. next_of (opens_in (λ d. d) (λ v. v) opens.now.0 x)) round last.now }
    requires room { length followers.items < ready.old.1 }
    ensures { (x : Address) → events_in ready.new.0 x
        ≡ cond (is_among x.name (list_at (plan_tree plan.now).followers place.now.action) && same_at place.now.at x.at)
        (idle_at (A.source acts.now) (rows_in A.row_tree rows.now.0) (count_in waits.now.0) (plan_tree plan.now) x)
        (look_out (open_at (A.source acts.now) (opens_in A.decision_tree A.verdict_tree opens.now.0) (count_in lacks.now.0)
        (left_in opens.now.0) (plan_tree plan.now)) round
        (λ y. cond (is_own place.now.action place.now.at y) None (events_in ready.old.0 y)) x) }
{
    take_event(ready, place);
    look_out(acts, plan, opens, lacks, ready, round, last);
    look_at_each(acts, plan, rows, opens, store, waits, ready, followers);
}
