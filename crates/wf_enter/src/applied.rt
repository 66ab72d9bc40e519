//! Counts and the ready set, as a graph is entered.
ghost use Rattle.std.specs.Prelude.{◌≡◌, ◌<◌, ◌≤◌, ◌-◌, ◌∷◌, ◌++◌, [], OnOk, cond, length};
ghost use Rattle.wf_layers.specs.Address.{Address, address, is_own};
ghost use Rattle.wf_layers.specs.Changes.{next_of};
ghost use Rattle.wf_kept.specs.Counted.{nonzero};
ghost use Rattle.wf_events.specs.Instances.{address_of, rows_in};
ghost use Rattle.wf_events.specs.Known.{opens_in};
ghost use Rattle.wf_events.specs.PlanSeen.{plan_tree};
ghost use Rattle.wf_events.specs.Counts.{set_all};
ghost use Rattle.wf_events.specs.Tables.{count_in, events_in, left_in};
ghost use Rattle.wf_events.specs.Looked.{idle_at, look_each, open_at};
ghost use Rattle.wf_enter.specs.Entered.{is_at};

use crate::edits::Entering;
use std::alloc::AllocError;
use wf_events::{
    Acts, CountAt, EventAt, Instance, Opens, Plan, Rows, Store, enter, look_at_each, look_at_open,
    set_counts,
};
use wf_room::Roomy;

/// Makes room for what is put.
pub fn make_room(
    waits: &mut Roomy<CountAt>,
    lacks: &mut Roomy<CountAt>,
    ready: &mut Roomy<EventAt>,
    entering: &Entering,
) -> Result<(), AllocError>
    ensures waits { waits.new.0 ≡ waits.old.0 }
    ensures lacks { lacks.new.0 ≡ lacks.old.0 }
    ensures ready { ready.new.0 ≡ ready.old.0 }
    ensures waits_room { OnOk result (length entering.now.counts.items ≤ waits.new.1) }
    ensures lacks_room { OnOk result (0 < lacks.new.1) }
    ensures ready_room { OnOk result (length entering.now.places.items < ready.new.1) }
{
    waits.make_room(entering.counts.len())?;
    lacks.make_room(1)?;
    ready.make_room(entering.places.len() + 1)
}

fn enter_where(
    waits: &mut Roomy<CountAt>,
    lacks: &mut Roomy<CountAt>,
    counts: Vec<CountAt>,
    graph: Option<Instance>,
)
    requires waits { length counts.items ≤ waits.old.1 }
    requires lacks { 0 < lacks.old.1 }
    ensures waits { (x : Address) → count_in waits.new.0 x ≡ set_all counts.items (count_in waits.old.0) x }
    ensures lacks { (x : Address) → count_in lacks.new.0 x
        ≡ cond (is_at graph x) (nonzero (length counts.items)) (count_in lacks.old.0 x) }
{
    match graph {
        Some(graph) => enter(waits, lacks, counts, graph),
        None => set_counts(waits, counts),
    }
}

/// A graph is entered: its actions wait for so much, all of them lack a row, and they and the container are looked at anew. No memory is
/// taken.
pub fn enter_graph<A: Acts>(
    acts: &A,
    plan: &Plan,
    rows: &Rows<A::Row>,
    opens: &Opens<A::Decision, A::Verdict>,
    store: &Store,
    waits: &mut Roomy<CountAt>,
    lacks: &mut Roomy<CountAt>,
    ready: &mut Roomy<EventAt>,
    entering: Entering,
)
    requires waits { length entering.counts.items ≤ waits.old.1 }
    requires lacks { 0 < lacks.old.1 }
    requires ready { length entering.places.items < ready.old.1 }
    requires last { address_of entering.last ≡ address entering.container.action (entering.container.at
        ++ (next_of (opens_in (λ d. d) (λ v. v) opens.now.0 (address_of entering.container)) - 1) ∷ []) }
    ensures waits { (x : Address) → count_in waits.new.0 x ≡ set_all entering.counts.items (count_in waits.old.0) x }
    ensures lacks { (x : Address) → count_in lacks.new.0 x
        ≡ cond (is_at entering.graph x) (nonzero (length entering.counts.items)) (count_in lacks.old.0 x) }
    ensures events { (x : Address) → events_in ready.new.0 x
        ≡ look_each (idle_at (A.source acts.now) (rows_in A.row_tree rows.now.0) (count_in waits.new.0) (plan_tree plan.now))
        entering.places.items
        (λ y. cond (is_own entering.container.action entering.container.at y)
        (open_at (A.source acts.now) (opens_in A.decision_tree A.verdict_tree opens.now.0) (count_in lacks.new.0) (left_in opens.now.0)
        (plan_tree plan.now) (address_of entering.container)) (events_in ready.old.0 y)) x }
{
    let Entering {
        container,
        last,
        graph,
        counts,
        places,
    } = entering;
    enter_where(waits, lacks, counts, graph);
    look_at_open(acts, plan, opens, lacks, ready, container, &last);
    look_at_each(acts, plan, rows, opens, store, waits, ready, places);
}
