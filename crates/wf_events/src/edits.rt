//! What is edited beside the rows as an action gets its own: all that takes memory first, and then the edits, which take none.
ghost use Rattle.std.specs.Prelude.{◌≡◌, ◌<◌, ◌≤◌, IfOk, OnOk, length};
ghost use Rattle.wf_layers.specs.Changes.{next_of};
ghost use Rattle.wf_tables.specs.Instances.{rows_in};
ghost use Rattle.wf_tables.specs.Known.{opens_in};
ghost use Rattle.wf_tables.specs.Once.{AreDistinct};
ghost use Rattle.wf_tables.specs.PlanSeen.{list_at, plan_tree};
ghost use Rattle.wf_events.specs.Round.{puts};
ghost use Rattle.wf_events.specs.RowEdits.{AreRowEdits, IsSettled};
ghost use Rattle.wf_tables.specs.Tables.{count_in, events_in, left_in};

use crate::counted::count_row;
use crate::look::instances;
use crate::round::{Round, round_of};
use crate::settled::{last_of, settle};
use std::alloc::{AllocError, Global};
use wf_room::Roomy;
use wf_tables::{Acts, CountAt, EventAt, Instance, Opens, Plan, Rows, Store};

/// What is made before an action gets its row.
#[derive(Drop)]
pub struct RowEdits {
    pub place: Instance,
    /// Those that name it, at the same indexes.
    pub followers: Vec<Instance>,
    /// The graph round it.
    pub round: Option<Round>,
    /// Where the graph of the last begun iteration of the container round it goes.
    pub last: Instance,
}

/// Makes it.
pub fn row_edits<D, V>(
    alloc: Global,
    plan: &Plan,
    opens: &Opens<D, V>,
    place: &Instance,
) -> Result<RowEdits, AllocError>
    ensures { IfOk result (λ edits. AreRowEdits (plan_tree plan.now) (λ x. next_of (opens_in (λ d. d) (λ v. v) opens.now.0 x))
        place.now edits) }
{
    let round = round_of(alloc, plan, place)?;
    let last = last_of(alloc, opens, place, &round)?;
    let followers = instances(alloc, plan.followers(place.action), &place.at)?;
    let place = place.copy(alloc)?;
    Ok(RowEdits {
        place,
        followers,
        round,
        last,
    })
}

// At the top no container is put anew, and needs no room.
fn puts(round: &Option<Round>) -> usize
    ensures { result ≡ puts round.now }
{
    match round {
        Some(_) => 1,
        None => 0,
    }
}

/// Makes room for the row and for these edits.
pub fn make_room<R: Drop, D: Drop, V: Drop>(
    rows: &mut Rows<R>,
    opens: &mut Opens<D, V>,
    ready: &mut Roomy<EventAt>,
    edits: &RowEdits,
) -> Result<(), AllocError>
    ensures rows { rows.new.0 ≡ rows.old.0 }
    ensures opens { opens.new.0 ≡ opens.old.0 }
    ensures ready { ready.new.0 ≡ ready.old.0 }
    ensures rows_room { OnOk result (0 < rows.new.1) }
    ensures opens_room { OnOk result (puts edits.now.round ≤ opens.new.1) }
    ensures ready_room { OnOk result (length edits.now.followers.items < ready.new.1) }
{
    rows.make_room(1)?;
    opens.make_room(puts(&edits.round))?;
    ready.make_room(edits.followers.len() + 1)
}

/// An action has its row: counts and events are edited. No memory is taken.
pub fn count_and_settle<A: Acts>(
    acts: &A,
    plan: &Plan,
    rows: &Rows<A::Row>,
    opens: &mut Opens<A::Decision, A::Verdict>,
    store: &Store,
    waits: &mut Roomy<CountAt>,
    lacks: &mut Roomy<CountAt>,
    ready: &mut Roomy<EventAt>,
    place: &Instance,
    edits: RowEdits,
)
    requires edits { AreRowEdits (plan_tree plan.now) (λ x. next_of (opens_in (λ d. d) (λ v. v) opens.old.0 x)) place.now edits }
    requires followers { AreDistinct (list_at (plan_tree plan.now).followers place.now.action) }
    requires opens_room { puts edits.round ≤ opens.old.1 }
    requires ready_room { length edits.followers.items < ready.old.1 }
    ensures settled { IsSettled (A.source acts.now) (plan_tree plan.now) place.now (rows_in A.row_tree rows.now.0)
        (opens_in A.decision_tree A.verdict_tree opens.new.0) (count_in waits.old.0) (count_in waits.new.0) (count_in lacks.old.0)
        (count_in lacks.new.0) (left_in opens.old.0) (left_in opens.new.0) (events_in ready.old.0) (events_in ready.new.0) }
    ensures opens { opens_in (λ d. d) (λ v. v) opens.new.0 ≡ opens_in (λ d. d) (λ v. v) opens.old.0 }
{
    let round = count_row(plan, waits, lacks, opens, edits.place, edits.round);
    settle(
        acts,
        plan,
        rows,
        opens,
        store,
        waits,
        lacks,
        ready,
        place,
        edits.followers,
        round,
        &edits.last,
    );
}
