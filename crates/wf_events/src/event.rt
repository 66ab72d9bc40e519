//! What may happen next at an instance, by the counts of a state.
ghost use Rattle.std.specs.Prelude.{◌≡◌, ◌∷◌, ◌++◌, [], Some, cond, map, suc, ℕ};
ghost use Rattle.wf_layers.specs.Source.{all_met, is_listed, is_met};
ghost use Rattle.wf_layers.specs.Address.{address};
ghost use Rattle.wf_layers.specs.Enabled.{most_of};
ghost use Rattle.wf_tables.specs.Layered.{listed_of, pace};
ghost use Rattle.wf_tables.specs.Instances.{address_of, rows_in};
ghost use Rattle.wf_tables.specs.Known.{open_tree};
ghost use Rattle.wf_tables.specs.Statuses.{status_tree};
ghost use Rattle.wf_tables.specs.PlanSeen.{branches_seen, entry_tree, shape_tree, wait_need};
ghost use Rattle.wf_events.specs.Events.{begin_kind, begun_kind, close_kind, foreach_kind, idle_kind, is_branch, open_kind, tested_kind};
ghost use Rattle.wf_tables.specs.Tables.{count_in};
ghost use Rattle.wf_tables.specs.declared.entries.EventKind.TheVariants.{Close};

use wf_record::Status;
use wf_room::Roomy;
use wf_tables::{
    Acts, Branch, CountAt, Entry, EventKind, Instance, Known, OpenAt, Rows, Shape, Statuses, Wait,
};

#[tactic(auto, using(crate::proofs::EventLemmas::lists_succeeded, crate::proofs::EventLemmas::lists_failed, crate::proofs::EventLemmas::lists_skipped, crate::proofs::EventLemmas::lists_timed_out, crate::proofs::EventLemmas::lists_cancelled))]
fn lists(statuses: Statuses, status: Status) -> bool
    ensures { result ≡ is_listed (listed_of statuses) (status_tree status) }
{
    match status {
        Status::Succeeded => statuses.succeeded,
        Status::Failed => statuses.failed,
        Status::Skipped => statuses.skipped,
        Status::TimedOut => statuses.timed_out,
        Status::Cancelled => false,
    }
}

// Whether an action has ended as it is listed.
fn is_met<A: Acts>(acts: &A, rows: &Rows<A::Row>, place: &Instance, statuses: Statuses) -> bool
    ensures { result ≡ is_met (A.source acts.now) (listed_of statuses) (rows_in A.row_tree rows.now.0 (address_of place.now)) }
{
    match rows.get(place) {
        Some(found) => lists(statuses, acts.status(&found.row)),
        None => false,
    }
}

// Whether all that is waited for at these indexes has ended as it is listed. The instance's action is another one afterwards.
fn all_met<A: Acts>(acts: &A, rows: &Rows<A::Row>, after: &[Wait], place: &mut Instance) -> bool
    ensures met { result ≡ all_met (A.source acts.now) (map wait_need after.now) place.old.at (rows_in A.row_tree rows.now.0) }
    ensures at { place.new.at ≡ place.old.at }
{
    for wait in after {
        place.action = wait.number;
        if !is_met(acts, rows, place, wait.statuses) {
            return false;
        }
    }
    true
}

fn begin_kind(shape: &Shape) -> EventKind
    ensures { result ≡ begin_kind (shape_tree shape.now) }
{
    match shape {
        Shape::Leaf => EventKind::Start,
        _ => EventKind::Open,
    }
}

fn is_branch(branches: &[Branch], taken: u64) -> bool
    ensures { result ≡ is_branch (branches_seen branches.now) taken }
{
    taken >= 1 && taken <= branches.len() as u64
}

fn close_kind(lacks: &Roomy<CountAt>, graph: &Instance) -> Option<EventKind>
    ensures { result ≡ close_kind (count_in lacks.now.0 (address_of graph.now)) }
{
    match lacks.get(graph) {
        Some(_) => None,
        None => Some(EventKind::Close),
    }
}

pub fn tested_kind<A: Acts>(
    acts: &A,
    verdict: &A::Verdict,
    most: u64,
    next: u64,
) -> Option<EventKind>
    ensures { result ≡ tested_kind (A.source acts.now) most next (A.verdict_tree verdict.now) }
{
    if acts.ends(verdict) || next == most {
        Some(EventKind::Close)
    } else if next < most {
        Some(EventKind::Begin)
    } else {
        None
    }
}

fn foreach_kind(repetitions: u32, left: u64, next: u64, items: u64) -> Option<EventKind>
    ensures { result ≡ foreach_kind (most_of (pace repetitions)) left next items }
{
    if next < items {
        if left < repetitions as u64 {
            Some(EventKind::Begin)
        } else {
            None
        }
    } else if left == 0 {
        Some(EventKind::Close)
    } else {
        None
    }
}

fn choice_kind(
    branches: &[Branch],
    taken: u64,
    lacks: &Roomy<CountAt>,
    graph: &Instance,
) -> Option<EventKind>
    ensures { result ≡ cond (is_branch (branches_seen branches.now) taken)
        (close_kind (count_in lacks.now.0 (address_of graph.now))) (Some Close) }
{
    if is_branch(branches, taken) {
        close_kind(lacks, graph)
    } else {
        Some(EventKind::Close)
    }
}

// Of an Until that isn't tested after its last iteration, if it has begun one: `last` is where that goes.
fn begun_kind(
    lacks: &Roomy<CountAt>,
    most: u64,
    next: u64,
    place: &Instance,
    last: &Instance,
) -> Option<EventKind>
    requires { (j : ℕ) → next ≡ suc j → address_of last.now ≡ address place.now.action (place.now.at ++ j ∷ []) }
    ensures { result ≡ begun_kind (count_in lacks.now.0) most place.now.action place.now.at next }
{
    if next > 0 {
        match lacks.get(last) {
            Some(_) => None,
            None => Some(EventKind::Test),
        }
    } else if most > 0 {
        Some(EventKind::Begin)
    } else {
        None
    }
}

/// What may happen next to an open container. `last` is where the graph of an Until's last iteration goes, if it has begun one.
pub fn open_kind<A: Acts>(
    acts: &A,
    shape: &Shape,
    open: &OpenAt<A::Decision, A::Verdict>,
    lacks: &Roomy<CountAt>,
    last: &Instance,
) -> Option<EventKind>
    requires { (j : ℕ) → open.now.next ≡ suc j
        → address_of last.now ≡ address open.now.instance.action (open.now.instance.at ++ j ∷ []) }
    ensures { result ≡ open_kind (A.source acts.now) (count_in lacks.now.0) open.now.unfinished (shape_tree shape.now)
        open.now.instance.action open.now.instance.at (open_tree A.decision_tree A.verdict_tree open.now) }
{
    match shape {
        Shape::Leaf => None,
        Shape::Scope(_) => close_kind(lacks, &open.instance),
        Shape::Choice(branches) => choice_kind(
            branches,
            acts.taken(&open.decision),
            lacks,
            &open.instance,
        ),
        Shape::Foreach { repetitions, .. } => foreach_kind(
            *repetitions,
            open.unfinished,
            open.next,
            acts.items(&open.decision),
        ),
        Shape::Until { count, .. } => match &open.test {
            Some(verdict) => tested_kind(acts, verdict, *count as u64, open.next),
            None => begun_kind(lacks, *count as u64, open.next, &open.instance, last),
        },
    }
}

/// What may happen next to an action that neither has a row nor runs nor is open. The instance is the same afterwards.
pub fn idle_kind<A: Acts>(
    acts: &A,
    entry: &Entry,
    known: Known<'_, A::Row, A::Decision, A::Verdict>,
    waits: &Roomy<CountAt>,
    place: &mut Instance,
) -> Option<EventKind>
    ensures kind { result ≡ idle_kind (A.source acts.now) (rows_in A.row_tree known.entry.rows.now.0) (count_in waits.now.0)
        (entry_tree entry.now).after (entry_tree entry.now).shape place.old.action place.old.at }
    ensures same { place.new ≡ place.old }
{
    if waits.get(place).is_some() {
        return None;
    }
    let action = place.action;
    let met = all_met(acts, known.rows, &entry.after, place);
    place.action = action;
    if met && !acts.halts(place, known) {
        Some(begin_kind(&entry.shape))
    } else {
        Some(EventKind::Skip)
    }
}
