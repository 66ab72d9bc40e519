//! What stands at an action, by its cost.
ghost use Rattle.std.specs.Prelude.{◌≡◌, ◌<◌, ◌≤◌, ◌+◌, ◌-◌, ◌*◌, ◌^◌, ℕ, List, length};
ghost use Rattle.wf_val.specs.Cut.{cut_u64};
ghost use Rattle.wf_layers.specs.Address.{address};
ghost use Rattle.wf_tables.specs.Instances.{address_of, rows_in};
ghost use Rattle.wf_tables.specs.Known.{open_tree, opens_in};
ghost use Rattle.wf_tables.specs.PlanSeen.{at_place, plan_tree, shape_tree};
ghost use Rattle.wf_tables.specs.Tables.{event_at, running_in};
ghost use Rattle.wf_meter.specs.Parts.{block_of, block_worth, decides, decision_part, gives_rows, iterations_by, leaf_part};
ghost use Rattle.wf_meter.specs.Parts.{moves_containers, moves_leaves, row_part, shape_iterations, turns_part, worth};

use wf_room::Roomy;
use wf_tables::{Acts, EventKind, Instance, LeafAt, OpenAt, Opens, Plan, Rows, Shape};

// A part is at most the greatest u64, so a sum of as many as a list may have fits.
fn cut(cost: u128) -> u128
    ensures { result ≡ cut_u64 cost }
{
    if cost < 18_446_744_073_709_551_615 {
        cost
    } else {
        18_446_744_073_709_551_615
    }
}

// What counts so many times, and has a weight that may be cut already.
fn weighed(count: u64, weight: u64) -> u128
    ensures { (w : ℕ) → weight ≡ cut_u64 w → result ≡ cut_u64 (64 * (1 + count) + w) }
{
    cut((count as u128 + 1) * 64 + weight as u128)
}

// The row of an action, if it has one.
fn row_part<A: Acts>(acts: &A, rows: &Rows<A::Row>, place: &Instance) -> u128
    ensures part { result ≡ worth (row_part (A.cost_of_row acts.now)) (address_of place.now)
        (rows_in A.row_tree rows.now.0 (address_of place.now)) }
    ensures bound { result < 2 ^ 64 }
{
    match rows.get(place) {
        Some(found) => acts.row_cost(&found.row) as u128,
        None => 0,
    }
}

/// The rows of these actions at the indexes of an instance. The instance's action is another one afterwards.
pub fn block_part<A: Acts>(
    acts: &A,
    rows: &Rows<A::Row>,
    block: &[u32],
    place: &mut Instance,
) -> u128
    ensures part { result ≡ block_worth (row_part (A.cost_of_row acts.now)) (rows_in A.row_tree rows.now.0) place.old.at block.now }
    ensures at { place.new.at ≡ place.old.at }
    ensures bound { result ≤ (2 ^ 64 - 1) * length block.now }
{
    let mut total = 0;
    for action in block {
        place.action = *action;
        total += row_part(acts, rows, place);
    }
    total
}

/// A running leaf, for itself, for its attempts so far and by what it keeps of its inputs.
pub fn leaf_part<A: Acts>(acts: &A, running: &Roomy<LeafAt<A::Begun>>, place: &Instance) -> u128
    ensures part { result ≡ worth (leaf_part (A.weight_of_begun acts.now)) (address_of place.now)
        (running_in A.begun_tree running.now.0 (address_of place.now)) }
{
    match running.get(place) {
        Some(found) => weighed(found.tries, acts.begun_weight(&found.begun)),
        None => 0,
    }
}

// The iterations that an open container counts.
fn iterations<A: Acts>(acts: &A, shape: &Shape, open: &OpenAt<A::Decision, A::Verdict>) -> u64
    ensures { result ≡ shape_iterations (shape_tree shape.now) ((A.source acts.now).items (A.decision_tree open.now.decision))
        open.now.next }
{
    match shape {
        Shape::Foreach { .. } => acts.items(&open.decision),
        _ => open.next,
    }
}

fn iterations_at<A: Acts>(
    acts: &A,
    plan: &Plan,
    action: u32,
    open: &OpenAt<A::Decision, A::Verdict>,
) -> u64
    ensures { result ≡ iterations_by (at_place (plan_tree plan.now).entries action)
        ((A.source acts.now).items (A.decision_tree open.now.decision)) open.now.next }
{
    match plan.entry(action) {
        Some(entry) => iterations(acts, &entry.shape, open),
        None => open.next,
    }
}

// So many iterations, and the container itself.
fn turned(count: u64) -> u128
    ensures { result ≡ cut_u64 (64 * (1 + count)) }
{
    cut((count as u128 + 1) * 64)
}

// An open container that stands at an action of this number, for itself and for its iterations.
pub(crate) fn turns_of<A: Acts>(
    acts: &A,
    plan: &Plan,
    action: u32,
    open: &OpenAt<A::Decision, A::Verdict>,
) -> u128
    ensures { result ≡ turns_part (plan_tree plan.now) (A.source acts.now).items (address action open.now.instance.at)
        (open_tree A.decision_tree A.verdict_tree open.now) }
{
    turned(iterations_at(acts, plan, action, open))
}

/// An open container, for itself and for its iterations. What it keeps of what it decided by isn't looked at, however large that is.
pub fn turns_part<A: Acts>(
    acts: &A,
    plan: &Plan,
    opens: &Opens<A::Decision, A::Verdict>,
    place: &Instance,
) -> u128
    ensures { result ≡ worth (turns_part (plan_tree plan.now) (A.source acts.now).items) (address_of place.now)
        (opens_in A.decision_tree A.verdict_tree opens.now.0 (address_of place.now)) }
{
    match opens.get(place) {
        Some(found) => turns_of(acts, plan, place.action, found),
        None => 0,
    }
}

/// An open container by what it keeps of what it decided by.
pub fn decision_part<A: Acts>(
    acts: &A,
    opens: &Opens<A::Decision, A::Verdict>,
    place: &Instance,
) -> u128
    ensures { result ≡ worth (decision_part (A.weight_of_decision acts.now)) (address_of place.now)
        (opens_in A.decision_tree A.verdict_tree opens.now.0 (address_of place.now)) }
{
    match opens.get(place) {
        Some(found) => acts.decision_weight(&found.decision) as u128,
        None => 0,
    }
}

/// Whether an event of this kind opens or closes a container; any other leaves what containers decided by as it was.
pub fn decides(kind: EventKind) -> bool
    ensures { (n : ℕ) → (i : List ℕ) → result ≡ decides (event_at kind n i) }
{
    match kind {
        EventKind::Open => true,
        EventKind::Close => true,
        _ => false,
    }
}

/// Whether an event of this kind gives rows; any other leaves them as they were.
pub fn gives_rows(kind: EventKind) -> bool
    ensures { (n : ℕ) → (i : List ℕ) → result ≡ gives_rows (event_at kind n i) }
{
    match kind {
        EventKind::End | EventKind::Skip | EventKind::Open | EventKind::Close => true,
        _ => false,
    }
}

/// Whether an event of this kind changes running leaves.
pub fn moves_leaves(kind: EventKind) -> bool
    ensures { (n : ℕ) → (i : List ℕ) → result ≡ moves_leaves (event_at kind n i) }
{
    match kind {
        EventKind::Start | EventKind::Try | EventKind::End => true,
        _ => false,
    }
}

/// Whether an event of this kind changes open containers.
pub fn moves_containers(kind: EventKind) -> bool
    ensures { (n : ℕ) → (i : List ℕ) → result ≡ moves_containers (event_at kind n i) }
{
    match kind {
        EventKind::Open | EventKind::Begin | EventKind::Test | EventKind::Close => true,
        _ => false,
    }
}

/// The action and those inside it that stand in no loop there: an event at the action gives rows to no others.
pub fn block(plan: &Plan, action: u32) -> &[u32]
    ensures { result.now ≡ block_of (plan_tree plan.now) action }
{
    match plan.entry(action) {
        Some(entry) => &entry.block,
        None => &[],
    }
}

/// The greatest u64 where a sum of sums is above it.
pub fn total(rows: u128, running: u128, turns: u128, decisions: u128) -> u64
    ensures { result ≡ cut_u64 (rows + running + (turns + decisions)) }
{
    let opens = turns.saturating_add(decisions);
    cut(rows.saturating_add(running).saturating_add(opens)) as u64
}
