//! Sums of costs, as an event moves them.
ghost use Rattle.std.specs.Prelude.{◌≡◌, ◌<◌, ◌≤◌, ◌+◌, ◌-◌, ◌^◌, ℕ, List, cond};
ghost use Rattle.wf_asks.specs.Instances.{address_of, rows_in};
ghost use Rattle.wf_asks.specs.Known.{opens_in};
ghost use Rattle.wf_meter.specs.PlanSeen.{plan_tree};
ghost use Rattle.wf_meter.specs.Tables.{event_at, running_in};
ghost use Rattle.wf_meter.specs.Parts.{block_of, block_worth, decision_part, leaf_part, row_part, turns_part, worth};
ghost use Rattle.wf_metered.specs.Sums.{IsAsked, MayMove, moved};

use wf_asks::{Acts, Instance};
use wf_meter::{
    EventKind, Plan, block, block_part, decides, decision_part, gives_rows, leaf_part,
    moves_containers, moves_leaves, turns_part,
};
use wf_steps::State;

/// What rows, running leaves and open containers cost; these for themselves and their iterations, and apart from that by what they keep of
/// what they decided by.
#[derive(Clone, Copy)]
pub(crate) struct Sums {
    pub(crate) rows: u128,
    pub(crate) running: u128,
    pub(crate) turns: u128,
    pub(crate) decisions: u128,
}

/// Which of the sums an event can move: no other is looked at for it.
#[derive(Clone, Copy)]
pub(crate) struct Moves {
    pub(crate) rows: bool,
    pub(crate) running: bool,
    pub(crate) turns: bool,
    pub(crate) decisions: bool,
}

impl Moves {
    /// Those of an event of this kind.
    pub(crate) fn of(kind: EventKind) -> Moves
        ensures { (n : ℕ) → (i : List ℕ) → IsAsked (event_at kind n i) result }
    {
        Moves {
            rows: gives_rows(kind),
            running: moves_leaves(kind),
            turns: moves_containers(kind),
            decisions: decides(kind),
        }
    }
}

fn block_where<A: Acts>(
    state: &State<'_, A>,
    block: &[u32],
    probe: &mut Instance,
    asked: bool,
) -> u128
    ensures part { result ≡ cond asked (block_worth (row_part (A.cost_of_row state.now.0)) (rows_in A.row_tree state.now.1.0)
        probe.old.at block.now) 0 }
    ensures at { probe.new.at ≡ probe.old.at }
{
    if asked {
        block_part(state.acts(), state.rows(), block, probe)
    } else {
        0
    }
}

fn leaf_where<A: Acts>(state: &State<'_, A>, place: &Instance, asked: bool) -> u128
    ensures { result ≡ cond asked (worth (leaf_part (A.weight_of_begun state.now.0)) (address_of place.now)
        (running_in A.begun_tree state.now.1.1.0 (address_of place.now))) 0 }
{
    if asked {
        leaf_part(state.acts(), state.leaves(), place)
    } else {
        0
    }
}

fn turns_where<A: Acts>(state: &State<'_, A>, plan: &Plan, place: &Instance, asked: bool) -> u128
    ensures { result ≡ cond asked (worth (turns_part (plan_tree plan.now) (A.source state.now.0).items) (address_of place.now)
        (opens_in A.decision_tree A.verdict_tree state.now.1.1.1.0 (address_of place.now))) 0 }
{
    if asked {
        turns_part(state.acts(), plan, state.containers(), place)
    } else {
        0
    }
}

// To weigh what a container decided by may take long.
fn decision_where<A: Acts>(state: &State<'_, A>, place: &Instance, asked: bool) -> u128
    ensures { result ≡ cond asked (worth (decision_part (A.weight_of_decision state.now.0)) (address_of place.now)
        (opens_in A.decision_tree A.verdict_tree state.now.1.1.1.0 (address_of place.now))) 0 }
{
    if asked {
        decision_part(state.acts(), state.containers(), place)
    } else {
        0
    }
}

/// What stands at an action, and of rows, at those inside it that stand in no loop there; of each that an event can move, and 0 of the
/// others.
pub(crate) fn parts_at<A: Acts>(
    state: &State<'_, A>,
    plan: &Plan,
    place: &Instance,
    moves: Moves,
    probe: &mut Instance,
) -> Sums
    requires { probe.old.at ≡ place.now.at }
    ensures rows { result.rows ≡ cond moves.rows (block_worth (row_part (A.cost_of_row state.now.0)) (rows_in A.row_tree state.now.1.0)
        place.now.at (block_of (plan_tree plan.now) place.now.action)) 0 }
    ensures running { result.running ≡ cond moves.running (worth (leaf_part (A.weight_of_begun state.now.0)) (address_of place.now)
        (running_in A.begun_tree state.now.1.1.0 (address_of place.now))) 0 }
    ensures turns { result.turns ≡ cond moves.turns (worth (turns_part (plan_tree plan.now) (A.source state.now.0).items)
        (address_of place.now) (opens_in A.decision_tree A.verdict_tree state.now.1.1.1.0 (address_of place.now))) 0 }
    ensures decisions { result.decisions ≡ cond moves.decisions (worth (decision_part (A.weight_of_decision state.now.0)) (address_of place.now)
        (opens_in A.decision_tree A.verdict_tree state.now.1.1.1.0 (address_of place.now))) 0 }
    ensures at { probe.new.at ≡ probe.old.at }
{
    Sums {
        rows: block_where(state, block(plan, place.action), probe, moves.rows),
        running: leaf_where(state, place, moves.running),
        turns: turns_where(state, plan, place, moves.turns),
        decisions: decision_where(state, place, moves.decisions),
    }
}

/// The sums behind an event, by what stood at its action before it and what stands there now.
pub(crate) fn moved(sums: Sums, before: Sums, after: Sums) -> Sums
    requires { MayMove sums before after }
    ensures { result ≡ moved sums before after }
{
    Sums {
        rows: sums.rows - before.rows + after.rows,
        running: sums.running - before.running + after.running,
        turns: sums.turns - before.turns + after.turns,
        decisions: sums.decisions - before.decisions + after.decisions,
    }
}
