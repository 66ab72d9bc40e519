//! Counts of a graph, as it is entered and as one of its actions gets its row.
ghost use Rattle.std.specs.Prelude.{◌≡◌, ◌<◌, ◌≤◌, ◌+◌, ◌-◌, ◌&&◌, IfOk, cond, length, not};
ghost use Rattle.wf_plan.specs.Address.{Address, is_own};
ghost use Rattle.wf_plan.specs.Machine.{has_ended};
ghost use Rattle.wf_kept.specs.Counted.{less, nonzero};
ghost use Rattle.wf_plan.specs.Instances.{address_of};
ghost use Rattle.wf_plan.specs.Known.{opens_in};
ghost use Rattle.wf_plan.specs.PlanSeen.{plan_tree};
ghost use Rattle.wf_tables.specs.Counts.{entered_counts, needs_at, set_all};
ghost use Rattle.wf_tables.specs.Tables.{count_in, left_in};

use crate::counts::{lower_one, set_count, set_counts};
use crate::entries::CountAt;
use std::alloc::{AllocError, Global};
use wf_lists::TryCopy;
use wf_plan::{Instance, OpenAt, Opens, Plan};
use wf_room::Roomy;
use wf_val::Indexes;

/// How much an action waits for, where nothing that it names has a row.
pub fn needs_of(plan: &Plan, action: u32) -> u64
    ensures { result ≡ length (needs_at (plan_tree plan.now) action) }
{
    match plan.entry(action) {
        Some(entry) => entry.after.len() as u64,
        None => 0,
    }
}

/// How much each action of a graph waits for, where none of them has a row at these indexes.
pub fn entered(
    alloc: Global,
    plan: &Plan,
    graph: &[u32],
    at: &Indexes,
) -> Result<Vec<CountAt>, AllocError>
    ensures { IfOk result (λ counts. counts.items ≡ entered_counts (plan_tree plan.now) at.now graph.now) }
{
    let mut counts = Vec::with_capacity(alloc, graph.len())?;
    for action in graph {
        counts.push(CountAt {
            instance: Instance {
                action: *action,
                at: at.copy(alloc)?,
            },
            count: needs_of(plan, *action),
        })?;
    }
    Ok(counts)
}

/// A graph is entered: its actions wait for so much, and all of them lack a row. The graph goes by its container and its own indexes. No
/// memory is taken.
pub fn enter(
    waits: &mut Roomy<CountAt>,
    lacks: &mut Roomy<CountAt>,
    actions: Vec<CountAt>,
    graph: Instance,
)
    requires waits { length actions.items ≤ waits.old.1 }
    requires lacks { 0 < lacks.old.1 }
    ensures waits { (x : Address) → count_in waits.new.0 x ≡ set_all actions.items (count_in waits.old.0) x }
    ensures lacks { (x : Address) → count_in lacks.new.0 x
        ≡ cond (is_own graph.action graph.at x) (nonzero (length actions.items)) (count_in lacks.old.0 x) }
{
    let size = actions.len() as u64;
    set_counts(waits, actions);
    set_count(
        lacks,
        CountAt {
            instance: graph,
            count: size,
        },
    );
}

/// Of an open Foreach one iteration more is finished. No memory is taken.
pub fn finish_iteration<D: Drop, V: Drop>(opens: &mut Opens<D, V>, container: &Instance)
    requires { 0 < opens.old.1 }
    ensures left { (x : Address) → left_in opens.new.0 x
        ≡ cond (is_own container.now.action container.now.at x) (left_in opens.old.0 x - 1) (left_in opens.old.0 x) }
    ensures opens { opens_in (λ d. d) (λ v. v) opens.new.0 ≡ opens_in (λ d. d) (λ v. v) opens.old.0 }
    ensures room { opens.old.1 ≤ opens.new.1 + 1 }
{
    match opens.take(container) {
        Some(open) => opens.put(OpenAt {
            instance: open.instance,
            decision: open.decision,
            next: open.next,
            test: open.test,
            unfinished: open.unfinished.saturating_sub(1),
        }),
        None => (),
    }
}

fn finish_where<D: Drop, V: Drop>(opens: &mut Opens<D, V>, container: &Instance, is_last: bool)
    requires { 0 < opens.old.1 }
    ensures left { (x : Address) → left_in opens.new.0 x
        ≡ cond (is_last && is_own container.now.action container.now.at x) (left_in opens.old.0 x - 1) (left_in opens.old.0 x) }
    ensures opens { opens_in (λ d. d) (λ v. v) opens.new.0 ≡ opens_in (λ d. d) (λ v. v) opens.old.0 }
    ensures room { opens.old.1 ≤ opens.new.1 + 1 }
{
    if is_last {
        finish_iteration(opens, container);
    }
}

// Whether nothing is counted at an instance.
fn is_gone(counts: &Roomy<CountAt>, place: &Instance) -> bool
    ensures { result ≡ not (has_ended (count_in counts.now.0 (address_of place.now))) }
{
    match counts.get(place) {
        Some(_) => false,
        None => true,
    }
}

/// An action of a graph gets its row: the graph, which goes by its container and its own indexes and is given back, lacks one less; and
/// where it lacks none any more and is an iteration of a Foreach, that has one unfinished iteration less. No memory is taken.
pub fn lack_less<D: Drop, V: Drop>(
    lacks: &mut Roomy<CountAt>,
    opens: &mut Opens<D, V>,
    graph: Instance,
    container: &Instance,
    is_foreach: bool,
) -> Instance
    requires { 0 < opens.old.1 }
    ensures lacks { (x : Address) → count_in lacks.new.0 x
        ≡ cond (is_own graph.action graph.at x) (less 1 (count_in lacks.old.0 x)) (count_in lacks.old.0 x) }
    ensures left { (x : Address) → left_in opens.new.0 x
        ≡ cond ((is_foreach && not (has_ended (count_in lacks.new.0 (address_of graph))))
        && is_own container.now.action container.now.at x) (left_in opens.old.0 x - 1) (left_in opens.old.0 x) }
    ensures opens { opens_in (λ d. d) (λ v. v) opens.new.0 ≡ opens_in (λ d. d) (λ v. v) opens.old.0 }
    ensures lacks_room { lacks.old.1 ≤ lacks.new.1 }
    ensures opens_room { opens.old.1 ≤ opens.new.1 + 1 }
    ensures graph { result ≡ graph }
{
    let lowered = lower_one(lacks, graph);
    let is_last = is_gone(lacks, &lowered);
    finish_where(opens, container, is_foreach && is_last);
    lowered
}
