//! An open loop, as its next iteration begins.
ghost use Rattle.std.specs.Prelude.{◌≡◌, ◌<◌, ◌≤◌, ◌^◌, ◌+◌, ◌-◌, cond, true};
ghost use Rattle.wf_lists.specs.KeyOrder.{IsInKeyOrder};
ghost use Rattle.wf_layers.specs.Changes.{next_of};
ghost use Rattle.wf_events.specs.Instances.{address_of, instance_cmp};
ghost use Rattle.wf_events.specs.Known.{opens_in};
ghost use Rattle.wf_events.specs.PlanSeen.{plan_tree, shape_tree};
ghost use Rattle.wf_events.specs.Tables.{left_in};
ghost use Rattle.wf_enter.specs.Begun.{IsBelow, begun, begun_in, counts_at, counts_turns, limit_at, limit_of};

use wf_events::{Acts, Instance, OpenAt, Opens, Plan, Shape};

fn counts_of(shape: &Shape) -> bool
    ensures { result ≡ counts_turns (shape_tree shape.now) }
{
    match shape {
        Shape::Foreach { graph, .. } => graph.len() > 0,
        _ => false,
    }
}

// Whether an iteration that begins is unfinished.
fn counts_turns(plan: &Plan, container: u32) -> bool
    ensures { result ≡ counts_at (plan_tree plan.now) container }
{
    match plan.entry(container) {
        Some(entry) => counts_of(&entry.shape),
        None => false,
    }
}

fn limit_of<A: Acts>(acts: &A, shape: &Shape, decision: &A::Decision) -> u64
    ensures { result ≡ limit_of (A.source acts.now) (shape_tree shape.now) (A.decision_tree decision.now) }
{
    match shape {
        Shape::Foreach { .. } => acts.items(decision),
        Shape::Until { count, .. } => *count as u64,
        _ => 0,
    }
}

// How many iterations a loop has with a decision.
fn limit_at<A: Acts>(acts: &A, plan: &Plan, container: u32, decision: &A::Decision) -> u64
    ensures { result ≡ limit_at (A.source acts.now) (plan_tree plan.now) container (A.decision_tree decision.now) }
{
    match plan.entry(container) {
        Some(entry) => limit_of(acts, &entry.shape, decision),
        None => 0,
    }
}

fn one_more(unfinished: u64, counts: bool) -> u64
    requires { counts ≡ true → unfinished < 2 ^ 64 - 1 }
    ensures { result ≡ cond counts (unfinished + 1) unfinished }
{
    if counts { unfinished + 1 } else { unfinished }
}

fn begun<D: Drop, V: Drop>(before: OpenAt<D, V>, counts: bool) -> OpenAt<D, V>
    requires next { before.next < 2 ^ 64 - 1 }
    requires unfinished { counts ≡ true → before.unfinished < 2 ^ 64 - 1 }
    ensures { result ≡ begun counts before }
{
    OpenAt {
        instance: before.instance,
        decision: before.decision,
        next: before.next + 1,
        test: None,
        unfinished: one_more(before.unfinished, counts),
    }
}

/// The next iteration of an open loop begins, which is one of those that the loop has. No memory is taken.
pub fn begin_iteration<A: Acts>(
    acts: &A,
    plan: &Plan,
    opens: &mut Opens<A::Decision, A::Verdict>,
    place: &Instance,
)
    requires room { 0 < opens.old.1 }
    requires next { IsBelow (A.source acts.now) (plan_tree plan.now) place.now.action
        (opens_in A.decision_tree A.verdict_tree opens.old.0 (address_of place.now)) }
    requires unfinished { counts_at (plan_tree plan.now) place.now.action ≡ true
        → left_in opens.old.0 (address_of place.now) ≤ next_of (opens_in (λ d. d) (λ v. v) opens.old.0 (address_of place.now)) }
    ensures opens { opens.new.0 ≡ begun_in place.now (counts_at (plan_tree plan.now) place.now.action) opens.old.0 }
    ensures in_order { IsInKeyOrder instance_cmp (λ o. o.instance) opens.old.0 }
{
    let counts = counts_turns(plan, place.action);
    match opens.take(place) {
        Some(open) => {
            let limit = limit_at(acts, plan, place.action, &open.decision);
            prove!(open.next < limit);
            opens.put(begun(open, counts));
        }
        None => (),
    }
}
