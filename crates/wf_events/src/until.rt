//! What a state has of an Until that is tested, and what its row tells as it closes.
ghost use Rattle.std.specs.Prelude.{◌≡◌, ◌<◌, ◌^◌, Some, option_map};
ghost use Rattle.wf_layers.specs.Changes.{next_of};
ghost use Rattle.wf_tables.specs.Instances.{address_of};
ghost use Rattle.wf_tables.specs.Known.{opens_in};
ghost use Rattle.wf_tables.specs.PlanSeen.{at_place, plan_tree};
ghost use Rattle.wf_events.specs.Closed.{iterations_by, last_by};
ghost use Rattle.wf_events.specs.Events.{count_or_zero};

use wf_tables::{Instance, OpenAt, Opens, Plan, Shape};

/// How many iterations an Until has at most; 0 of anything else.
pub fn count_of(plan: &Plan, action: u32) -> u64
    ensures { result ≡ count_or_zero (at_place (plan_tree plan.now).entries action) }
{
    match plan.entry(action) {
        Some(entry) => match &entry.shape {
            Shape::Until { count, .. } => *count as u64,
            _ => 0,
        },
        None => 0,
    }
}

/// How many iterations the row of a container tells, whose next one would have this index: those of an Until, and 0 of any other.
pub fn iterations(plan: &Plan, action: u32, next: u64) -> u64
    ensures count { result ≡ iterations_by (at_place (plan_tree plan.now).entries action) next }
    ensures in_range { result < 2 ^ 32 }
{
    match plan.entry(action) {
        Some(entry) => match &entry.shape {
            Shape::Until { count, .. } => {
                let most = *count as u64;
                if next < most { next } else { most }
            }
            _ => 0,
        },
        None => 0,
    }
}

/// The last test that it tells: that of an Until, and none of any other.
pub fn last_test<'t, V>(plan: &Plan, action: u32, test: &'t Option<V>) -> Option<&'t V>
    ensures { option_map (λ v. v.now) result ≡ last_by (at_place (plan_tree plan.now).entries action) test.now }
{
    match plan.entry(action) {
        Some(entry) => match &entry.shape {
            Shape::Until { .. } => test.as_ref(),
            _ => None,
        },
        None => None,
    }
}

/// The index of the next iteration of an open loop; 0 where it isn't open.
pub fn next_index<D, V>(opens: &Opens<D, V>, place: &Instance) -> u64
    ensures { result ≡ next_of (opens_in (λ d. d) (λ v. v) opens.now.0 (address_of place.now)) }
{
    match opens.get(place) {
        Some(open) => open.next,
        None => 0,
    }
}

/// An open container with another last test.
pub fn with_test<D: Drop, V: Drop>(open: OpenAt<D, V>, verdict: V) -> OpenAt<D, V>
    ensures { result ≡ record {
      instance = open.instance;
      decision = open.decision;
      next = open.next;
      test = Some verdict;
      unfinished = open.unfinished;
    } }
{
    OpenAt {
        instance: open.instance,
        decision: open.decision,
        next: open.next,
        test: Some(verdict),
        unfinished: open.unfinished,
    }
}
