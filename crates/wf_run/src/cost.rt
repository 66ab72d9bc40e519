//! What the record of a run costs.
ghost use Rattle.std.specs.Prelude.{◌≡◌, ◌≤◌, IfSome, None};
ghost use Rattle.wf_run.specs.Made.{IsTooMuch};
ghost use Rattle.wf_run.specs.Runs.{IsWithin, cost_of};

use wf_record::Record;

/// What the record of a run costs, where it isn't too much with the `spent` that others cost.
pub(crate) fn cost_within(finished: &Record, spent: u64) -> Option<u64>
    requires { spent ≤ 67108864 }
    ensures cost { IfSome result (λ c. c ≡ cost_of finished.now) }
    ensures small { IfSome result (λ c. IsWithin spent (cost_of finished.now)) }
    ensures large { result ≡ None → IsTooMuch spent (cost_of finished.now) }
{
    let cost = finished.cost();
    if cost > 67108864 - spent {
        return None;
    }
    Some(cost)
}
