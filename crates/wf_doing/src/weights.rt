//! How much a run keeps of what isn't finished.
ghost use Rattle.std.specs.Prelude.{◌≡◌};
ghost use Rattle.wf_closing.specs.DoneSeen.{begun_tree};
ghost use Rattle.wf_closing.specs.DecisionSeen.{decision_tree};
ghost use Rattle.wf_val.specs.Cut.{cut_u64};
ghost use Rattle.wf_doing.specs.Weights.{begun_weight, decision_weight};

use wf_closing::{Begun, Decision};

/// What a running leaf keeps, cut to the greatest u64.
pub fn begun_weight(begun: &Begun) -> u64
    ensures { result ≡ cut_u64 (begun_weight (begun_tree begun.now)) }
{
    match begun {
        Begun::Acted(done) => done.inputs.weight(),
        Begun::Calling { inputs, policy: _ } => inputs.weight(),
    }
}

/// What an open container keeps, cut to the greatest u64.
pub fn decision_weight(decision: &Decision) -> u64
    ensures { result ≡ cut_u64 (decision_weight (decision_tree decision.now)) }
{
    match decision {
        Decision::Chosen { value, branch: _ } => value.weight(),
        Decision::Each(items) => items.size().weight.saturating_add(1),
        _ => 1,
    }
}
