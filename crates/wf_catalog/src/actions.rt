//! What is asked of one action.
ghost use Rattle.std.specs.Prelude.{◌≡◌};
ghost use Rattle.wf_def.specs.ActionSeen.{action_tree, kind_tree};
ghost use Rattle.wf_def.specs.ActionTree.{action_kind, action_name, action_number};

use wf_def::{Action, Kind};
use wf_val::Name;

#[tactic(auto, using(crate::proofs::PlaceLemmas::number_is))]
pub fn number_of(action: &Action) -> u32
    ensures { result ≡ action_number (action_tree action.now) }
{
    action.number
}

#[tactic(auto, using(crate::proofs::PlaceLemmas::name_is))]
pub fn name_of(action: &Action) -> &Name
    ensures { result.now ≡ action_name (action_tree action.now) }
{
    &action.name
}

#[tactic(auto, using(crate::proofs::PlaceLemmas::kind_is))]
pub fn kind_of(action: &Action) -> &Kind
    ensures { kind_tree result.now ≡ action_kind (action_tree action.now) }
{
    &action.kind
}
