//! What is known of the name that is told, and of the actions that are chosen. Each call tells a caller so, and does nothing.
ghost use Rattle.std.specs.Prelude.{Bool, List, ℕ};
ghost use Rattle.wf_def.specs.ActionTree.{ActionTrees};
ghost use Rattle.wf_resubmit.specs.Chosen.{ChosenMayBeRedone};
ghost use Rattle.wf_resubmit.specs.Least.{IsLeastOf, least_of};

/// It is the least of the names of which the question holds; and where none is told, it holds of none.
pub fn the_least_is_named()
    ensures { (holds : List ℕ → Bool) (names : List (List ℕ)) → IsLeastOf holds names (least_of holds names) }
{}

/// Where nothing is refused, the actions of the names are there and none of them stands in a loop, as a resubmission asks of those from
/// which it starts.
pub fn what_is_chosen_may_be_redone()
    ensures { (graph : ActionTrees) → ChosenMayBeRedone graph }
{}
