//! What is known of uses. Each call tells a caller so, and does nothing.
ghost use Rattle.std.specs.Prelude.{◌≡◌, ℕ, Some, is_some, slice_get};
ghost use Rattle.std.specs.List.{AllByRecursion};
ghost use Rattle.wf_def.specs.ActionTree.{action_number};
ghost use Rattle.wf_def.specs.DefTree.{DefTree};
ghost use Rattle.wf_reading.specs.Read.{IsRead};
ghost use Rattle.wf_def.specs.AllActions.{all_actions, numbered};
ghost use Rattle.wf_refs.specs.Sites.{uses_of};
ghost use Rattle.wf_refs.specs.declared.site.Site.{Site};

/// Every action has inputs and tracked properties, and there are the sites of each output and each trigger; a place that the definition
/// lacks has none.
pub fn sites_are_there()
    ensures inputs { (d : DefTree) (n : ℕ) → is_some (uses_of d (Site.Inputs n)) ≡ is_some (numbered n d.top) }
    ensures tracked { (d : DefTree) (n : ℕ) → is_some (uses_of d (Site.Tracked n)) ≡ is_some (numbered n d.top) }
    ensures outputs { (d : DefTree) (i : ℕ) → is_some (uses_of d (Site.Outputs i)) ≡ is_some (slice_get d.outputs i) }
    ensures triggers { (d : DefTree) (i : ℕ) → is_some (uses_of d (Site.Trigger i)) ≡ is_some (slice_get d.triggers i) }
{}

/// In a definition that was read each action, at every depth, is the one of its number.
pub fn read_actions_have_their_numbers()
    ensures { (d : DefTree) → IsRead d → AllByRecursion (λ a. numbered (action_number a) d.top ≡ Some a) (all_actions d.top) }
{
    wf_reading::names_stand_once();
    wf_reading::numbers_are_places();
}
