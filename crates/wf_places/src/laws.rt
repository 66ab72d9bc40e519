ghost use Rattle.std.specs.Prelude.{◌↔◌, ℕ, List, Contains};
ghost use Rattle.wf_places.specs.Amiss.{IsAmiss};
ghost use Rattle.wf_places.specs.Form.{places};
ghost use Rattle.wf_val.specs.ValueTree.{ValueTree};

use crate::form::Form;

/// The places of a value are exactly those at which something is amiss: it may not stand in its role, a member isn't
/// there or is one too many, or something is amiss in a member or an item.
pub fn places_are_where_something_is_amiss<F: Form>()
    ensures { (role : F) → (t : ValueTree) → (p : List ℕ)
        → Contains (places F.table role t) p ↔ IsAmiss F.table role t p }
{}
