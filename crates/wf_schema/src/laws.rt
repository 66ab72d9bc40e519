//! What follows from the definitions.
ghost use Rattle.std.specs.Prelude.{◌↔◌, ℕ, List, Contains};
ghost use Rattle.wf_schema.specs.Fails.{fails};
ghost use Rattle.wf_schema.specs.Mismatch.{IsMismatch};
ghost use Rattle.wf_val.specs.ValueTree.{ValueTree};

/// The places at which a value fails a schema are exactly those at which it is of no type that is named, lacks a member that is
/// required, is none of the values that are listed, or has a member or an item that fails the schema for it.
pub fn places_are_where_a_value_fails()
    ensures { (s v : ValueTree) → (p : List ℕ) → Contains (fails s v) p ↔ IsMismatch s v p }
{}
