//! What is known of names in order. The call tells a caller so, and does nothing.
ghost use Rattle.std.specs.Prelude.{◌≡◌, ℕ, List, bytes_eq};
ghost use Rattle.std.specs.List.{list_any};
ghost use Rattle.wf_val.specs.NameOrder.{IsInNameOrder};
ghost use Rattle.wf_uses.specs.UsesTree.{ordered};

/// The names of a site are those that stand there, in byte order and each once.
pub fn names_are_those_named()
    ensures same { (k : List ℕ) (ks : List (List ℕ)) → list_any (bytes_eq k) (ordered ks) ≡ list_any (bytes_eq k) ks }
    ensures in_order { (ks : List (List ℕ)) → IsInNameOrder (λ k. k) (ordered ks) }
{}
