//! What a set of actions redoes, in the words of the order and in those of the layers. Each call tells a caller so, and does nothing.
ghost use Rattle.std.specs.Prelude.{◌≡◌, ◌↔◌, Bool, List, true, ℕ};
ghost use Rattle.wf_layers.specs.Definition.{Closed, Graph, IsDepth, has};
ghost use Rattle.wf_layers.specs.Redo.{OutOfLoops, closed_again, redone};
ghost use Rattle.wf_layers.specs.Seen.{Once};
ghost use Rattle.wf_order.specs.Order.{IsBelow};
ghost use Rattle.wf_order.specs.Table.{order_of};
ghost use Rattle.wf_redo.specs.Redoes.{ASetRedoes, HoldsOne, RedoneWithOne};
ghost use Rattle.wf_redo.specs.Sets.{again_any, is_chosen, redo_any};

/// What a resubmission from a set of actions redoes are the actions that are redone with one of the set: the one, what stands inside it,
/// and what comes after it; and what it closes again are the others that contain one.
pub fn a_set_redoes()
    ensures { (d : Graph) (chosen redo again : ℕ → Bool) → ASetRedoes d chosen redo again }
{}

/// The tables of a graph answer exactly which of its actions are redone with one of a set, and which others contain one. Where none of the
/// set stands in a loop, these are what a resubmission of that set redoes and closes again.
pub fn a_set_is_redone()
    ensures redone { (n : ℕ) (g : Graph) (from : List ℕ) → IsBelow n g → Closed g g → ((x : ℕ) → is_chosen from x ≡ true → has g x ≡ true)
        → (y : ℕ) → has g y ≡ true → (redo_any (order_of n g) from y ≡ true) ↔ RedoneWithOne g (is_chosen from) y }
    ensures closed_again { (n : ℕ) (g : Graph) (from : List ℕ) → IsBelow n g → Closed g g
        → ((x : ℕ) → is_chosen from x ≡ true → has g x ≡ true) → (y : ℕ) → has g y ≡ true
        → (again_any (order_of n g) from y ≡ true) ↔ HoldsOne g (is_chosen from) (redo_any (order_of n g) from) y }
    ensures as_resubmitted { (n : ℕ) (g : Graph) (depth : ℕ → ℕ) (from : List ℕ) → IsBelow n g → Once g → Closed g g → IsDepth g depth
        → ((x : ℕ) → is_chosen from x ≡ true → has g x ≡ true) → OutOfLoops (is_chosen from) g → (y : ℕ) → has g y ≡ true
        → (redo_any (order_of n g) from y ≡ redone g depth (is_chosen from) y)
        × (again_any (order_of n g) from y ≡ closed_again g depth (is_chosen from) y) }
{}
