//! Which loops are round an action, which of them a reference to it leaves, and what is seen through them.
//!
//! `wf_order` says how many loops are round two actions. An expression that names an action wants more: how each of these loops goes, one
//! iteration after the other or side by side, which loops round the action aren't round the place of the expression, and by all that which
//! of two instances is earlier, as a test. `specs/Loops` has these as lists, outermost first, by recursion on the graph of `wf_layers`, and
//! `specs/Laws` the words in which the laws speak of them.
//!
//! It has no code: each public function has an empty body but for the laws that it calls, and its contract is a law. The laws say that what
//! the test finds earlier is seen in the sense of `wf_layers`, that whoever sees an instance sees the loop that a reference to it leaves
//! first, whose row tells how many iterations there were, and whoever sees a container sees all inside it.
#![tactic(auto)]

ghost use Rattle.std.specs.Prelude.{◌≡◌, ◌≤◌, ◌++◌, ◌∷◌, ℕ, Bool, List, Some, length, true};
ghost use Rattle.wf_order.specs.Address.{Address, SeenIn, address, starts};
ghost use Rattle.wf_order.specs.Definition.{Closed, Graph, Kind, holds, kind_of};
ghost use Rattle.wf_order.specs.Seen.{Once};
ghost use Rattle.wf_order.specs.Indexes.{loops_round};
ghost use Rattle.wf_loops.specs.Laws.{IsEarlierBy, IsLeftFirst, IsRound, StandsIn};
ghost use Rattle.wf_loops.specs.Loops.{loops_of, paces_round};

use wf_order::what_is_before_is_seen;
pub use wf_order::{Order, before_is_an_order, order_is_exact, what_stands_inside_goes_along};

/// What is earlier by the loops round two actions is seen: where an index differs in a loop that goes one iteration after the other, the
/// lesser one is earlier; where none differs, what is before.
pub fn what_is_earlier_is_seen()
    ensures { (g : Graph) → Once g → Closed g g → (x y : Address) (before : Bool) → IsEarlierBy g x y before → SeenIn g y x }
{
    what_is_before_is_seen();
}

/// Who sees an instance sees the loop that a reference to it leaves first.
pub fn what_is_left_is_seen()
    ensures { (g : Graph) → Once g → (z x : Address) (l : ℕ) (shared : List ℕ) → IsLeftFirst g z x l shared → SeenIn g z x
        → SeenIn g z (address l shared) }
{}

/// Who sees a container sees what stands inside it, in each iteration.
pub fn what_stands_inside_is_seen_along()
    ensures { (g : Graph) → Once g → (n x z : Address) (kind : Kind) → kind_of g n.name ≡ Some kind → holds kind x.name ≡ true
        → starts n.at x.at ≡ true → SeenIn g z n → SeenIn g z x }
{}

/// The lists of loops go together: there is a pace for each loop that `wf_order` counts round both, and no more than loops round one; what
/// stands in a container has the container's loops; and a loop of the list contains the action, and has the loops before it round it.
pub fn loops_are_those_round()
    ensures counted { (g : Graph) (x y : ℕ) → length (paces_round g x y) ≡ loops_round g x y }
    ensures few { (g : Graph) → Once g → (x y : ℕ) → length (paces_round g x y) ≤ length (loops_of g y) }
    ensures inside { (g : Graph) → Once g → (n x : ℕ) (kind : Kind) → kind_of g n ≡ Some kind → holds kind x ≡ true → StandsIn g n x kind }
    ensures round { (g : Graph) → Once g → (x l : ℕ) (outer inner : List ℕ) → loops_of g x ≡ outer ++ l ∷ inner → IsRound g x l outer }
{}
