//! What an instance sees, told by the loops round it.
//!
//! `wf_loops` says that what is earlier by the loops round two actions is seen. Here stands the other direction, so that the test
//! `is_earlier` tells exactly what is seen; and that who sees an instance in a loop sees the loop, whose row tells how many iterations
//! there were, or stands in the loop, too, in the same iteration or a later one. So all that a point sees can be listed, loop by loop: of
//! a loop round the point up to the point's own iteration, of any other as many as its row tells. And each row in a loop stands in an
//! iteration that the loop's row was closed with.
//!
//! It has no code: each public function has an empty body but for the laws that it calls, and its contract is a law.
#![tactic(auto)]

ghost use Rattle.std.specs.Prelude.{◌≡◌, ◌⊎◌, ℕ, Bool, List, Some, false, length, true};
ghost use Rattle.wf_layers.specs.Address.{Address, SeenIn, Table, address};
ghost use Rattle.wf_layers.specs.Definition.{Closed, Graph, IsDepth, Leaf, has, kind_of};
ghost use Rattle.wf_layers.specs.Instances.{loop_count};
ghost use Rattle.wf_layers.specs.Laws.{IsFresh};
ghost use Rattle.wf_layers.specs.Resubmission.{kept};
ghost use Rattle.wf_layers.specs.Rule.{Obeys};
ghost use Rattle.wf_layers.specs.Seen.{Once};
ghost use Rattle.wf_layers.specs.Source.{Source, leaf};
ghost use Rattle.wf_loops.specs.Order.{Before, IsBelow};
ghost use Rattle.wf_loops.specs.Loops.{is_earlier, paces_round};
ghost use Rattle.wf_seen_laws.specs.Laws.{HadTurn, IsInTurnFrom, IsInTurnOf, IsKept};

pub use wf_loops::{
    before_is_an_order, order_is_exact, what_is_earlier_is_seen, what_stands_inside_goes_along,
};

/// What is seen is earlier by the loops round both: an index that differs is the lesser one in a loop that goes one iteration after the
/// other; and where none differs, what is seen is before who sees it.
pub fn what_is_seen_is_earlier()
    ensures { (g : Graph) (depth : ℕ → ℕ) → Once g → IsDepth g depth → (x y : Address) (before : Bool)
        → (Before g x.name y.name → before ≡ true) → SeenIn g y x
        → is_earlier (paces_round g x.name y.name) x.at y.at before ≡ true }
{}

/// Who sees an instance sees each loop round it, or stands in that loop, too, and in no earlier iteration. Nobody sees a loop in which he
/// stands.
pub fn loops_round_what_is_seen_are_seen()
    ensures seen { (g : Graph) → Once g → (z x : Address) (l : ℕ) (outer at : List ℕ) (turn : ℕ) → IsInTurnOf g x l outer at turn
        → SeenIn g z x → SeenIn g z (address l at) ⊎ IsInTurnFrom g z l outer at turn }
    ensures never_both { (g : Graph) (depth : ℕ → ℕ) → Once g → Closed g g → IsDepth g depth → (z : Address) (l : ℕ) (outer at : List ℕ)
        (turn : ℕ) → IsInTurnOf g z l outer at turn → SeenIn g z (address l at) → ⊥ }
{
    what_is_seen_is_earlier();
    before_is_an_order();
    what_stands_inside_goes_along();
}

/// Nobody sees who sees him.
pub fn nobody_sees_who_sees_him()
    ensures { (n : ℕ) (g : Graph) (depth : ℕ → ℕ) → Once g → Closed g g → IsDepth g depth → IsBelow n g → (x y : Address) → SeenIn g x y
        → SeenIn g y x → ⊥ }
{
    what_is_seen_is_earlier();
    before_is_an_order();
    order_is_exact();
}

/// A row in a loop stands in an iteration that the loop was closed with, whatever table obeys the rule of the definition: the loop has a
/// row, that of a Foreach with more items, or of an Until with more iterations.
pub fn rows_in_loops_had_their_turn<Row, Begun, Decision, Verdict>()
    ensures { (g : Graph) (m : Source Row Begun Decision Verdict) (f : Table Row) → Once g → IsFresh m → Obeys m g f → (x : Address)
        (r : Row)
        → f x ≡ Some r → (l : ℕ) (outer at : List ℕ) (turn : ℕ) → IsInTurnOf g x l outer at turn → HadTurn g m f l at turn }
{}

/// Where a source keeps rows of an older table, so do the rows that it doesn't keep.
pub fn new_rows_in_loops_had_their_turn<Row, Begun, Decision, Verdict>()
    ensures { (g : Graph) (m : Source Row Begun Decision Verdict) (redo again : ℕ → Bool) (f : Table Row) → Once g
        → IsKept g m redo again → Obeys m g f → (x : Address) (r : Row) → f x ≡ Some r → kept redo again x.name ≡ false
        → (l : ℕ) (outer at : List ℕ) (turn : ℕ) → IsInTurnOf g x l outer at turn → HadTurn g m f l at turn }
{}

/// Each such row of the definition stands at an instance: its address has one index for every loop round its action.
pub fn new_rows_stand_at_instances<Row, Begun, Decision, Verdict>()
    ensures { (g : Graph) (m : Source Row Begun Decision Verdict) (redo again : ℕ → Bool) (f : Table Row) → Once g
        → IsKept g m redo again → Obeys m g f → (x : Address) (r : Row) → f x ≡ Some r → kept redo again x.name ≡ false
        → has g x.name ≡ true → loop_count g x.name ≡ length x.at }
{}

/// And that of a leaf is the one with which it ended, or a Skipped one.
pub fn new_rows_are_those_of_their_leaves<Row, Begun, Decision, Verdict>()
    ensures { (g : Graph) (m : Source Row Begun Decision Verdict) (redo again : ℕ → Bool) (f : Table Row) → IsKept g m redo again
        → Obeys m g f → (x : Address) (r : Row) → f x ≡ Some r → kept redo again x.name ≡ false → kind_of g x.name ≡ Some Leaf
        → (r ≡ m.skipped) ⊎ (r ≡ leaf m x f) }
{}
