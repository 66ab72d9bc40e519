//! What the relations say of instances, at the addresses of a run. Each call tells a caller so, and does nothing.
ghost use Rattle.std.specs.Prelude.{◌≡◌, ◌⊎◌, ℕ, List, [], Some};
ghost use Rattle.wf_def.specs.Address.{Address, SeenIn, address};
ghost use Rattle.wf_def.specs.Definition.{Closed, Graph, Kind, kind_of};
ghost use Rattle.wf_def.specs.Seen.{Once};
ghost use Rattle.wf_def.specs.Variables.{HasOrder, IsOrdered, exclusive};
ghost use Rattle.wf_order.specs.Indexes.{HaveSameIndexes, loops_round};
ghost use Rattle.wf_order.specs.Order.{Exclusive};
ghost use Rattle.wf_order.specs.Turns.{AreSettled, IsInNoLoop, IsInstance, IsInTurn, IsReadWith};

/// Of two instances, all loops round one of which go one iteration after the other, either the indexes in the loops round both are the
/// same, or one sees the other: the first index in which they differ decides.
pub fn turns_decide()
    ensures { (g : Graph) → Once g → (x y : Address) → IsInstance g x → IsInstance g y → IsInTurn g x.name
        → HaveSameIndexes g x y ⊎ (SeenIn g y x ⊎ SeenIn g x y) }
{}

/// What stands in different branches excludes each other at each two addresses with the same indexes in the loops round both.
pub fn branches_exclude()
    ensures { (g : Graph) → Once g → (x y : Address) → Exclusive g x.name y.name → HaveSameIndexes g x y → exclusive g [] x y }
{}

/// Two writers of a variable, whose loops go one iteration after the other and that are settled, are in one order at all their addresses,
/// or exclude each other; and so is what reads it with each of them, itself and what stands inside it counted in.
pub fn accesses_are_in_order()
    ensures writers { (g : Graph) → Once g → Closed g g → (x y : Address) → IsInstance g x → IsInstance g y → IsInTurn g x.name
        → (x.name ≡ y.name) ⊎ AreSettled g x.name y.name → (x ≡ y) ⊎ IsOrdered g x y }
    ensures readers { (g : Graph) → Once g → Closed g g → (n : ℕ) (i : List ℕ) (kind : Kind) (y : Address) → kind_of g n ≡ Some kind
        → IsInstance g (address n i) → IsInstance g y → IsInTurn g y.name → IsReadWith g n y.name → HasOrder g n kind i y }
{}

/// Where no loop is round an action, none is round it and another; and as there is none, all of them go one iteration after the other.
pub fn no_loop_is_round_two()
    ensures none { (g : Graph) (n m : ℕ) → IsInNoLoop g n → loops_round g n m ≡ 0 }
    ensures in_turn { (g : Graph) (n : ℕ) → IsInNoLoop g n → IsInTurn g n }
{}
