//! What the tables answer, in the words of a definition, and how the relations go together. Each call tells a caller so, and does
//! nothing.
ghost use Rattle.std.specs.Prelude.{◌≡◌, ◌↔◌, ℕ, true};
ghost use Rattle.wf_def.specs.Address.{Address, SeenIn, starts};
ghost use Rattle.wf_def.specs.Definition.{Closed, Graph, IsDepth, has};
ghost use Rattle.wf_def.specs.Seen.{Once};
ghost use Rattle.wf_order.specs.Indexes.{HaveSameIndexes};
ghost use Rattle.wf_order.specs.Order.{Before, Contains, Exclusive, IsBelow, Redo};
ghost use Rattle.wf_order.specs.Table.{before, contains, exclusive, order_of, redo};

/// The tables of a graph answer exactly which of two actions is before, contains or excludes the other, and what is redone, where each
/// entry of `runAfter` names an action of its own graph, and all numbers are below n.
pub fn order_is_exact()
    ensures before { (n : ℕ) (g : Graph) → IsBelow n g → Closed g g → (x y : ℕ) → has g x ≡ true → has g y ≡ true
        → (before (order_of n g) x y ≡ true) ↔ Before g x y }
    ensures contains { (n : ℕ) (g : Graph) → IsBelow n g → (x y : ℕ) → has g y ≡ true
        → (contains (order_of n g) x y ≡ true) ↔ Contains g x y }
    ensures exclusive { (n : ℕ) (g : Graph) → IsBelow n g → (x y : ℕ) → has g x ≡ true → has g y ≡ true
        → (exclusive (order_of n g) x y ≡ true) ↔ Exclusive g x y }
    ensures redo { (n : ℕ) (g : Graph) → IsBelow n g → Closed g g → (x y : ℕ) → has g x ≡ true → has g y ≡ true
        → (redo (order_of n g) x y ≡ true) ↔ Redo g x y }
{}

/// Before is an order, where names stand once, entries name actions of their own graph, and no action is its own ancestor.
pub fn before_is_an_order()
    ensures never_itself { (g : Graph) (depth : ℕ → ℕ) → Once g → Closed g g → IsDepth g depth → (x : ℕ) → Before g x x → ⊥ }
    ensures transitive { (g : Graph) → Once g → Closed g g → (x y z : ℕ) → Before g x y → Before g y z → Before g x z }
{}

/// What stands inside a container goes along with it, where names stand once.
pub fn what_stands_inside_goes_along()
    ensures contains { (g : Graph) → Once g → (x y z : ℕ) → Contains g x y → Contains g y z → Contains g x z }
    ensures before { (g : Graph) → Once g → (x y z : ℕ) → Before g x y → Contains g x z → Before g z y }
    ensures after { (g : Graph) → Once g → (x y z : ℕ) → Before g x y → Contains g y z → Before g x z }
    ensures exclusive { (g : Graph) → Once g → (x y z : ℕ) → Exclusive g x y → Contains g y z → Exclusive g x z }
{}

/// What is before an action is seen by it, at each address that has the same indexes in the loops round both: however many loops the one
/// leaves, and however many are round the other alone. So an answer that asks only for rows of actions before it looks only at what is
/// earlier.
pub fn what_is_before_is_seen()
    ensures { (g : Graph) → Once g → Closed g g → (x y : Address) → Before g x.name y.name → HaveSameIndexes g x y → SeenIn g y x }
{}

/// What a container sees is seen by all that stands inside it, in each of its iterations: the list of a Foreach, and what a condition asked
/// for.
pub fn what_a_container_sees_is_seen_inside()
    ensures { (g : Graph) → Once g → (c x z : Address) → Contains g c.name x.name → starts c.at x.at ≡ true → SeenIn g c z → SeenIn g x z }
{}
