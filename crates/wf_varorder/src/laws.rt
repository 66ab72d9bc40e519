//! What the rules on two actions are for. Each call tells a caller so, and does nothing.
ghost use Rattle.std.specs.List.{AllByRecursion};
ghost use Rattle.std.specs.Prelude.{◌≡◌, ◌↔◌, List, [], Some, None, length, true};
ghost use Rattle.wf_def.specs.DefTree.{DefTree};
ghost use Rattle.wf_def.specs.Layered.{layered};
ghost use Rattle.wf_def.specs.Names.{graph_names};
ghost use Rattle.wf_layers.specs.Definition.{Closed, has};
ghost use Rattle.wf_layers.specs.Seen.{Once};
ghost use Rattle.wf_standing.specs.Order.{IsBelow};
ghost use Rattle.wf_standing.specs.Standing.{number_at, standings_of};
ghost use Rattle.wf_varorder.specs.Least.{IsLeastPair, least_from};
ghost use Rattle.wf_varorder.specs.Pairs.{Pair, pairs_of};
ghost use Rattle.wf_varorder.specs.Settled.{ResponsesAreInOrder, TerminatesAreInOrder, VariablesAreInOrder};
ghost use Rattle.wf_varorder.specs.declared.rule.PairRule.{PairRule as RuleOf};

/// No pair breaks a rule exactly where accesses of a variable, all actions and a Terminate, or Responses are in one order or exclude each
/// other; in a definition whose actions have their numbers and wait only for actions of their own graph.
pub fn no_pair_is_in_order()
    ensures variables { (d : DefTree) → Once (layered d.top) → IsBelow (length (graph_names d.top)) (layered d.top)
        → Closed (layered d.top) (layered d.top) → AllByRecursion (λ s. has (layered d.top) (number_at s) ≡ true) (standings_of d.top)
        → (pairs_of d RuleOf.Variables ≡ []) ↔ VariablesAreInOrder d }
    ensures ends { (d : DefTree) → IsBelow (length (graph_names d.top)) (layered d.top) → Closed (layered d.top) (layered d.top)
        → AllByRecursion (λ s. has (layered d.top) (number_at s) ≡ true) (standings_of d.top)
        → (pairs_of d RuleOf.Terminates ≡ []) ↔ TerminatesAreInOrder d }
    ensures answers { (d : DefTree) → IsBelow (length (graph_names d.top)) (layered d.top) → Closed (layered d.top) (layered d.top)
        → AllByRecursion (λ s. has (layered d.top) (number_at s) ≡ true) (standings_of d.top)
        → (pairs_of d RuleOf.Responses ≡ []) ↔ ResponsesAreInOrder d }
{
    wf_standing::order_is_exact();
}

/// The least pair is one that breaks the rule, and none is below it; there is none exactly where no pair breaks the rule.
pub fn the_least_pair()
    ensures some { (ps : List Pair) (p : Pair) → least_from None ps ≡ Some p → IsLeastPair ps p }
    ensures none { (ps : List Pair) → least_from None ps ≡ None → ps ≡ [] }
{}
