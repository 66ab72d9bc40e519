//! What the first fault is, in words of its own. Each call tells a caller so, and does nothing.
ghost use Rattle.std.specs.Prelude.{◌≡◌, ℕ, List, Some, None};
ghost use Rattle.wf_varorder.specs.DefTree.{DefTree};
ghost use Rattle.wf_first.specs.First.{first_broken, Hold, IsFirstBroken};
ghost use Rattle.wf_rules.specs.Broken.{offences, rules_in_order};
ghost use Rattle.wf_breaks.specs.declared.rule.Rule.{Rule as RuleOf};

/// Every rule of a smaller number that is tried holds, and the pointer is one of those that break the rule, and none of them is less; and
/// where there is no fault, all rules that are tried hold.
pub fn the_first_broken_rule()
    ensures some { (d : DefTree) (rule : RuleOf) (pointer : List ℕ)
        → first_broken (offences d) rules_in_order ≡ Some (rule, pointer) → IsFirstBroken (offences d) rules_in_order rule pointer }
    ensures none { (d : DefTree) → first_broken (offences d) rules_in_order ≡ None → Hold (offences d) rules_in_order }
{}
