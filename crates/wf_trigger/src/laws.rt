//! What the definitions of starts say, in other words. Each call tells a caller so, and does nothing.
ghost use Rattle.std.specs.List.{Contains};
ghost use Rattle.std.specs.Prelude.{◌≡◌, ◌≢◌, ◌↔◌, ◌⊎◌, List, [], Bool, false, true, Option, Some, codes};
ghost use Rattle.std.specs.declared.cmp.Ordering.TheVariants.{Less};
ghost use Rattle.wf_def.specs.DefTree.{ParamTree};
ghost use Rattle.wf_trigger.specs.Parameters.{fails, first_failing, given_value};
ghost use Rattle.wf_trigger.specs.Starts.{Shared, starts_of, with_body};
ghost use Rattle.wf_trigger.specs.Shared.{kept_outputs};
ghost use Rattle.wf_trigger.specs.declared.parameters.Want.{Want};
ghost use Rattle.wf_val.specs.NameOrder.{IsInNameOrder, bytes_cmp};
ghost use Rattle.wf_val.specs.ValueTree.{Member, ValueTree};
ghost use Rattle.wf_val.specs.WellFormed.{IsWellFormed};

/// A body that is replaced might as well have been taken out before.
pub fn a_body_is_replaced()
    ensures { (t : ValueTree) → (item : ValueTree) → IsWellFormed t → with_body (kept_outputs true t) item ≡ with_body t item }
{}

/// Where declared parameters stand in the order of their names, the one that is named is the least that fails.
pub fn the_least_parameter_is_named()
    ensures { (handed : List Member) → (given : List Member) → (want : Want) → (params : List ParamTree) → (p : ParamTree)
        → IsInNameOrder (λ (q : ParamTree). q.name) params → first_failing handed given want params ≡ Some p.name
        → (q : ParamTree) → Contains params q → fails want q (given_value handed given q) ≡ true → bytes_cmp q.name p.name ≢ Less }
{}

/// No run starts exactly where a condition doesn't hold, or there is nothing in the list of a split.
pub fn none_start_exactly_where()
    ensures { (s : Shared) → (split : Option (List ValueTree)) → (holds : Bool)
        → (starts_of s split holds ≡ []) ↔ ((holds ≡ false) ⊎ (split ≡ Some [])) }
{}
