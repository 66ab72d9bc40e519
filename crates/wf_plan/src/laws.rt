//! What a plan has in the words of the laws of order. Each call tells a caller so, and does nothing.
ghost use Rattle.std.specs.Prelude.{◌≡◌, ◌<◌, ℕ, length, true};
ghost use Rattle.std.specs.List.{AllByRecursion};
ghost use Rattle.wf_def.specs.Definition.{has};
ghost use Rattle.wf_def.specs.Seen.{Once};
ghost use Rattle.wf_def.specs.ActionTree.{ActionTrees};
ghost use Rattle.wf_def.specs.AllActions.{all_actions};
ghost use Rattle.wf_def.specs.Layered.{layered};
ghost use Rattle.wf_plan.specs.Exact.{IsExact};
ghost use Rattle.wf_plan.specs.Once.{NamesOnce, StandOnce};
ghost use Rattle.wf_plan.specs.Plan.{plan_of};
ghost use Rattle.wf_plan.specs.PlanOf.{IsPlanOf};

/// Where each number stands once, what the list of all actions says of a number is what the graph does: what the action waits for, which
/// graphs it holds, who waits for it, and what holds it.
pub fn plans_are_exact()
    ensures { (graph : ActionTrees) → Once (layered graph) → IsExact (layered graph) (all_actions graph) }
{}

/// There all actions are apart, and where each names an action once at most, no number stands twice among those that wait for another.
pub fn actions_stand_once()
    ensures { (graph : ActionTrees) → Once (layered graph) → StandOnce graph }
{}

/// So where the numbers are those below the count of actions, the plan of a definition is one of its graph.
pub fn plans_are_of_their_graphs()
    ensures { (graph : ActionTrees) → Once (layered graph)
        → ((n : ℕ) → has (layered graph) n ≡ true → n < length (all_actions graph)) → AllByRecursion NamesOnce (all_actions graph)
        → IsPlanOf (layered graph) (plan_of graph) }
{}
