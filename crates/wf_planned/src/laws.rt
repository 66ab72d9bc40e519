//! What is known of the plan of a definition that was read. Each call tells a caller so, and does nothing.
ghost use Rattle.std.specs.List.{AllByRecursion};
ghost use Rattle.wf_def.specs.AllActions.{all_actions};
ghost use Rattle.wf_def.specs.DefTree.{DefTree};
ghost use Rattle.wf_known_laws.specs.Each.{EachGraph};
ghost use Rattle.wf_meant.specs.Points.{graph_of};
ghost use Rattle.wf_plan.specs.Once.{NamesOnce};
ghost use Rattle.wf_plan.specs.Plan.{plan_of};
ghost use Rattle.wf_reading.specs.Read.{IsRead};
ghost use Rattle.wf_steps.specs.Kept.{IsPlanned};
ghost use Rattle.wf_planned.specs.Order.{EntriesAreInOrder};

/// In each graph of a definition the entries of a `runAfter` stand in byte order of the names that they have.
pub fn entries_stand_in_order()
    ensures { (d : DefTree) → IsRead d → EachGraph EntriesAreInOrder d.top }
{}

/// So each action names another once at most.
pub fn actions_are_named_once()
    ensures { (d : DefTree) → IsRead d → AllByRecursion NamesOnce (all_actions d.top) }
{
    wf_known_laws::each_graph_has_depths();
    wf_known_laws::entries_are_numbered();
    wf_known_laws::numbers_stand_once();
    entries_stand_in_order();
}

/// And the plan of a definition is one by which the machine may go.
pub fn plans_are_of_definitions()
    ensures { (d : DefTree) → IsRead d → IsPlanned (graph_of d) (plan_of d.top) }
{
    wf_known_laws::numbers_stand_once();
    wf_known_laws::numbers_are_below();
    wf_plan::plans_are_of_their_graphs();
    actions_are_named_once();
}
