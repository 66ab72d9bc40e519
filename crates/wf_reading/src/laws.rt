//! What is known of a definition that was read. Each call tells a caller so, and does nothing.
ghost use Rattle.std.specs.Prelude.{◌≡◌, ◌≤◌, ℕ, List, bytes_eq, is_some, length};
ghost use Rattle.std.specs.List.{list_any};
ghost use Rattle.wf_def.specs.Definition.{Turns};
ghost use Rattle.wf_val.specs.NameOrder.{IsInNameOrder};
ghost use Rattle.wf_def.specs.ActionTree.{ActionTrees, action_name, actions_in};
ghost use Rattle.wf_def.specs.DefTree.{DefTree};
ghost use Rattle.wf_def.specs.Layered.{layered};
ghost use Rattle.wf_def.specs.Names.{find_in, graph_names};
ghost use Rattle.wf_reading.specs.Facts.{AreNumbered, AreOnce, HasDepths};
ghost use Rattle.wf_reading.specs.Read.{IsRead};

/// In the graph at the top each entry of a `runAfter` names an action of the same graph, and the actions have depths, by their names, that
/// fall along every entry.
pub fn run_after_has_depths()
    ensures { (d : DefTree) → IsRead d → HasDepths d.top }
{
    wf_paths::paths_are_exact();
    wf_form::the_first_fault();
}

/// An action's name stands once in the whole definition.
pub fn names_stand_once()
    ensures { (d : DefTree) → IsRead d → AreOnce (graph_names d.top) }
{
    wf_form::the_first_fault();
}

/// An action's number is the place of its name among the names of all actions in byte order, counted from 0.
pub fn numbers_are_places()
    ensures { (d : DefTree) → IsRead d → AreNumbered d.top }
{
    wf_form::the_first_fault();
}

/// The actions of the graph at the top stand in byte order of their names.
pub fn actions_stand_in_order()
    ensures { (d : DefTree) → IsRead d → IsInNameOrder action_name (actions_in d.top) }
{}

/// There are at most 500 actions.
pub fn actions_are_few()
    ensures { (d : DefTree) → IsRead d → length (graph_names d.top) ≤ 500 }
{
    wf_form::the_first_fault();
}

/// A Foreach goes at one iteration at a time at least, and an Until has one at least.
pub fn loops_may_turn()
    ensures { (d : DefTree) → IsRead d → Turns (layered d.top) }
{}

/// An action is found by a name exactly where one of the graph, at any depth, has it.
pub fn actions_are_found_by_name()
    ensures { (name : List ℕ) (graph : ActionTrees) → is_some (find_in name graph) ≡ list_any (bytes_eq name) (graph_names graph) }
{}
