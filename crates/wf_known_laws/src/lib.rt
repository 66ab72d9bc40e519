//! What is known of a definition that was read, in the words of the laws of order and meaning.
//!
//! A workflow definition (Workflow Definition Language, schema 2016-06-01) that breaks none of the rules on its form (`wf_form`) meets the
//! premises of the laws of `wf_layers`, `wf_order` and `wf_instance`: in the graph that it is to them, each action's number stands once, an
//! action waits only for actions of its own graph, no action is its own ancestor by `runAfter`, and the numbers are those below the count
//! of actions. What the types of `wf_def` don't say of numbers and depths is said here too: how many iterations a loop has at most, how
//! often a request is sent again, and how deep graphs stand in one another.
//!
//! It has no code. Each public function has an empty body but for the laws that it calls, and its contract is a law; what of each graph
//! holds in a definition, at any depth, is said by `specs/Each` and `specs/Held`.
#![tactic(auto)]

ghost use Rattle.std.specs.Prelude.{◌≡◌, ◌≤◌, ℕ, Bool, List, Some, codes, false, length, nat_eq, pos, true};
ghost use Rattle.std.specs.List.{list_any};
ghost use Rattle.wf_reading.specs.ActionTree.{ActionTrees};
ghost use Rattle.wf_reading.specs.DefTree.{DefTree};
ghost use Rattle.wf_reading.specs.Layered.{layered};
ghost use Rattle.wf_reading.specs.Names.{graph_names};
ghost use Rattle.wf_reading.specs.Containers.{is_concurrency, is_turns, limit, repetitions};
ghost use Rattle.wf_known_laws.specs.Each.{EachGraph};
ghost use Rattle.wf_known_laws.specs.Held.{AreInRange, EntriesAreNumbered, levels};
ghost use Rattle.wf_reading.specs.Definition.{Closed, IsDepth, has};
ghost use Rattle.wf_reading.specs.Seen.{Once};
ghost use Rattle.wf_order.specs.Order.{IsBelow};
ghost use Rattle.wf_reading.specs.Facts.{HasDepths, graph_numbers};
ghost use Rattle.wf_reading.specs.Graphs.{count_of, has_option, repetitions_of};
ghost use Rattle.wf_reading.specs.Read.{IsRead};
ghost use Rattle.wf_val.specs.ValueTree.{ValueTree, number};

pub use wf_order::{
    accesses_are_in_order, before_is_an_order, no_loop_is_round_two, order_is_exact,
    what_a_container_sees_is_seen_inside, what_is_before_is_seen, what_stands_inside_goes_along,
};
pub use wf_reading::{Def, loops_may_turn, names_stand_once, numbers_are_places};

/// The graph of a definition has the numbers of all its actions, at any depth, and no other.
pub fn numbers_are_had()
    ensures { (graph : ActionTrees) (m : ℕ) → has (layered graph) m ≡ list_any (nat_eq m) (graph_numbers graph) }
{}

/// An action's number stands once.
pub fn numbers_stand_once()
    ensures { (d : DefTree) → IsRead d → Once (layered d.top) }
{
    wf_reading::names_stand_once();
    wf_reading::numbers_are_places();
}

/// The numbers of the actions are less than their count.
pub fn numbers_are_below()
    ensures { (d : DefTree) → IsRead d → IsBelow (length (graph_names d.top)) (layered d.top) }
{
    wf_reading::numbers_are_places();
}

/// In each graph of a definition, at any depth, an entry of a `runAfter` names an action of the same graph, and the actions have depths, by
/// their names, that fall along every entry.
pub fn each_graph_has_depths()
    ensures { (d : DefTree) → IsRead d → EachGraph HasDepths d.top }
{
    wf_paths::paths_are_exact();
    wf_reading::the_first_fault();
}

/// In each graph of a definition an entry of a `runAfter` has the number of the action that it names.
pub fn entries_are_numbered()
    ensures { (d : DefTree) → IsRead d → EachGraph EntriesAreNumbered d.top }
{
    wf_paths::paths_are_exact();
    wf_reading::the_first_fault();
}

/// So an action waits only for actions of its own graph.
pub fn entries_stay_in_their_graph()
    ensures { (d : DefTree) → IsRead d → Closed (layered d.top) (layered d.top) }
{
    wf_paths::paths_are_exact();
    wf_reading::the_first_fault();
    numbers_stand_once();
}

/// And all actions of the definition have depths, by their numbers, that fall along every entry: no action is its own ancestor.
pub fn actions_have_depths()
    ensures { (d : DefTree) → IsRead d → (depth : ℕ → ℕ) × IsDepth (layered d.top) depth }
{
    wf_paths::paths_are_exact();
    wf_reading::the_first_fault();
    numbers_stand_once();
}

/// Actions stand at most 8 levels deep.
pub fn levels_are_few()
    ensures { (d : DefTree) → IsRead d → levels d.top ≤ 8 }
{
    wf_reading::the_first_fault();
}

/// The numbers of each action have their ranges, at any depth.
pub fn numbers_have_their_ranges()
    ensures { (d : DefTree) → IsRead d → EachGraph AreInRange d.top }
{
    wf_reading::the_first_fault();
}

/// The number of repetitions that the rules on forms accept is the one that is read, where iterations don't go in turn: the two have the
/// same limits.
pub fn accepted_repetitions_are_read()
    ensures { (t v : ValueTree) → has_option (codes "Sequential") t ≡ false → repetitions t ≡ Some v → is_concurrency v ≡ true
        → number (pos (repetitions_of t)) ≡ v }
{}

/// And so is the number of an Until's turns.
pub fn accepted_turns_are_read()
    ensures { (t v : ValueTree) → limit (codes "count") t ≡ Some v → is_turns v ≡ true → number (pos (count_of t)) ≡ v }
{}
