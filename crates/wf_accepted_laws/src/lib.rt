//! What is known of a definition that breaks none of the rules on names.
//!
//! The rules of `wf_rules` are tests on tables. Here stands what they are for, in the words of the order of actions (`wf_order`): in a
//! definition that was read and breaks none of them, each action that an expression names is there, and is before the action of the
//! expression, or inside the Until whose expression names it. So a run has its row as the expression is evaluated, and sees it at every
//! address; it has each item and index that is asked for; and it knows which iteration of each loop is meant, but of one that a reference
//! may leave. Accesses of a variable with a writer among them, a Terminate and all else, and Responses are in one order at all their
//! addresses, or exclude each other.
//!
//! It has no code. Each public function has an empty body but for the laws that it calls, and its contract is a law.
#![tactic(auto)]

ghost use Rattle.std.specs.Prelude.{◌≡◌, ℕ, true, List, Some, None, map};
ghost use Rattle.std.specs.List.{AllByRecursion};
ghost use Rattle.wf_accepted_laws.specs.Instances.{InstancesAreSeen};
ghost use Rattle.wf_accepted_laws.specs.Loops.{AllAskLoopsRound, AllLeaveFew};
ghost use Rattle.wf_accepted_laws.specs.Ends.{EndsAreInOrder, EndsStandInNoLoop, ResponsesAreInOneOrder};
ghost use Rattle.wf_accepted_laws.specs.Seen.{AreSeen};
ghost use Rattle.wf_accepted_laws.specs.Variables.{VariablesAreInOneOrder};
ghost use Rattle.wf_known_laws.specs.ActionTree.{ActionTrees, action_number};
ghost use Rattle.wf_known_laws.specs.DefTree.{DefTree};
ghost use Rattle.wf_known_laws.specs.Layered.{layered};
ghost use Rattle.wf_layers.specs.Address.{address, is_within, starts};
ghost use Rattle.wf_layers.specs.Definition.{Graph, Kind, Until, holds, kind_of};
ghost use Rattle.wf_layers.specs.Seen.{Once};
ghost use Rattle.wf_known_laws.specs.Order.{Contains, around};
ghost use Rattle.wf_known_laws.specs.Read.{IsRead};
ghost use Rattle.wf_known_laws.specs.AllActions.{all_actions};
ghost use Rattle.wf_rules.specs.Broken.{broken_of};
ghost use Rattle.wf_rules.specs.Standing.{number_at, standings_of};

pub use wf_known_laws::{
    actions_have_depths, before_is_an_order, entries_stay_in_their_graph, loops_may_turn,
    numbers_are_below, numbers_are_had, numbers_stand_once, order_is_exact,
    what_a_container_sees_is_seen_inside, what_is_before_is_seen,
};
pub use wf_rules::{Checked, the_first_broken_rule};

/// The rules look at all actions of a graph, at any depth, and at no others.
pub fn standings_are_the_actions()
    ensures { (graph : ActionTrees) → map (λ s. s.action) (standings_of graph) ≡ all_actions graph }
{}

/// The containers that they have round an action, by their numbers, are those of the order of actions, outermost first, where each number
/// stands once.
pub fn containers_are_those_of_the_order()
    ensures { (graph : ActionTrees) → Once (layered graph)
        → AllByRecursion (λ s. map action_number s.round ≡ around (layered graph) (number_at s)) (standings_of graph) }
{}

/// Each action that an expression of an action names is before that action, or stands inside the Until whose expression names it.
pub fn references_are_seen()
    ensures { (d : DefTree) → IsRead d → broken_of d ≡ None → AreSeen d }
{
    wf_rules::the_first_broken_rule();
    wf_known_laws::order_is_exact();
    wf_known_laws::numbers_are_had();
    wf_known_laws::numbers_are_below();
    wf_known_laws::entries_stay_in_their_graph();
}

/// So the instance in which an expression is evaluated sees each row that the expression asks for, at every address: those of the action
/// that it names, and of what stands inside that, with the same indexes in the loops round both. Only the expression of an Until looks at
/// more, the rows of the Until's own iterations.
pub fn what_is_named_is_seen()
    ensures { (d : DefTree) → IsRead d → broken_of d ≡ None → InstancesAreSeen d }
{
    references_are_seen();
    wf_known_laws::what_is_before_is_seen();
    wf_known_laws::what_stands_inside_goes_along();
    wf_known_laws::numbers_stand_once();
    wf_known_laws::entries_stay_in_their_graph();
}

/// What a container contains stands in the graphs of its kind. So what the expression of an Until names inside that Until stands in its
/// iterations, at each address that begins with the indexes of one: these are the rows that a test may look at, beside those that it sees.
pub fn what_an_until_contains_is_in_its_iterations()
    ensures held { (g : Graph) → Once g → (n x : ℕ) (kind : Kind) → kind_of g n ≡ Some kind → Contains g n x → holds kind x ≡ true }
    ensures iterations { (g : Graph) → Once g → (n x most : ℕ) (h : Graph) → kind_of g n ≡ Some (Until most h) → Contains g n x
        → (i j : List ℕ) → starts i j ≡ true → is_within h i (address x j) ≡ true }
{}

/// `items` names a Foreach round the place where it stands, `iterationIndexes` an Until round it, and `item` stands in a Foreach or is the
/// item of a Select or a Query: so a run has the item and the index.
pub fn loops_asked_of_are_round()
    ensures { (d : DefTree) → IsRead d → broken_of d ≡ None → AllAskLoopsRound d }
{
    wf_rules::the_first_broken_rule();
    wf_known_laws::numbers_stand_once();
    containers_are_those_of_the_order();
}

/// Of the loops round an action that is named, all but one at most are round the place where the name stands; and all are, where `result`
/// names a loop. So a run knows which iteration of each loop but one is meant.
pub fn references_leave_few_loops()
    ensures { (d : DefTree) → IsRead d → broken_of d ≡ None → AllLeaveFew d }
{
    wf_rules::the_first_broken_rule();
    wf_known_laws::numbers_stand_once();
    containers_are_those_of_the_order();
}

/// Two writers of a variable are in one order at all their addresses, or exclude each other; and each writer is in what reads the variable,
/// in one order with it, or excludes it. That is what the laws of a variable's store ask of writers and readers.
pub fn variables_are_in_one_order()
    ensures { (d : DefTree) → IsRead d → broken_of d ≡ None → VariablesAreInOneOrder d }
{
    wf_rules::the_first_broken_rule();
    wf_rules::no_pair_is_in_order();
    wf_known_laws::accesses_are_in_order();
    wf_known_laws::numbers_are_had();
    wf_known_laws::numbers_are_below();
    wf_known_laws::numbers_stand_once();
    wf_known_laws::entries_stay_in_their_graph();
}

/// No loop is round a Terminate or a Response: each has one instance, which all that comes after it sees.
pub fn ends_stand_in_no_loop()
    ensures { (d : DefTree) → IsRead d → broken_of d ≡ None → EndsStandInNoLoop d }
{
    wf_rules::the_first_broken_rule();
    wf_known_laws::no_loop_is_round_two();
    wf_known_laws::numbers_stand_once();
}

/// A Terminate is in each instance of an action, in one order with it, or excludes it: nothing is under way beside it as it ends the run.
pub fn ends_are_in_order()
    ensures { (d : DefTree) → IsRead d → broken_of d ≡ None → EndsAreInOrder d }
{
    wf_rules::the_first_broken_rule();
    wf_rules::no_pair_is_in_order();
    wf_known_laws::accesses_are_in_order();
    wf_known_laws::no_loop_is_round_two();
    wf_known_laws::numbers_are_had();
    wf_known_laws::numbers_are_below();
    wf_known_laws::numbers_stand_once();
    wf_known_laws::entries_stay_in_their_graph();
}

/// Two Responses are in one order, or exclude each other: which of them answers doesn't depend on the order of events.
pub fn responses_are_in_order()
    ensures { (d : DefTree) → IsRead d → broken_of d ≡ None → ResponsesAreInOneOrder d }
{
    wf_rules::the_first_broken_rule();
    wf_rules::no_pair_is_in_order();
    wf_known_laws::accesses_are_in_order();
    wf_known_laws::no_loop_is_round_two();
    wf_known_laws::numbers_are_had();
    wf_known_laws::numbers_are_below();
    wf_known_laws::numbers_stand_once();
    wf_known_laws::entries_stay_in_their_graph();
}
