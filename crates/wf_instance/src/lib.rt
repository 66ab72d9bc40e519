//! Each accepted definition is an instance of the laws of order, so its meaning doesn't depend on the order in which its events come.
//!
//! The laws of `wf_layers` ask of a definition that each answer of its source is local: what an action starts with, what a container
//! decides, what a test gives, which row an action ends with, and whether it is halted are told by the rows that the instance sees, the row
//! of a container by those inside it as well. Here that is shown of the source of `wf_meant`, field by field, from what the rules promise
//! of a definition that breaks none (`wf_accepted_laws`), what `wf_done` and `wf_opening` promise of looks that tell the same, and what is
//! seen through loops (`wf_loops`).
//!
//! It has no code: each public function has an empty body but for the laws that it calls, and its contract is a law.
#![tactic(auto)]

ghost use Rattle.std.specs.Prelude.{◌≡◌, None};
ghost use Rattle.wf_layers.specs.Definition.{IsDepth};
ghost use Rattle.wf_layers.specs.Laws.{IsInstance};
ghost use Rattle.wf_meant.specs.DefTree.{DefTree};
ghost use Rattle.wf_accepted_laws.specs.Read.{IsRead};
ghost use Rattle.wf_accepted_laws.specs.Broken.{broken_of};
ghost use Rattle.wf_meant.specs.Environment.{Environment};
ghost use Rattle.wf_meant.specs.Points.{graph_of};
ghost use Rattle.wf_meant.specs.Record.{depth_of};
ghost use Rattle.wf_meant.specs.Source.{source};

pub use wf_accepted_laws::{
    Checked, entries_stay_in_their_graph, numbers_are_below, numbers_are_had, numbers_stand_once,
    standings_are_the_actions, the_first_broken_rule, variables_are_in_one_order,
};
pub use wf_meant::{
    a_record_is_of_the_table, names_are_those_named, read_actions_have_their_numbers,
    what_a_container_decides_is_local, what_an_action_does_is_local, what_is_given_is_found,
    what_is_initialized_is_given,
};

/// How many actions are before an action falls along every entry of a `runAfter`.
pub fn depths_are_how_many_are_before()
    ensures { (d : DefTree) → IsRead d → IsDepth (graph_of d) (depth_of d) }
{
    wf_accepted_laws::order_is_exact();
    wf_accepted_laws::before_is_an_order();
    wf_accepted_laws::actions_have_depths();
    wf_accepted_laws::numbers_stand_once();
    wf_accepted_laws::numbers_are_below();
    wf_accepted_laws::entries_stay_in_their_graph();
}

/// A definition that was read and breaks no rule on names is an instance of the laws of order, in every environment.
pub fn a_definition_is_an_instance()
    ensures { (d : DefTree) → IsRead d → broken_of d ≡ None → (e : Environment)
        → IsInstance (graph_of d) (source d e) (depth_of d) }
{
    wf_meant::what_an_action_does_is_local();
    wf_meant::what_a_container_decides_is_local();
    wf_accepted_laws::order_is_exact();
    wf_accepted_laws::before_is_an_order();
    wf_accepted_laws::what_is_before_is_seen();
    wf_accepted_laws::what_a_container_sees_is_seen_inside();
    wf_meant::names_are_those_named();
    wf_accepted_laws::loops_may_turn();
    wf_meant::read_actions_have_their_numbers();
    wf_accepted_laws::actions_have_depths();
    wf_accepted_laws::numbers_stand_once();
    wf_accepted_laws::numbers_are_below();
    wf_accepted_laws::entries_stay_in_their_graph();
    wf_accepted_laws::standings_are_the_actions();
    wf_accepted_laws::what_is_named_is_seen();
    wf_accepted_laws::what_an_until_contains_is_in_its_iterations();
    wf_accepted_laws::ends_stand_in_no_loop();
}
