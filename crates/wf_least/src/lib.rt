//! What a run costs at least, by its definition alone.
//!
//! Whatever its actions come to, a run leaves a row of each action of the graph at the top, also of those that didn't run. So what a run
//! costs at least is told before it is made, and with it that many runs cost too much together.
//!
//! It has no code: each public function has an empty body but for the laws that it calls, and its contract is a law.
#![tactic(auto)]

ghost use Rattle.std.specs.Prelude.{◌≡◌, ◌≤◌, None};
ghost use Rattle.wf_meant_laws.specs.Broken.{broken_of};
ghost use Rattle.wf_def.specs.DefTree.{DefTree};
ghost use Rattle.wf_meant_laws.specs.Environment.{Environment};
ghost use Rattle.wf_least.specs.Least.{EachHasARow, least_cost};
ghost use Rattle.wf_meant_laws.specs.Record.{depth_of, meaning};
ghost use Rattle.wf_meant_laws.specs.Source.{table_of};
ghost use Rattle.wf_meant_laws.specs.Read.{IsRead};
ghost use Rattle.wf_record.specs.Cost.{cost};

/// A run of an accepted definition leaves a row of each action of the graph at the top.
pub fn a_run_leaves_a_row_of_each_action()
    ensures { (d : DefTree) → IsRead d → broken_of d ≡ None → (e : Environment) → EachHasARow d (table_of d e (depth_of d)) }
{
    wf_meant_laws::a_definition_is_an_instance();
}

/// So it costs at least as much as these rows.
pub fn a_run_costs_at_least_so_much()
    ensures { (d : DefTree) → IsRead d → broken_of d ≡ None → (e : Environment) → least_cost d ≤ cost (meaning d e) }
{
    wf_meant_laws::numbers_stand_once();
    wf_meant_laws::numbers_are_below();
    wf_meant_laws::a_record_is_of_the_table();
    a_run_leaves_a_row_of_each_action();
}
