//! What a run keeps in place of its table of rows: the last writer of each variable, and the rows in one list.
//!
//! A definition means a table of rows (`wf_meant`). Its points look for the value of a variable among all writers that they see, of which
//! the last counts; a machine keeps only the writer that was the last to end. Here stands that these are the same, for each accepted
//! definition: writers are in one order with each other and with who reads (`wf_accepted_laws`), so that the laws of a store of `wf_layers`
//! hold of a store that keeps the last writer's address; and whatever that law says to be the last writer which a point sees has given the
//! value that the point finds. `specs/Writers` says what is written, `specs/Last` what is read, `specs/Store` what the store tells as a run
//! goes on.
//!
//! That all writers are found which have a row is a law on tables: rows stand at instances, and the row of each loop tells of all
//! iterations in which there are rows (`specs/Tables`). It holds of the table that a definition means.
//!
//! It has no code: each public function has an empty body but for the laws that it calls, and its contract is a law.
#![tactic(auto)]

ghost use Rattle.std.specs.Prelude.{◌≡◌, ℕ, Bool, List, None};
ghost use Rattle.wf_layers.specs.Address.{Table};
ghost use Rattle.wf_layers.specs.Rule.{Obeys};
ghost use Rattle.wf_layers.specs.Variables.{OneOrder};
ghost use Rattle.wf_seen_laws.specs.Laws.{IsKept};
ghost use Rattle.wf_seen_laws.specs.DefTree.{DefTree};
ghost use Rattle.wf_instance.specs.Read.{IsRead};
ghost use Rattle.wf_record.specs.Record.{Row};
ghost use Rattle.wf_instance.specs.Broken.{broken_of};
ghost use Rattle.wf_instance.specs.Environment.{Environment};
ghost use Rattle.wf_instance.specs.Answering.{AnswersAs, RowSource};
ghost use Rattle.wf_instance.specs.Points.{graph_of};
ghost use Rattle.wf_instance.specs.Record.{depth_of};
ghost use Rattle.wf_instance.specs.Source.{table_of};
ghost use Rattle.wf_meant_laws.specs.Answered.{NewGiveWhatTheyWrite};
ghost use Rattle.wf_meant_laws.specs.Last.{AccessesHaveOrder, LastIsReadAtInstances, LastIsReadAtTests};
ghost use Rattle.wf_meant_laws.specs.Listed.{StandFor};
ghost use Rattle.wf_meant_laws.specs.Store.{StoresTell};
ghost use Rattle.wf_meant_laws.specs.Tables.{AreWhole, StandAtInstances};
ghost use Rattle.wf_meant_laws.specs.Writers.{writes_to};

pub use wf_instance::{
    Checked, a_definition_is_an_instance, a_record_is_of_the_table, depths_are_how_many_are_before,
    entries_stay_in_their_graph, names_are_those_named, numbers_are_below, numbers_are_had,
    numbers_stand_once, read_actions_have_their_numbers, standings_are_the_actions,
    the_first_broken_rule, variables_are_in_one_order, what_a_container_decides_is_local,
    what_an_action_does_is_local,
};

/// The rows that an accepted definition means stand at instances, each in iterations of which the rows of the loops round it tell.
pub fn meant_rows_are_whole()
    ensures { (d : DefTree) → IsRead d → broken_of d ≡ None → (e : Environment) → AreWhole d (table_of d e (depth_of d)) }
{
    wf_instance::a_definition_is_an_instance();
    wf_instance::numbers_stand_once();
    wf_instance::numbers_are_had();
}

/// Writers of a variable are in one order with each other, and each is in what reads or writes the variable, in one order with it, or
/// excludes it: the premises of the laws of a store that keeps the last writer's address.
pub fn writers_are_in_one_order()
    ensures writers { (d : DefTree) → IsRead d → broken_of d ≡ None → (e : Environment) (m : RowSource) → AnswersAs d e m
        → (rows : Table Row) → StandAtInstances d rows → (v : List ℕ) → OneOrder (graph_of d) m (writes_to d v) rows }
    ensures readers { (d : DefTree) → IsRead d → broken_of d ≡ None → (m : RowSource) (rows : Table Row) → StandAtInstances d rows
        → AccessesHaveOrder d m rows }
{
    wf_instance::variables_are_in_one_order();
    wf_instance::numbers_stand_once();
    wf_instance::names_are_those_named();
}

/// The value of a variable at a point is what the last writer that the point sees gave it, or none where it sees no writer.
pub fn the_last_writer_is_read()
    ensures at_instances { (d : DefTree) → IsRead d → broken_of d ≡ None → (m : RowSource) (rows : Table Row) → AreWhole d rows
        → LastIsReadAtInstances d m rows }
    ensures at_tests { (d : DefTree) → IsRead d → broken_of d ≡ None → (m : RowSource) (rows : Table Row) → AreWhole d rows
        → LastIsReadAtTests d m rows }
{
    wf_seen_laws::what_is_seen_is_earlier();
    wf_seen_laws::loops_round_what_is_seen_are_seen();
    wf_seen_laws::nobody_sees_who_sees_him();
    wf_seen_laws::what_is_earlier_is_seen();
    wf_instance::depths_are_how_many_are_before();
    wf_seen_laws::order_is_exact();
    wf_seen_laws::before_is_an_order();
    wf_seen_laws::what_stands_inside_goes_along();
    wf_instance::numbers_stand_once();
    wf_instance::numbers_are_below();
    wf_instance::entries_stay_in_their_graph();
    wf_instance::read_actions_have_their_numbers();
}

/// A record's rows are those of the table that it is read from, each once: in the order of the actions' numbers, and of one action in that
/// of the indexes.
pub fn listed_rows_stand_for_the_table()
    ensures { (d : DefTree) → IsRead d → (rows : Table Row) → AreWhole d rows → StandFor d rows }
{
    wf_instance::numbers_are_below();
}

/// So a store that each writer which ends overwrites with its own address tells the variable, whatever events came: as an action is decided
/// that reads or writes it, while such a leaf runs, and as an Until is tested.
pub fn a_store_of_last_writers_tells_variables()
    ensures { (d : DefTree) → IsRead d → broken_of d ≡ None → (e : Environment) → StoresTell d e }
{
    wf_instance::a_definition_is_an_instance();
    meant_rows_are_whole();
    writers_are_in_one_order();
    the_last_writer_is_read();
}

/// Whatever rows a source keeps of an older run, of those that it doesn't keep an action that Succeeded gave each variable that it writes.
pub fn new_rows_give_what_they_write()
    ensures { (d : DefTree) → IsRead d → (e : Environment) (m : RowSource) → AnswersAs d e m → (redo again : ℕ → Bool)
        → IsKept (graph_of d) m redo again → (rows : Table Row) → Obeys m (graph_of d) rows → NewGiveWhatTheyWrite d redo again rows }
{
    wf_instance::numbers_stand_once();
    wf_instance::what_is_initialized_is_given();
    wf_instance::what_is_given_is_found();
}
