//! What is done by last writers is what the definition means.
//!
//! A run keeps of each variable who wrote it last, by the variable's number, and a sight (`wf_sight`) tells the value that this row gave.
//! The definition (`wf_meant`) finds the value among all writers that a point sees. Here stands that these are the same in each accepted
//! definition: `specs/Writes` says which numbers a row writes, so that an engine can tell by a row's status alone what to overwrite;
//! `specs/Variables` that writers are in one order by these numbers, that who reads or writes a variable may read it, and that the last
//! writer in the store gave the value which is meant. So whatever an action does in what it sees is what the definition means
//! (`specs/Done`): what it starts with, what a container decides, what an Until's test gives, and its tracked properties, which read no
//! variable.
//!
//! It holds of any source by which the definition answers and whose rows are whole and give what they write (`wf_meant_laws`), so of a run
//! of its own, as is shown here first, and of one that keeps rows of an older run.
//!
//! It has no code: each public function has an empty body but for the laws that it calls, and its contract is a law.
#![tactic(auto)]

ghost use Rattle.std.specs.Prelude.{◌≡◌, ℕ, None};
ghost use Rattle.wf_layers.specs.Address.{Table};
ghost use Rattle.wf_layers.specs.Variables.{OneOrder};
ghost use Rattle.wf_def.specs.DefTree.{DefTree};
ghost use Rattle.wf_meant_laws.specs.Read.{IsRead};
ghost use Rattle.wf_record.specs.Record.{Row};
ghost use Rattle.wf_meant_laws.specs.Broken.{broken_of};
ghost use Rattle.wf_meant_laws.specs.Environment.{Environment};
ghost use Rattle.wf_meant_laws.specs.Answering.{AnswersAs, RowSource};
ghost use Rattle.wf_meant_laws.specs.Points.{graph_of};
ghost use Rattle.wf_meant_laws.specs.Source.{source};
ghost use Rattle.wf_meant_laws.specs.Answered.{GiveWhatTheyWrite, IsAnswered};
ghost use Rattle.wf_meant_laws.specs.Tables.{AreWhole, StandAtInstances};
ghost use Rattle.wf_asks.specs.Known.{writer};
ghost use Rattle.wf_sight_laws.specs.Asked.{FindsAsItEnds, FindsAsItIsTested, FindsAsItOpens, FindsAsItStarts};
ghost use Rattle.wf_sight_laws.specs.Done.{Decides, OutputsSee, Starts, Tests, Tracks};
ghost use Rattle.wf_sight_laws.specs.Variables.{AccessesMayRead, IsTold, IsToldInTest, WriteWhatTheyGive};
ghost use Rattle.wf_sight_laws.specs.Writes.{writes};

pub use wf_meant_laws::{
    Checked, a_definition_is_an_instance, depths_are_how_many_are_before,
    listed_rows_stand_for_the_table,
};
pub use wf_sight::{Places, Run, Sight, kind_of, name_of, number_of};

/// A run of its own is by a source of which all this holds: the rows that an accepted definition means are whole, and give what they write.
pub fn a_definition_is_answered()
    ensures { (d : DefTree) → IsRead d → broken_of d ≡ None → (e : Environment) → IsAnswered d e (source d e) }
{
    wf_meant_laws::meant_rows_are_whole();
    wf_meant_laws::a_definition_is_an_instance();
    wf_meant_laws::new_rows_give_what_they_write();
}

/// Rows that are whole, and of which those that Succeeded gave what their actions write, give a variable a value exactly where they write
/// its number.
pub fn rows_write_what_they_give()
    ensures { (d : DefTree) (rows : Table Row) → AreWhole d rows → GiveWhatTheyWrite d rows → WriteWhatTheyGive d rows }
{}

/// Writers of one number are in one order, whatever rows there are, and whatever reads or writes a variable may read its number: each that
/// writes it, at whatever address, is in it, in one order with it, or excludes it.
pub fn numbered_writers_are_in_one_order()
    ensures writers { (d : DefTree) → IsRead d → broken_of d ≡ None → (e : Environment) (m : RowSource) → AnswersAs d e m
        → (rows : Table Row) → StandAtInstances d rows → (v : ℕ) → OneOrder (graph_of d) m (writer (writes d) v) rows }
    ensures readers { (d : DefTree) → IsRead d → broken_of d ≡ None → (m : RowSource) → AccessesMayRead d m }
{
    wf_meant_laws::variables_are_in_one_order();
    wf_meant_laws::numbers_stand_once();
    wf_meant_laws::names_are_those_named();
}

/// Where what is known is what the machine promises, a sight tells of each variable that an action reads or writes the value that is meant.
pub fn sights_tell_variables()
    ensures at { (d : DefTree) → IsRead d → broken_of d ≡ None → (e : Environment) (m : RowSource) → IsAnswered d e m → IsTold d m }
    ensures in_test { (d : DefTree) → IsRead d → broken_of d ≡ None → (e : Environment) (m : RowSource) → IsAnswered d e m
        → IsToldInTest d m }
{
    wf_meant_laws::the_last_writer_is_read();
    wf_meant_laws::numbers_stand_once();
    rows_write_what_they_give();
    numbered_writers_are_in_one_order();
}

/// So of all variables that an action asks for as it starts, opens, is tested or ends, what is found is what the definition tells it.
pub fn what_is_asked_for_is_found()
    ensures starts { (d : DefTree) → IsRead d → broken_of d ≡ None → (e : Environment) (m : RowSource) → IsAnswered d e m
        → FindsAsItStarts d e m }
    ensures opens { (d : DefTree) → IsRead d → broken_of d ≡ None → (e : Environment) (m : RowSource) → IsAnswered d e m
        → FindsAsItOpens d e m }
    ensures tested { (d : DefTree) → IsRead d → broken_of d ≡ None → (e : Environment) (m : RowSource) → IsAnswered d e m
        → FindsAsItIsTested d e m }
    ensures ends { (d : DefTree) → IsRead d → broken_of d ≡ None → FindsAsItEnds d }
{
    sights_tell_variables();
    wf_meant_laws::the_first_broken_rule();
    wf_meant_laws::standings_are_the_actions();
    wf_meant_laws::names_are_those_named();
}

/// And what an action does in what it sees is what the definition means.
pub fn what_is_done_in_a_sight_is_meant()
    ensures starts { (d : DefTree) → IsRead d → broken_of d ≡ None → (e : Environment) (m : RowSource) → IsAnswered d e m → Starts d e m }
    ensures decides { (d : DefTree) → IsRead d → broken_of d ≡ None → (e : Environment) (m : RowSource) → IsAnswered d e m
        → Decides d e m }
    ensures tests { (d : DefTree) → IsRead d → broken_of d ≡ None → (e : Environment) (m : RowSource) → IsAnswered d e m → Tests d e m }
    ensures tracks { (d : DefTree) → IsRead d → broken_of d ≡ None → (e : Environment) (m : RowSource) → AnswersAs d e m → Tracks d e m }
{
    sights_tell_variables();
    wf_meant_laws::the_first_broken_rule();
    wf_meant_laws::standings_are_the_actions();
    wf_sight::what_is_seen_is_told();
    wf_meant_laws::what_an_action_does_is_local();
    wf_meant_laws::what_a_container_decides_is_local();
    wf_meant_laws::numbers_stand_once();
    wf_meant_laws::names_are_those_named();
}

/// And once all rows are there, the section `outputs` sees by the last writers of all what it is told.
pub fn outputs_see_the_last_writers()
    ensures { (d : DefTree) → IsRead d → broken_of d ≡ None → (e : Environment) (m : RowSource) → IsAnswered d e m
        → OutputsSee d e m }
{
    rows_write_what_they_give();
    wf_sight::what_is_seen_is_told();
    wf_seen_laws::what_is_seen_is_earlier();
    wf_seen_laws::loops_round_what_is_seen_are_seen();
    wf_seen_laws::nobody_sees_who_sees_him();
    wf_loops::what_is_earlier_is_seen();
    wf_meant_laws::depths_are_how_many_are_before();
    wf_order::order_is_exact();
    wf_order::before_is_an_order();
    wf_order::what_stands_inside_goes_along();
    wf_meant_laws::numbers_stand_once();
    wf_meant_laws::numbers_are_below();
    wf_meant_laws::entries_stay_in_their_graph();
    wf_meant_laws::read_actions_have_their_numbers();
}
