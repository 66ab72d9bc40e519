//! What the runs of a definition cost: what its meaning costs, whatever the schedule.
//!
//! The record that a definition means costs what its run was started with, its outputs, and its rows (`wf_record`). A run keeps no rows of
//! what isn't finished: of a running leaf its inputs and its attempts so far, of an open container what it decided by and its iterations so
//! far. Here that is shown to be paid by the rows that these come to, by kind of action: the row of a connector keeps all of its attempts
//! and its inputs, that of a container what it decided by and its iterations; and where a container is closed again, with what its old row
//! says that it decided, the new row keeps that. So the law of `wf_priced` holds of each source by which a definition answers: no state of
//! a run costs more than the rows that it means, and one that is over costs exactly as much. Whoever bounds what a definition or a
//! resubmission means to cost has bounded each moment of its runs.
//!
//! It has no code: each public function has an empty body but for the laws that it calls, and its contract is a law.
#![tactic(auto)]

ghost use Rattle.std.specs.Prelude.{◌+◌, ◌≡◌, ℕ, List, None};
ghost use Rattle.wf_val.specs.ValueTree.{weight};
ghost use Rattle.wf_layers.specs.Address.{Table};
ghost use Rattle.wf_layers.specs.Listed.{sum_of};
ghost use Rattle.wf_answers.specs.Inputs.{InputsTree};
ghost use Rattle.wf_def.specs.DefTree.{DefTree};
ghost use Rattle.wf_doing.specs.Weights.{begun_weight, decision_weight};
ghost use Rattle.wf_turns.specs.DoneSeen.{begun_tree};
ghost use Rattle.wf_turns.specs.Environment.{Environment};
ghost use Rattle.wf_making.specs.Priced.{IsPriced};
ghost use Rattle.wf_turns.specs.Answering.{AnswersAs, RowSource, table_by};
ghost use Rattle.wf_turns.specs.Points.{graph_of};
ghost use Rattle.wf_turns.specs.Record.{depth_of, meaning, record_of_table};
ghost use Rattle.wf_turns.specs.Resubmitted.{pinned, pinned_table, resubmitted};
ghost use Rattle.wf_turns.specs.Source.{table_of};
ghost use Rattle.wf_meant_laws.specs.Answered.{IsAnswered};
ghost use Rattle.wf_meant_laws.specs.Listed.{Entry};
ghost use Rattle.wf_meant_laws.specs.Tables.{AreWhole};
ghost use Rattle.wf_turns.specs.DecisionSeen.{decision_tree, verdict_tree};
ghost use Rattle.wf_priced.specs.Priced.{PaysItsParts, TellsRows};
ghost use Rattle.wf_turns.specs.Read.{IsRead};
ghost use Rattle.wf_record.specs.Cost.{cost};
ghost use Rattle.wf_record.specs.Record.{RecordTree, Row};
ghost use Rattle.wf_meant_laws.specs.Broken.{broken_of};
ghost use Rattle.wf_doing.specs.ViewsSeen.{row_content};
ghost use Rattle.wf_paying.specs.Paying.{cost_of_row, first_cost, rows_meant};

pub use wf_doing::{
    Inside, Setting, begun_weight, close, containers_are_judged, decide, decision_weight, finish,
    halts, makes_another, skipped, start, terminates, terminates_halt, test_until,
    what_is_done_is_the_source,
};
pub use wf_making::{Making, Pays, Rest, Spare, Tells};
pub use wf_meant_laws::{a_definition_is_an_instance, meant_rows_are_whole};
pub use wf_turns::{a_row_costs_its_turns, attempts_are_answered, rows_tell_their_turns};

/// The row of a leaf that ran costs at least 64 for the leaf and for each of its attempts, and the weight of the inputs that the run kept
/// of it. That of a container costs at least 64 for it and for each of its iterations, and the weight of what it decided by. It holds
/// whatever rows are known, and by whatever source the definition answers.
pub fn rows_pay_their_parts()
    ensures { (d : DefTree) → IsRead d → (e : Environment) (m : RowSource) → AnswersAs d e m → (f : Table Row)
        → PaysItsParts m (graph_of d) f cost_of_row begun_weight decision_weight }
{
    wf_turns::rows_tell_their_turns();
    wf_connect::the_last_attempt_is_the_least();
}

/// Rows that are whole are told by one list, whose costs are those of the record's rows.
pub fn the_record_tells_what_rows_cost()
    ensures { (d : DefTree) → IsRead d → (f : Table Row) → AreWhole d f → (entries : List Entry)
        × TellsRows (λ (x : Entry). x.0) (λ (x : Entry). x.1) f entries
        × (rows_meant d f ≡ sum_of (λ (x : Entry). cost_of_row x.1) entries) }
{
    wf_meant_laws::listed_rows_stand_for_the_table();
}

/// No state of a run costs more than the rows that its definition means, and one in which nothing may happen any more costs as much: by
/// whatever source, so that it holds of a run that keeps rows of an older one, too.
pub fn runs_cost_what_rows_are_meant()
    ensures { (d : DefTree) → IsRead d → broken_of d ≡ None → (e : Environment) (m : RowSource) → IsAnswered d e m
        → IsPriced row_content begun_tree decision_tree verdict_tree (graph_of d) (depth_of d) m cost_of_row begun_weight decision_weight
        (rows_meant d (table_by d m)) }
{
    wf_meant_laws::a_definition_is_an_instance();
    rows_pay_their_parts();
    the_record_tells_what_rows_cost();
}

/// The record of a run whose actions have these rows costs what the run costs before its first event, its outputs and its rows.
pub fn a_record_costs_its_rows()
    ensures { (d : DefTree) (e : Environment) (known : Table Row)
        → cost (record_of_table d e known) ≡ first_cost e.start + weight (record_of_table d e known).outputs + rows_meant d known }
{}

/// So does the record that a definition means.
pub fn a_meaning_costs_its_rows()
    ensures { (d : DefTree) → (e : Environment)
        → cost (meaning d e) ≡ first_cost e.start + weight (meaning d e).outputs + rows_meant d (table_of d e (depth_of d)) }
{}

/// And that of a resubmission.
pub fn a_resubmission_costs_its_rows()
    ensures { (d : DefTree) (r : RecordTree) (i : InputsTree) (from : List ℕ)
        → cost (pinned d r i from)
        ≡ first_cost (resubmitted r i).start + weight (pinned d r i from).outputs + rows_meant d (pinned_table d r i from) }
{}
