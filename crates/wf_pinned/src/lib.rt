//! By what a resubmission goes: a source that keeps rows of an older run.
//!
//! The laws of `wf_meant_laws` and of those above it hold of each source by which a definition answers in an environment, whose rows are
//! whole and give what they write. That of a run of its own keeps nothing. A resubmission (`wf_meant`) keeps the rows of an older run that
//! it doesn't redo, and what it closes again decides what the older run's row says. Here it is shown that it answers as well, whoever wrote
//! the older run's rows: all that is asked of them stands in `specs/Old`.
//!
//! It has no code: each public function has an empty body but for the laws that it calls, and its contract is a law.
#![tactic(auto)]

ghost use Rattle.std.specs.Prelude.{◌≡◌, ℕ, List, None, true};
ghost use Rattle.wf_answers.specs.Inputs.{InputsTree};
ghost use Rattle.wf_def.specs.DefTree.{DefTree};
ghost use Rattle.wf_layers.specs.Address.{Address};
ghost use Rattle.wf_meant_laws.specs.Resubmitted.{pinned_source, pinned_table, resubmitted, rows_by};
ghost use Rattle.wf_meant_laws.specs.Answered.{IsAnswered};
ghost use Rattle.wf_pinned.specs.Old.{MayGoOn, keeps};
ghost use Rattle.wf_meant_laws.specs.Read.{IsRead};
ghost use Rattle.wf_record.specs.Record.{RecordTree};
ghost use Rattle.wf_meant_laws.specs.Broken.{broken_of};

pub use wf_meant_laws::{
    Checked, listed_rows_stand_for_the_table, meant_rows_are_whole, the_first_broken_rule,
};

/// A resubmission keeps the older run's rows as they are.
pub fn kept_rows_are_the_records()
    ensures { (d : DefTree) → IsRead d → broken_of d ≡ None → (r : RecordTree) (i : InputsTree) (from : List ℕ) → MayGoOn d r i from
        → (x : Address) → keeps d from x.name ≡ true → pinned_table d r i from x ≡ rows_by d r.rows x }
{
    wf_meant_laws::a_definition_is_an_instance();
}

/// And it goes by a source by which the definition answers with the new inputs; all its rows, kept and new ones, are whole and give what
/// they write.
pub fn a_resubmission_is_answered()
    ensures { (d : DefTree) → IsRead d → broken_of d ≡ None → (r : RecordTree) (i : InputsTree) (from : List ℕ) → MayGoOn d r i from
        → IsAnswered d (resubmitted r i) (pinned_source d r i from) }
{
    wf_meant_laws::a_definition_is_an_instance();
    wf_meant_laws::numbers_stand_once();
    wf_meant_laws::numbers_are_had();
    wf_meant_laws::new_rows_give_what_they_write();
}
