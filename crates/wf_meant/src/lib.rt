//! What every definition means, whatever kinds of action it has: the record that a run of it leaves.
//!
//! A definition is the tree of `wf_def` here, with all that nests in it. Its meaning is an instance of the layered meaning of `wf_layers`,
//! whose source `specs/Source` gives: what each action comes to in the rows that are known. What an action does that holds no others is
//! said by `wf_done`, what containers decide by `wf_opening`; here stands what each point of a definition looks at. `specs/Points` says
//! where points stand and which instances are earlier, `specs/References` which instances a reference means and what it is given,
//! `specs/Variables` which writer of a variable was the last, `specs/Look` all that is told. `specs/Status` says how a graph ends,
//! `specs/Containers` which rows containers end with, and `specs/Record` reads the record of `wf_record` off the table of rows: the run's
//! status and error, its response, the section `outputs`, and the rows in the order of their addresses.
//! `specs/Resubmitted` says what a resubmission of such a record means, and `specs/Answering` what a source is by which a definition
//! answers, whatever rows it keeps of an older run.
//!
//! The environment of a run, the section `outputs` and how a run ends without a Terminate are those of `wf_environment`. The runs that the
//! program makes leave these records (`wf_run`).
//!
//! It has no code: each public function does nothing, and its contract is a law. Worked definitions of every kind, with the records that
//! they mean, stand in `proofs/`.
#![tactic(auto)]

ghost use Rattle.std.specs.Prelude.{◌≡◌};
ghost use Rattle.wf_refs.specs.DefTree.{DefTree};
ghost use Rattle.wf_environment.specs.Environment.{Environment};
ghost use Rattle.wf_meant.specs.Record.{depth_of, meaning, record_of_table, rows_of};
ghost use Rattle.wf_meant.specs.Source.{table_of};

pub use wf_done::{
    Begun, Done, begin, ended_by, skipped, the_last_attempt_is_the_least, tracked, value_given,
    view, what_an_action_does_is_local, what_is_given_is_found, what_is_initialized_is_given,
    what_is_written_keeps_its_type, what_ran_is_not_skipped,
};
pub use wf_environment::{Start, TriggerFault};
pub use wf_refs::{Look, names_are_those_named, read_actions_have_their_numbers, word_of};
pub use wf_says::{
    Decision, Verdict, a_skipped_row_says_nothing, branch_said, fits, is_skipped, items_said, open,
    rounds_said, taken, test, what_a_container_decides_is_local,
};

/// A definition means the record of its table, whose depths are how many actions are before an action; the record has the rows of the
/// table.
pub fn a_record_is_of_the_table()
    ensures record { (d : DefTree) (e : Environment) → meaning d e ≡ record_of_table d e (table_of d e (depth_of d)) }
    ensures rows { (d : DefTree) (e : Environment) → (meaning d e).rows ≡ rows_of d (table_of d e (depth_of d)) }
{}
