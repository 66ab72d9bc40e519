//! What the rows of a run tell of how it went: how often an action was tried, how many iterations a loop had, which branch was taken.
//!
//! The laws of `wf_layers` bound the events of a run by the cost of what it keeps, where the row of a leaf tells at least its attempts, and
//! that of a loop at least its iterations. Here that is shown of the rows of `wf_meant`, read as the cost of a record reads them
//! (`wf_record`): a row keeps a list of its attempts, a Foreach has the list of its items as inputs, and an Until gives out how often it
//! went round. It holds whatever rows are known, so it doesn't ask that the definition breaks no rule on names.
//!
//! The laws on the shape of records and on resubmission ask that only what is skipped is Skipped, and that the row of a container tells
//! what it decided. Here that is shown of all definitions, their rows read as `wf_says` reads them.
//!
//! It has no code: each public function has an empty body but for the laws that it calls, and its contract is a law.
#![tactic(auto)]

ghost use Rattle.std.specs.Prelude.{◌*◌, ◌+◌, ◌≤◌, ◌≡◌, suc, ℕ, Bool, length, option_map};
ghost use Rattle.wf_known_laws.specs.ActionTree.{ActionTrees, action_kind};
ghost use Rattle.wf_known_laws.specs.AllActions.{numbered};
ghost use Rattle.wf_known_laws.specs.DefTree.{DefTree};
ghost use Rattle.wf_known_laws.specs.Layered.{layered, layered_kind};
ghost use Rattle.wf_meant.specs.Leaf.{BegunTree};
ghost use Rattle.wf_layers.specs.Address.{Address, Table};
ghost use Rattle.wf_layers.specs.Bound.{TellsTurns};
ghost use Rattle.wf_layers.specs.Definition.{kind_of};
ghost use Rattle.wf_layers.specs.Resubmission.{pin};
ghost use Rattle.wf_layers.specs.Shape.{ReadsBack};
ghost use Rattle.wf_meant.specs.Environment.{Environment, facts_of};
ghost use Rattle.wf_meant.specs.Answering.{AnswersAs, RowSource};
ghost use Rattle.wf_meant.specs.Look.{name_of};
ghost use Rattle.wf_meant.specs.Points.{graph_of};
ghost use Rattle.wf_meant.specs.Source.{source};
ghost use Rattle.wf_meant.specs.Decisions.{DecisionTree};
ghost use Rattle.wf_known_laws.specs.Read.{IsRead};
ghost use Rattle.wf_record.specs.Cost.{row_cost};
ghost use Rattle.wf_record.specs.Record.{Row, RowTree};
ghost use Rattle.wf_turns.specs.Reading.{RecallsWithin, reading};
ghost use Rattle.wf_turns.specs.Turns.{turns};

pub use wf_known_laws::{
    Def, entries_stay_in_their_graph, names_stand_once, numbers_are_below, numbers_are_had,
    numbers_stand_once,
};
pub use wf_meant::{branch_said, read_actions_have_their_numbers};

/// Which kind a number has in the graph of a definition is told by the first action of all that has it; a number that no action has is of
/// none.
pub fn numbers_have_the_kinds_of_their_actions()
    ensures { (graph : ActionTrees) (n : ℕ)
        → kind_of (layered graph) n ≡ option_map (λ a. layered_kind (action_kind a)) (numbered n graph) }
{}

/// The row of a leaf that ran tells its attempts, that of a Foreach its items, and that of an Until how often it went round, by whatever
/// source the definition answers.
pub fn rows_tell_their_turns()
    ensures { (d : DefTree) → IsRead d → (e : Environment) (m : RowSource) → AnswersAs d e m → (f : Table Row)
        → TellsTurns (graph_of d) m f turns }
{
    wf_known_laws::numbers_have_their_ranges();
}

/// So do the rows of a resubmission, whichever rows it keeps and whatever decisions it recalls.
pub fn resubmitted_rows_tell_their_turns()
    ensures { (d : DefTree) → IsRead d → (e : Environment) → (redo again : ℕ → Bool) → (old : Table Row)
        → (recall : Address → DecisionTree) → (f : Table Row)
        → TellsTurns (graph_of d) (pin (source d e) (source d e) redo again old recall) f turns }
{
    wf_known_laws::numbers_have_their_ranges();
}

/// Only the row of an action that is skipped is Skipped, and the row of a container that ran tells what it decided: which branch was taken,
/// and how many iterations there were.
pub fn rows_tell_what_was_decided()
    ensures { (d : DefTree) → (e : Environment) → (f : Table Row) → ReadsBack (graph_of d) (source d e) f (reading d) }
{
    wf_meant::what_ran_is_not_skipped();
}

/// What the row of a Scope says, or that of an If or a Switch that took a branch, is all that it decided: opened again with it, it takes
/// the same branch and keeps the same value.
pub fn rows_recall_what_was_decided()
    ensures { (d : DefTree) → (e : Environment) → (f : Table Row) → RecallsWithin d e f }
{}

/// A row costs at least 64 for itself and for each of its turns.
pub fn a_row_costs_its_turns()
    ensures { (r : RowTree) → 64 * suc (turns r.row) ≤ row_cost r }
{}

/// No action is tried more than 91 times.
pub fn attempts_are_few()
    ensures { (d : DefTree) → IsRead d → (e : Environment) → (x : Address) → (known : Table Row)
        → (source d e).tries x ((source d e).start x known) ≤ 91 }
{
    wf_known_laws::numbers_have_their_ranges();
    wf_meant::the_last_attempt_is_the_least();
}

/// Whatever it has begun with, an action is tried at most once more than it has answers.
pub fn attempts_are_answered()
    ensures { (d : DefTree) → (e : Environment) → (x : Address) → (b : BegunTree)
        → (source d e).tries x b ≤ 1 + length (facts_of e (name_of d x.name)).answers }
{
    wf_meant::the_last_attempt_is_the_least();
}
