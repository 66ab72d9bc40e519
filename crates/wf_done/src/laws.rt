//! What holds of all actions. Each call tells a caller so, and does nothing.
ghost use Rattle.std.specs.Prelude.{◌≡◌, ℕ, List};
ghost use Rattle.wf_val.specs.declared.address.Address.{Address as ActionAddress};
ghost use Rattle.wf_template.specs.DataTree.{DataMember, data_members};
ghost use Rattle.wf_def.specs.ActionTree.{KindTree};
ghost use Rattle.wf_connect.specs.AnswerTree.{AnswerTree};
ghost use Rattle.wf_connect.specs.Status.{Status};
ghost use Rattle.wf_variables.specs.Told.{Told};
ghost use Rattle.wf_variables.specs.Uses.{AgreeAt};
ghost use Rattle.wf_variables.specs.EvalUses.{members_uses};
ghost use Rattle.wf_done.specs.Kept.{KeepsFitting};
ghost use Rattle.wf_done.specs.Leaf.{begun_from, ended};
ghost use Rattle.wf_done.specs.Tracked.{tracked_from};
ghost use Rattle.wf_done.specs.Uses.{kind_uses};

use wf_connect::{attempts_go_on_to_the_last, the_last_attempt_is_the_least};
use wf_variables::{values_are_local, what_is_given_fits};

/// Two looks that tell the same where an action asks have it do the same as it starts, and where its tracked properties ask, give these
/// the same values.
pub fn what_an_action_does_is_local()
    ensures begun { (l m : Told) → (kind : KindTree) → AgreeAt l m (kind_uses kind)
        → (n : ℕ) → begun_from l kind n ≡ begun_from m kind n }
    ensures tracked { (l m : Told) → (ms : List DataMember) → AgreeAt l m (members_uses (data_members ms))
        → (n : ℕ) → tracked_from l ms n ≡ tracked_from m ms n }
{
    values_are_local();
}

/// What an action keeps fits: its inputs and outputs where it has acted, and the inputs with which it calls.
pub fn what_is_kept_fits()
    ensures { (l : Told) → (kind : KindTree) → (n : ℕ) → KeepsFitting (begun_from l kind n) }
{
    what_is_given_fits();
}

/// An action that ran doesn't end as Skipped, whatever answers there are for it.
pub fn what_ran_is_not_skipped()
    ensures { (l : Told) → (kind : KindTree) → (n : ℕ) → (answers : List AnswerTree) → (x : ActionAddress)
        → (ended answers x (begun_from l kind n)).status ≡ Status.Skipped → ⊥ }
{
    the_last_attempt_is_the_least();
    attempts_go_on_to_the_last();
}
