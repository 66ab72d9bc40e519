//! What a resubmission is beside a fresh run.
//!
//! A resubmission keeps rows of an older record and makes others anew by further inputs (`wf_meant`, specs/Resubmitted). Here stands what
//! that comes to, for a record that a run left of an accepted definition: it is the record of a fresh run in the older run's environment
//! with one layer more (`specs/Layer`), in which what is redone, by the names of the actions, goes by the new inputs, and all else by what
//! it went by before. The laws ask of the names from which a run is resubmitted what the program asks (`wf_resubmit`), and nothing else:
//! `specs/Asked` says it in other words. `specs/Known` has in one place what other crates promise of such a definition.
//!
//! The same holds of a record that stands for the one that a run left, since it isn't told of some rows what their attempts came to
//! (`specs/Standing`); and where the new inputs give the old answers (`specs/Same`), the older record is what a resubmission gives.
//!
//! It has no code: each public function has an empty body but for the laws that it calls, and its contract is a law. No event and no state
//! of a run occurs in it.
#![tactic(auto)]

ghost use Rattle.std.specs.Prelude.{◌≡◌, List, None, ℕ};
ghost use Rattle.wf_answers.specs.Inputs.{InputsTree};
ghost use Rattle.wf_def.specs.DefTree.{DefTree};
ghost use Rattle.wf_environment.specs.Environment.{Environment};
ghost use Rattle.wf_turns.specs.Record.{meaning};
ghost use Rattle.wf_turns.specs.Resubmitted.{pinned};
ghost use Rattle.wf_reading.specs.Read.{IsRead};
ghost use Rattle.wf_record.specs.Record.{RecordTree};
ghost use Rattle.wf_record_form.specs.ReadBack.{untold};
ghost use Rattle.wf_resubmit.specs.Refused.{numbers_of};
ghost use Rattle.wf_meant_laws.specs.Broken.{broken_of};
ghost use Rattle.wf_anew.specs.Asked.{IsAccepted, IsAskedOf};
ghost use Rattle.wf_anew.specs.Known.{AreNamed, IsKnown};
ghost use Rattle.wf_anew.specs.Layer.{NamesWhatIsRedone, kept_names, layer_of, with_layer};
ghost use Rattle.wf_anew.specs.Same.{GivesTheOld};
ghost use Rattle.wf_anew.specs.Standing.{StandsFor, with_attempts};

// The names and the numbers of the actions of a definition that was read.
fn actions_are_named()
    ensures { (d : DefTree) → IsRead d → AreNamed d }
{
    wf_reading::names_stand_once();
    wf_refs::read_actions_have_their_numbers();
    wf_known_laws::numbers_are_had();
}

// What others promise of a definition that was read and breaks no rule.
fn accepted_definitions_are_known()
    ensures { (d : DefTree) → IsRead d → broken_of d ≡ None → IsKnown d }
{
    actions_are_named();
    wf_meant_laws::the_first_broken_rule();
    wf_meant_laws::standings_are_the_actions();
    wf_known_laws::numbers_stand_once();
    wf_known_laws::entries_stay_in_their_graph();
    wf_meant_laws::depths_are_how_many_are_before();
    wf_meant_laws::a_definition_is_an_instance();
    wf_meant_laws::meant_rows_are_whole();
    wf_meant_laws::listed_rows_stand_for_the_table();
    wf_turns::rows_recall_what_was_decided();
    wf_done::what_an_action_does_is_local();
}

/// What the program asks before it resubmits a run is, of the numbers of the actions: they are there, none stands in a loop, and each has a
/// row in the record that isn't Skipped.
pub fn what_is_accepted_is_asked_of()
    ensures { (d : DefTree) → IsRead d → (r : RecordTree) (names : List (List ℕ)) → IsAccepted d r names
        → IsAskedOf d r (numbers_of d.top names) }
{
    actions_are_named();
    wf_resubmit::what_is_chosen_may_be_redone();
    wf_known_laws::numbers_stand_once();
    wf_known_laws::numbers_are_below();
}

/// The layer has the actions from which the run is resubmitted, what stands inside them, and what comes after them. Kept are all others but
/// those that contain one of them.
pub fn the_layer_has_what_is_redone()
    ensures { (d : DefTree) → IsRead d → (r : RecordTree) (names : List (List ℕ)) → IsAccepted d r names
        → NamesWhatIsRedone d (numbers_of d.top names) }
{
    actions_are_named();
    what_is_accepted_is_asked_of();
    wf_redo::a_set_redoes();
    wf_known_laws::numbers_stand_once();
    wf_known_laws::entries_stay_in_their_graph();
    wf_meant_laws::depths_are_how_many_are_before();
}

/// A layer that gives the old answers, of whatever definition, changes nothing.
pub fn a_layer_of_old_answers_changes_nothing()
    ensures { (d : DefTree) (e : Environment) (from : List ℕ) (i : InputsTree) → GivesTheOld d e from i
        → meaning d (with_layer e (layer_of d from i)) ≡ meaning d e }
{}

/// A resubmission of the record that a run left is the record of a fresh run, which sees old answers in what is kept and new ones in what
/// is redone.
pub fn a_resubmission_is_a_fresh_run()
    ensures { (d : DefTree) → IsRead d → broken_of d ≡ None → (e : Environment) (i : InputsTree) (names : List (List ℕ))
        → IsAccepted d (meaning d e) names
        → pinned d (meaning d e) i (numbers_of d.top names) ≡ meaning d (with_layer e (layer_of d (numbers_of d.top names) i)) }
{
    what_is_accepted_is_asked_of();
    accepted_definitions_are_known();
}

/// So where the new inputs give the run name, the seed, the moment and the answers that what is redone went by, and the section `outputs`,
/// the record is the old one.
pub fn old_answers_give_the_old_record()
    ensures { (d : DefTree) → IsRead d → broken_of d ≡ None → (e : Environment) (i : InputsTree) (names : List (List ℕ))
        → IsAccepted d (meaning d e) names → GivesTheOld d e (numbers_of d.top names) i
        → pinned d (meaning d e) i (numbers_of d.top names) ≡ meaning d e }
{
    a_resubmission_is_a_fresh_run();
    a_layer_of_old_answers_changes_nothing();
}

/// And a resubmission of a record that stands for the one that a run left gives the same rows, but that kept ones have the attempts that
/// this record has.
pub fn a_record_that_stands_for_a_meaning()
    ensures { (d : DefTree) → IsRead d → broken_of d ≡ None → (e : Environment) (r : RecordTree) → StandsFor r (meaning d e)
        → (i : InputsTree) (names : List (List ℕ)) → IsAccepted d r names
        → pinned d r i (numbers_of d.top names) ≡ with_attempts (kept_names d (numbers_of d.top names)) r.rows
        (meaning d (with_layer e (layer_of d (numbers_of d.top names) i))) }
{
    what_is_accepted_is_asked_of();
    accepted_definitions_are_known();
}

/// A record stands for itself, and so does what its line of the older form is read as (`wf_record_form`).
pub fn what_stands_for_a_record()
    ensures itself { (m : RecordTree) → StandsFor m m }
    ensures untold { (m : RecordTree) → StandsFor (untold m) m }
{}

/// What is resubmitted of such a record stands for the fresh run's record, so that all this holds of it in its turn, as often as one likes.
pub fn a_resubmitted_record_stands_again()
    ensures { (d : DefTree) → IsRead d → broken_of d ≡ None → (e : Environment) (r : RecordTree) → StandsFor r (meaning d e)
        → (i : InputsTree) (names : List (List ℕ)) → IsAccepted d r names
        → StandsFor (pinned d r i (numbers_of d.top names)) (meaning d (with_layer e (layer_of d (numbers_of d.top names) i))) }
{
    a_record_that_stands_for_a_meaning();
    what_is_accepted_is_asked_of();
    accepted_definitions_are_known();
}
