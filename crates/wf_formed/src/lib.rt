//! Every record that the program prints is of the form of records, so that it is read back.
//!
//! A run leaves the record that its definition means in its environment (`wf_meant`), and a resubmission one that keeps rows of an older
//! record. Here it is shown that each such record fits (`wf_record_form`): its rows stand at addresses that a value can name, in their
//! order; inputs, outputs, tracked properties, the response and the parameters are as deep and as heavy as is allowed; no row has more than
//! 91 attempts, each with a status code of HTTP or a word; the run and each action have names of 1 to 80 characters; the digest has 32
//! bytes. So the value of the record is of the form, and reading it gives the record.
//!
//! That holds of the environments that the program makes (`specs/Surroundings`): the inputs are ones that some value of a file means, also
//! those of each layer, and the start is one of the runs that these start of the definition. What is asked of a row by itself says
//! `specs/Formed`; it holds of all rows, whatever is known as they are made, so that no order of events occurs here.
//!
//! It has no code: each public function has an empty body but for the laws that it calls, and its contract is a law.
#![tactic(auto)]

ghost use Rattle.std.specs.Prelude.{◌≡◌, ℕ, List, None};
ghost use Rattle.std.specs.List.{AllByRecursion};
ghost use Rattle.wf_answers.specs.Inputs.{InputsTree};
ghost use Rattle.wf_def.specs.DefTree.{DefTree};
ghost use Rattle.wf_environment.specs.Environment.{Environment};
ghost use Rattle.wf_pinned.specs.Record.{meaning};
ghost use Rattle.wf_pinned.specs.Resubmitted.{pinned};
ghost use Rattle.wf_reading.specs.Read.{IsRead};
ghost use Rattle.wf_record.specs.Record.{RecordTree};
ghost use Rattle.wf_record_form.specs.Fitting.{IsFittingRecord, IsFittingRow};
ghost use Rattle.wf_record_form.specs.ReadBack.{IsOfForm, IsReadBack};
ghost use Rattle.wf_prepare.specs.Prepared.{MayBeResubmitted};
ghost use Rattle.wf_resubmit.specs.Refused.{numbers_of};
ghost use Rattle.wf_pinned.specs.Broken.{broken_of};
ghost use Rattle.wf_formed.specs.Known.{IsKnown, Promised};
ghost use Rattle.wf_formed.specs.Surroundings.{AreHandedIn, IsKept, IsSurroundedBy};

// What others promise of all that is evaluated.
fn what_is_evaluated_fits()
    ensures { Promised }
{
    wf_eval::what_is_given_fits();
    wf_done::what_is_kept_fits();
    wf_opening::what_a_container_keeps_fits();
}

// What others promise of a definition that was read and breaks no rule.
fn accepted_definitions_are_known()
    ensures { (d : DefTree) → IsRead d → broken_of d ≡ None → IsKnown d }
{
    wf_form::the_first_fault();
    wf_reading::numbers_are_places();
    wf_known_laws::numbers_are_had();
    wf_known_laws::numbers_have_their_ranges();
    wf_pinned::the_first_broken_rule();
    wf_prepare::attempts_are_few();
    wf_pinned::listed_rows_stand_for_the_table();
}

/// The record that an accepted definition means fits, in each environment that the program makes.
pub fn a_meaning_fits()
    ensures { (d : DefTree) → IsRead d → broken_of d ≡ None → (e : Environment) → IsSurroundedBy d e → IsFittingRecord (meaning d e) }
{
    what_is_evaluated_fits();
    accepted_definitions_are_known();
    wf_pinned::meant_rows_are_whole();
}

/// So its rows do, each at its address.
pub fn rows_are_of_the_form()
    ensures { (d : DefTree) → IsRead d → broken_of d ≡ None → (e : Environment) → IsSurroundedBy d e
        → AllByRecursion IsFittingRow (meaning d e).rows }
{
    a_meaning_fits();
}

/// And its value is of the form of records.
pub fn a_meaning_is_of_the_form()
    ensures { (d : DefTree) → IsRead d → broken_of d ≡ None → (e : Environment) → IsSurroundedBy d e → IsOfForm (meaning d e) }
{
    a_meaning_fits();
    wf_record_form::a_fitting_record_is_of_the_form();
}

/// Whatever record that fits is resubmitted, if only it may be from the actions of these names, the record that comes of it fits as well.
pub fn a_resubmission_fits()
    ensures { (d : DefTree) → IsRead d → broken_of d ≡ None → (r : RecordTree) → IsFittingRecord r → (i : InputsTree) → AreHandedIn i
        → (names : List (List ℕ)) → MayBeResubmitted d r names → IsFittingRecord (pinned d r i (numbers_of d.top names)) }
{
    what_is_evaluated_fits();
    accepted_definitions_are_known();
    wf_pinned::a_resubmission_is_answered();
    wf_prepare::kept_rows_are_whole();
    wf_prepare::kept_rows_give_what_they_write();
    wf_prepare::record_is_an_old_table();
}

/// A record whose value is of the form fits, as its type keeps it.
pub fn a_record_of_the_form_fits()
    ensures { (r : RecordTree) → IsKept r → IsOfForm r → IsFittingRecord r }
{
    wf_record_form::a_record_is_read_back();
    wf_record_form::rows_are_read_in_order();
}

/// So whatever record of the form is resubmitted, the one that comes of it is of the form.
pub fn a_resubmission_is_of_the_form()
    ensures { (d : DefTree) → IsRead d → broken_of d ≡ None → (r : RecordTree) → IsKept r → IsOfForm r → (i : InputsTree) → AreHandedIn i
        → (names : List (List ℕ)) → MayBeResubmitted d r names → IsOfForm (pinned d r i (numbers_of d.top names)) }
{
    a_record_of_the_form_fits();
    a_resubmission_fits();
    wf_record_form::a_fitting_record_is_of_the_form();
}

/// So what is printed is read back: the value of such a record is read as that record.
pub fn what_is_printed_is_read_back()
    ensures meant { (d : DefTree) → IsRead d → broken_of d ≡ None → (e : Environment) → IsSurroundedBy d e → IsReadBack (meaning d e) }
    ensures resubmitted { (d : DefTree) → IsRead d → broken_of d ≡ None → (r : RecordTree) → IsFittingRecord r → (i : InputsTree)
        → AreHandedIn i → (names : List (List ℕ)) → MayBeResubmitted d r names → IsReadBack (pinned d r i (numbers_of d.top names)) }
{
    a_meaning_fits();
    a_resubmission_fits();
    wf_record_form::a_fitting_record_is_of_the_form();
    wf_record_form::a_record_is_read_back();
}
