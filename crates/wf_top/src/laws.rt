//! What the definitions of this crate say, in other words. Each call tells a caller so, and does nothing.
ghost use Rattle.std.specs.Prelude.{◌≡◌, ℕ, Bool, List, None, Option};
ghost use Rattle.wf_answers.specs.Inputs.{InputsTree};
ghost use Rattle.wf_def.specs.DefTree.{DefTree};
ghost use Rattle.wf_reading.specs.Read.{IsRead};
ghost use Rattle.wf_record.specs.Record.{RecordTree};
ghost use Rattle.wf_files.specs.Broken.{broken_of};
ghost use Rattle.wf_outside.specs.Outside.{Held};
ghost use Rattle.wf_top.specs.Commands.{plan};
ghost use Rattle.wf_top.specs.Drilling.{MayTellDrill};
ghost use Rattle.wf_top.specs.Plan.{LeadsTo};
ghost use Rattle.wf_trigger.specs.Starts.{StartTree};
ghost use Rattle.wf_top.specs.Ran.{HoldsDefinition};
ghost use Rattle.wf_top.specs.Served.{Say};
ghost use Rattle.wf_top.specs.Told.{MayTell, MayTellAgain};
ghost use Rattle.wf_top.specs.declared.said.Verdict.{Verdict};
ghost use Rattle.wf_top.specs.declared.words.Command.{Command};

/// Of the runs of an accepted definition that was read one thing is told: one verdict and one text.
pub fn one_thing_is_told()
    ensures { (d : DefTree) → IsRead d → broken_of d ≡ None → (traced : Bool) (i : InputsTree) (schedule : List ℕ) (v w : Verdict)
        (text other : List ℕ) → MayTell traced d i schedule v text → MayTell traced d i schedule w other → (v ≡ w) × (text ≡ other) }
{
    wf_told::one_text_is_told();
}

/// And of a resubmission.
pub fn one_thing_is_told_again()
    ensures { (d : DefTree) → IsRead d → broken_of d ≡ None → (r : RecordTree) (names : List (List ℕ)) (i : InputsTree)
        (schedule : List ℕ) (v w : Verdict) (text other : List ℕ) → MayTellAgain d r names i schedule v text
        → MayTellAgain d r names i schedule w other → (v ≡ w) × (text ≡ other) }
{
    wf_told::one_resubmission_is_told();
    wf_told::one_reason_against_a_resubmission();
}

/// And of a drill.
pub fn one_thing_is_told_of_a_drill()
    ensures { (n : ℕ) (d : DefTree) → IsRead d → broken_of d ≡ None → (i : InputsTree) (v w : Verdict) (text other : List ℕ)
        → MayTellDrill n d i v text → MayTellDrill n d i w other → (v ≡ w) × (text ≡ other) }
{
    wf_told::one_measure_is_told();
}

/// One status and one text is what words say over files that tell, where a definition that they hold was read from a value.
pub fn one_thing_is_said()
    ensures { (bytes_of : List ℕ → Option (List ℕ)) (words : List (List ℕ))
        → ((command : Command) (d : DefTree) → HoldsDefinition bytes_of words command d → IsRead d)
        → (s u : ℕ) (text other : List ℕ) → Say bytes_of words s text → Say bytes_of words u other → (s ≡ u) × (text ≡ other) }
{
    wf_told::one_text_is_told();
    wf_told::one_resubmission_is_told();
    wf_told::one_reason_against_a_resubmission();
    wf_told::one_measure_is_told();
    wf_drill::a_drill_is_in_form();
}

/// No command but `session` leads to a talk.
pub fn only_a_session_talks()
    ensures { (held : Held) (words : List (List ℕ)) (d : DefTree) (start : StartTree) (inputs : InputsTree) (command : Command)
        → LeadsTo held (plan command words) d start inputs → command ≡ Command.Session }
{}
