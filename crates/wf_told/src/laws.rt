//! What the definitions of this crate say, in other words. Each call tells a caller so, and does nothing.
ghost use Rattle.std.specs.Prelude.{◌≡◌, ◌≢◌, ◌<◌, ◌≤◌, ◌++◌, ◌↔◌, ℕ, Bool, List, [], None, Ok, Err, codes};
ghost use Rattle.wf_answers.specs.Inputs.{InputsTree};
ghost use Rattle.wf_def.specs.DefTree.{DefTree};
ghost use Rattle.wf_prepare.specs.Environment.{Environment};
ghost use Rattle.wf_prepare.specs.Resubmitted.{pinned};
ghost use Rattle.wf_prepare.specs.Prepared.{MayBeResubmitted};
ghost use Rattle.wf_prepare.specs.Read.{IsRead};
ghost use Rattle.wf_record.specs.Cost.{cost};
ghost use Rattle.wf_record.specs.Record.{RecordTree};
ghost use Rattle.wf_prepare.specs.Refused.{numbers_of};
ghost use Rattle.wf_prepare.specs.Broken.{broken_of};
ghost use Rattle.wf_told.specs.Under.{IsRunUnder, Told};
ghost use Rattle.wf_prepare.specs.Starts.{StartTree};
ghost use Rattle.wf_prepare.specs.TriggerFault.{TriggerFault};
ghost use Rattle.wf_told.specs.Measured.{IsMeasured};
ghost use Rattle.wf_told.specs.Records.{records_of, runs_records, starts_of};
ghost use Rattle.wf_told.specs.Resubmissions.{IsNotResubmitted, TellsResubmission};
ghost use Rattle.wf_told.specs.Runs.{TellsRuns};
ghost use Rattle.wf_told.specs.Text.{runs_in_a_row, total_cost};
ghost use Rattle.wf_told.specs.declared.fault.ResubmissionFault.{ResubmissionFault};
ghost use Rattle.wf_told.specs.declared.fault.RunsFault.{RunsFault};
ghost use Rattle.wf_told.specs.declared.measure.Measure.{Measure};

/// Of an accepted definition one thing is told in an environment under a schedule: how many steps a run takes, its peak, its lines and its
/// record are fixed.
pub fn runs_are_told_alike()
    ensures { (d : DefTree) → IsRead d → broken_of d ≡ None → (e : Environment) (schedule : List ℕ) (traced : Bool) (t u : Told)
        → IsRunUnder d e schedule traced t → IsRunUnder d e schedule traced u → t ≡ u }
{
    wf_prepare::a_definition_is_an_instance();
}

/// A run of an accepted definition in an environment has the same record under every schedule, and as many events.
pub fn runs_have_as_many_steps()
    ensures { (d : DefTree) → IsRead d → broken_of d ≡ None → (e : Environment) (one other : List ℕ) (traced again : Bool) (t u : Told)
        → IsRunUnder d e one traced t → IsRunUnder d e other again u → (t.steps ≡ u.steps) × (t.left ≡ u.left) }
{
    wf_prepare::a_definition_is_an_instance();
}

/// The figures of the one run of an accepted definition that starts with inputs are one under a schedule. Under another one no figure is
/// different but for the peak. Where they are told, no fault is.
pub fn one_measure_is_told()
    ensures one { (d : DefTree) → IsRead d → broken_of d ≡ None → (i : InputsTree) (schedule : List ℕ) (m n : Measure)
        → IsMeasured d i schedule m → IsMeasured d i schedule n → m ≡ n }
    ensures others { (d : DefTree) → IsRead d → broken_of d ≡ None → (i : InputsTree) (schedule other : List ℕ) (m n : Measure)
        → IsMeasured d i schedule m → IsMeasured d i other n → (m.rows ≡ n.rows) × (m.status ≡ n.status) × (m.steps ≡ n.steps) }
    ensures none { (d : DefTree) (i : InputsTree) (schedule : List ℕ) (m : Measure) (f : RunsFault) → IsMeasured d i schedule m
        → runs_records d i ≡ Err f → ⊥ }
{
    runs_are_told_alike();
    runs_have_as_many_steps();
}

/// One text is told of the runs of an accepted definition that start with inputs, under a schedule, traced or not.
pub fn one_text_is_told()
    ensures { (d : DefTree) → IsRead d → broken_of d ≡ None → (i : InputsTree) (schedule : List ℕ) (traced : Bool) (text other : List ℕ)
        → TellsRuns d i schedule traced text → TellsRuns d i schedule traced other → text ≡ other }
{
    runs_are_told_alike();
}

/// That no run starts is said exactly where none does.
pub fn no_run_is_said_where_none_starts()
    ensures { (d : DefTree) (i : InputsTree) (schedule : List ℕ) (traced : Bool) (text : List ℕ) → TellsRuns d i schedule traced text
        → (text ≡ codes "# no run\n") ↔ (starts_of d i ≡ Ok []) }
{}

/// Runs are too large exactly where they can start and cost more than 2^26 together, whatever the schedule.
pub fn runs_are_too_large_where_they_cost_more()
    ensures { (d : DefTree) (i : InputsTree) → (runs_records d i ≡ Err RunsFault.TooLarge) ↔ ((starts : List StartTree)
        × (starts_of d i ≡ Ok starts) × (67108864 < total_cost (records_of d i starts))) }
{}

/// A fault of the trigger is told exactly where no run can start.
pub fn a_fault_of_the_trigger_is_told()
    ensures { (d : DefTree) (i : InputsTree) (f : TriggerFault)
        → (runs_records d i ≡ Err (RunsFault.Trigger f)) ↔ (starts_of d i ≡ Err f) }
{}

/// What runs come to never is that memory ran out: that is an answer of the code alone.
pub fn runs_want_no_memory()
    ensures { (d : DefTree) (i : InputsTree) → runs_records d i ≢ Err RunsFault.Memory }
{}

/// The texts of runs stand in the order of the runs.
pub fn texts_stand_in_a_row()
    ensures { (rs ss : List Told) → runs_in_a_row (rs ++ ss) ≡ runs_in_a_row rs ++ runs_in_a_row ss }
{}

/// One text is told of the resubmission of a record from actions of an accepted definition, with new inputs, under a schedule.
pub fn one_resubmission_is_told()
    ensures { (d : DefTree) → IsRead d → broken_of d ≡ None → (r : RecordTree) (names : List (List ℕ)) (i : InputsTree)
        (schedule text other : List ℕ) → TellsResubmission d r names i schedule text → TellsResubmission d r names i schedule other
        → text ≡ other }
{
    wf_prepare::a_definition_is_an_instance();
    wf_prepare::record_is_an_old_table();
}

/// Why there is no resubmission is one thing; there is no such reason where one is told, nor where the record may be resubmitted and the
/// new one doesn't cost too much.
pub fn one_reason_against_a_resubmission()
    ensures one { (d : DefTree) (r : RecordTree) (names : List (List ℕ)) (i : InputsTree) (f g : ResubmissionFault)
        → IsNotResubmitted d r names i f → IsNotResubmitted d r names i g → f ≡ g }
    ensures none { (d : DefTree) (r : RecordTree) (names : List (List ℕ)) (i : InputsTree) (schedule text : List ℕ)
        (f : ResubmissionFault) → TellsResubmission d r names i schedule text → IsNotResubmitted d r names i f → ⊥ }
    ensures nothing { (d : DefTree) (r : RecordTree) (names : List (List ℕ)) (i : InputsTree) (f : ResubmissionFault)
        → MayBeResubmitted d r names → cost (pinned d r i (numbers_of d.top names)) ≤ 67108864 → IsNotResubmitted d r names i f → ⊥ }
{
    wf_prepare::one_fault_is_told();
}

/// That memory ran out is no reason against a resubmission: that is an answer of the code alone.
pub fn a_resubmission_wants_no_memory()
    ensures { (d : DefTree) (r : RecordTree) (names : List (List ℕ)) (i : InputsTree)
        → IsNotResubmitted d r names i ResubmissionFault.Memory → ⊥ }
{}
