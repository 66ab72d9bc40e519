//! What makes runs and resubmissions, as what prints their text or says why there is none.
ghost use Rattle.std.specs.Prelude.{◌≡◌, ◌≢◌, Err, IfErr, IfOk};
ghost use Rattle.wf_answers.specs.InputsSeen.{inputs_tree};
ghost use Rattle.wf_prepare.specs.ReadSeen.{def_tree};
ghost use Rattle.wf_record.specs.Seen.{record_tree};
ghost use Rattle.wf_told.specs.Measured.{IsMeasured, StartsAlone};
ghost use Rattle.wf_told.specs.Records.{runs_records};
ghost use Rattle.wf_told.specs.Resubmissions.{IsNotResubmitted, TellsResubmission};
ghost use Rattle.wf_told.specs.Runs.{TellsRuns};
ghost use Rattle.wf_told.specs.declared.fault.ResubmissionFault.{ResubmissionFault};
ghost use Rattle.wf_told.specs.declared.fault.RunsFault.{RunsFault};

use crate::fault::{ResubmissionFault, RunsFault};
use crate::measure::Measure;
use std::alloc::Global;
use wf_answers::Inputs;
use wf_prepare::Checked;
use wf_record::Record;
use wf_val::{Name, Schedule};

/// What makes the runs of accepted definitions.
pub trait Engine {
    /// The text of all runs that the inputs start, each under the schedule from its first number on: the lines of its events where it is
    /// traced, its record's line and a summary line; or why there is none.
    fn runs_text(
        &self,
        alloc: Global,
        checked: &Checked,
        inputs: &Inputs,
        schedule: &Schedule,
        traced: bool,
    ) -> Result<Vec<u8>, RunsFault>
        ensures text { IfOk result (λ text. TellsRuns (def_tree checked.now.def) (inputs_tree inputs.now) schedule.now traced text.items) }
        ensures fault { IfErr result (λ f. f ≢ RunsFault.Memory
            → runs_records (def_tree checked.now.def) (inputs_tree inputs.now) ≡ Err f) };

    /// The text of the resubmission of a record from the actions of these names, with new inputs, under the schedule: the new record's line
    /// and a summary line; or why there is none.
    fn resubmission_text(
        &self,
        alloc: Global,
        checked: &Checked,
        log: &Record,
        names: &[Name],
        inputs: &Inputs,
        schedule: &Schedule,
    ) -> Result<Vec<u8>, ResubmissionFault>
        ensures text { IfOk result (λ text. TellsResubmission (def_tree checked.now.def) (record_tree log.now) names.now
            (inputs_tree inputs.now) schedule.now text.items) }
        ensures fault { IfErr result (λ f. f ≢ ResubmissionFault.Memory
            → IsNotResubmitted (def_tree checked.now.def) (record_tree log.now) names.now (inputs_tree inputs.now) f) };

    /// How the one run went that the inputs start, under the schedule from its first number on; or why there is none.
    fn measure(
        &self,
        alloc: Global,
        checked: &Checked,
        inputs: &Inputs,
        schedule: &Schedule,
    ) -> Result<Measure, RunsFault>
        requires { StartsAlone (def_tree checked.now.def) (inputs_tree inputs.now) }
        ensures measured { IfOk result (λ m. IsMeasured (def_tree checked.now.def) (inputs_tree inputs.now) schedule.now m) }
        ensures fault { IfErr result (λ f. f ≢ RunsFault.Memory
            → runs_records (def_tree checked.now.def) (inputs_tree inputs.now) ≡ Err f) };
}
