//! The engine that prints runs.
use crate::measuring::measure;
use crate::resubmission::resubmission_text;
use crate::runs::runs_text;
use std::alloc::Global;
use wf_answers::Inputs;
use wf_record::Record;
use wf_run::Checked;
use wf_told::{Engine, Measure, ResubmissionFault, RunsFault};
use wf_val::{Name, Schedule};

/// Makes runs by the event machine, and prints them. Runs are made and written one after the other, and of each its text alone is kept.
/// Once they cost too much, no further one is made.
#[derive(Clone, Copy)]
pub struct Printer;

impl Engine for Printer {
    fn runs_text(
        &self,
        alloc: Global,
        checked: &Checked,
        inputs: &Inputs,
        schedule: &Schedule,
        traced: bool,
    ) -> Result<Vec<u8>, RunsFault> {
        runs_text(alloc, checked, inputs, schedule, traced)
    }

    fn resubmission_text(
        &self,
        alloc: Global,
        checked: &Checked,
        log: &Record,
        names: &[Name],
        inputs: &Inputs,
        schedule: &Schedule,
    ) -> Result<Vec<u8>, ResubmissionFault> {
        resubmission_text(alloc, checked, log, names, inputs, schedule)
    }

    fn measure(
        &self,
        alloc: Global,
        checked: &Checked,
        inputs: &Inputs,
        schedule: &Schedule,
    ) -> Result<Measure, RunsFault> {
        measure(alloc, checked, inputs, schedule)
    }
}
