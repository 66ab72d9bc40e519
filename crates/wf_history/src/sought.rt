//! What has been found of a run so far.
ghost use Rattle.std.specs.Prelude.{◌≡◌, Err, IfErr, IfOk, Ok};
ghost use Rattle.wf_history.specs.Seen.{IsJudged, one_more, said, sought_tree, with_value};
ghost use Rattle.wf_history.specs.declared.fault.HistoryFault.{HistoryFault};
ghost use Rattle.wf_record_form.specs.OfVal.{of_val};
ghost use Rattle.wf_record_form.specs.Reading.{record_of};
ghost use Rattle.wf_record.specs.Seen.{record_tree};
ghost use Rattle.wf_val.specs.Seen.{tree};

use crate::fault::HistoryFault;
use std::alloc::Global;
use wf_record::Record;
use wf_record_form::{of_val, run_in};
use wf_val::{Name, Val};

/// The record of a run and its line, or the lines of two.
#[derive(Drop)]
pub(crate) enum Sought {
    Nothing,
    One { line: u64, found: Record },
    Two { first: u64, second: u64 },
}

// The record of a value that was judged to be one.
fn record_from(alloc: Global, value: &Val) -> Result<Record, HistoryFault>
    requires { of_val (tree value.now) ≡ Ok (record_of (tree value.now)) }
    ensures found { IfOk result (λ r. record_tree r ≡ record_of (tree value.now)) }
    ensures fault { IfErr result (λ f. f ≡ HistoryFault.Memory) }
{
    match of_val(alloc, value) {
        Ok(found) => Ok(found),
        Err(_) => Err(HistoryFault::Memory),
    }
}

impl Sought {
    /// With a further line: the value of its record, or none where it says nothing.
    pub(crate) fn with(
        self,
        alloc: Global,
        run: &Name,
        number: u64,
        value: Option<Val>,
    ) -> Result<Sought, HistoryFault>
        requires { IsJudged value }
        ensures sought { IfOk result (λ s. sought_tree s ≡ with_value run.now (sought_tree self) number value) }
        ensures fault { IfErr result (λ f. f ≡ HistoryFault.Memory) }
    {
        match value {
            None => Ok(self),
            Some(value) => {
                if run_in(&value) == run.as_str() {
                    self.with_one(alloc, number, &value)
                } else {
                    Ok(self)
                }
            }
        }
    }

    // With a further record of the run.
    fn with_one(self, alloc: Global, number: u64, value: &Val) -> Result<Sought, HistoryFault>
        requires { of_val (tree value.now) ≡ Ok (record_of (tree value.now)) }
        ensures sought { IfOk result (λ s. sought_tree s ≡ one_more (sought_tree self) (number, record_of (tree value.now))) }
        ensures fault { IfErr result (λ f. f ≡ HistoryFault.Memory) }
    {
        match self {
            Sought::Nothing => {
                let found = record_from(alloc, value)?;
                Ok(Sought::One {
                    line: number,
                    found,
                })
            }
            Sought::One { line, .. } => Ok(Sought::Two {
                first: line,
                second: number,
            }),
            Sought::Two { first, second } => Ok(Sought::Two { first, second }),
        }
    }

    /// What is said at the end.
    pub(crate) fn said(self) -> Result<Record, HistoryFault>
        ensures found { IfOk result (λ r. said (sought_tree self) ≡ Ok (record_tree r)) }
        ensures fault { IfErr result (λ f. said (sought_tree self) ≡ Err f) }
    {
        match self {
            Sought::Nothing => Err(HistoryFault::NoRun),
            Sought::One { found, .. } => Ok(found),
            Sought::Two { first, second } => Err(HistoryFault::Twice { first, second }),
        }
    }
}
