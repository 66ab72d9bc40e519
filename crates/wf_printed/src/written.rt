//! What is written of runs, and what they cost.
ghost use Rattle.std.specs.Prelude.{◌≡◌, ◌≤◌, ◌+◌, ◌++◌, [], IfOk};
ghost use Rattle.wf_record.specs.Cost.{cost};
ghost use Rattle.wf_record.specs.Seen.{record_tree};
ghost use Rattle.wf_run.specs.Seen.{told};
ghost use Rattle.wf_told.specs.Text.{run_text};

use crate::summary::put_summary;
use std::alloc::{AllocError, Global};
use wf_record::{Digits, with_record_line};
use wf_run::Ended;

/// The texts of runs, one after the other, and what they cost together, which is at most 2^26.
#[derive(Drop)]
pub(crate) struct Written {
    pub(crate) text: Vec<u8>,
    pub(crate) cost: u64,
    ghost within: { cost ≤ 67108864 },
}

impl Written {
    /// Of no run.
    pub(crate) fn new(alloc: Global) -> Self
        ensures text { result.text.items ≡ [] }
        ensures cost { result.cost ≡ 0 }
    {
        Written {
            text: Vec::new(alloc),
            cost: 0,
        }
    }

    /// And of one more, with which they don't cost too much.
    pub(crate) fn with(
        self,
        alloc: Global,
        digits: &mut Digits,
        ended: &Ended,
    ) -> Result<Self, AllocError>
        requires { self.cost + cost (record_tree ended.now.finished) ≤ 67108864 }
        ensures text { IfOk result (λ more. more.text.items ≡ self.text.items ++ run_text (told ended.now)) }
        ensures cost { IfOk result (λ more. more.cost ≡ self.cost + cost (record_tree ended.now.finished)) }
    {
        let cost = self.cost + ended.cost;
        let text = with_run(alloc, self.text, digits, ended)?;
        Ok(Written { text, cost })
    }
}

/// A text, and behind it that of a run.
#[tactic(auto, using(std::proofs::Common::append_assoc))]
pub(crate) fn with_run(
    alloc: Global,
    text: Vec<u8>,
    digits: &mut Digits,
    ended: &Ended,
) -> Result<Vec<u8>, AllocError>
    ensures { IfOk result (λ more. more.items ≡ text.items ++ run_text (told ended.now)) }
{
    let mut more = text;
    more.extend_from_slice(&ended.trace)?;
    let mut more = with_record_line(alloc, more, digits, &ended.finished)?;
    put_summary(
        &mut more,
        ended.finished.run.as_str(),
        ended.steps,
        ended.peak,
    )?;
    Ok(more)
}
