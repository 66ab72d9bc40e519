// What a command says: a verdict and a text.
ghost use Rattle.std.specs.Prelude.{◌≡◌, ◌≢◌, IfOk, IfErr};
ghost use Rattle.wf_files.specs.Fault.{fault_line};
ghost use Rattle.wf_top.specs.Served.{number};

use crate::load::Stop;
use std::alloc::Global;
use wf_files::{FormFault, fault_line};

/// The line that says that what is asked for would cost too much.
pub const TOO_LARGE: &[u8] = b"too large\n";

/// How a command ends that had its files.
#[derive(Clone, Copy, Debug, PartialEq, Eq)]
pub enum Verdict {
    /// What was asked for is done.
    Done = 0,
    /// The definition isn't accepted.
    Definition = 1,
    /// The inputs or the schedule aren't of their form, or the definition's trigger starts no run by the inputs.
    Inputs = 6,
    /// The history isn't of its form, or has no record of the run, or the record can't be resubmitted.
    History = 7,
    /// The runs cost too much.
    TooLarge = 8,
}

impl Verdict {
    /// The status that the program ends with.
    pub fn number(self) -> u8
        ensures { result ≡ number self }
    {
        self as u8
    }
}

/// A verdict and the whole text that goes with it.
#[derive(Drop)]
pub struct Said {
    pub verdict: Verdict,
    pub text: Vec<u8>,
}

/// A fault of a file, said with the verdict on such files.
pub fn say_fault(
    alloc: Global,
    verdict: Verdict,
    part: &[u8],
    fault: FormFault,
) -> Result<Said, Stop>
    ensures said { IfOk result (λ said. (fault ≢ FormFault.Memory) × (said.verdict ≡ verdict)
        × (said.text.items ≡ fault_line part.now fault)) }
    ensures stopped { IfErr result (λ stop. stop ≡ Stop.Memory) }
{
    match fault {
        FormFault::Memory => Err(Stop::Memory),
        fault => Ok(Said {
            verdict,
            text: fault_line(alloc, part, fault)?,
        }),
    }
}
