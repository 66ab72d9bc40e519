//! The record of a run.
ghost use Rattle.std.specs.Prelude.{◌≡◌, ◌≢◌, Err, IfErr, IfOk, Ok};
ghost use Rattle.wf_history.specs.History.{find};
ghost use Rattle.wf_history.specs.declared.fault.HistoryFault.{HistoryFault};
ghost use Rattle.wf_record.specs.Seen.{record_tree};

use crate::fault::HistoryFault;
use crate::line::value_on;
use crate::sought::Sought;
use std::alloc::Global;
use wf_lines::{split_line, without_return};
use wf_record::Record;
use wf_val::Name;

/// The record of a run among those on the lines of a file. Each line is read, also behind the run's: a line that is no record is told
/// before anything of the run.
#[tactic(auto, using(crate::proofs::FindLemmas::found_all, crate::proofs::FindLemmas::find_step, crate::proofs::FindLemmas::find_bad, crate::proofs::FindLemmas::find_end))]
pub fn find(alloc: Global, bytes: &[u8], run: &Name) -> Result<Record, HistoryFault>
    ensures found { IfOk result (λ r. find run.now bytes.now ≡ Ok (record_tree r)) }
    ensures fault { IfErr result (λ f. f ≢ HistoryFault.Memory → find run.now bytes.now ≡ Err f) }
{
    let mut sought = Sought::Nothing;
    let mut rest = bytes;
    let mut line: u64 = 1;
    while !rest.is_empty() {
        let (first, more) = split_line(rest);
        let value = value_on(alloc, line, without_return(first))?;
        sought = sought.with(alloc, run, line, value)?;
        rest = more;
        line += 1;
    }
    sought.said()
}
