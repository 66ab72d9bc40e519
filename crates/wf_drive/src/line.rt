//! A line of a trace.
ghost use Rattle.std.specs.Prelude.{◌≡◌, ◌++◌, OnOk};
ghost use Rattle.wf_drive.specs.Lines.{event_line};

use std::alloc::AllocError;
use wf_lines::put_number;

/// Adds a line: its number, what is told, and a line feed.
#[tactic(auto, unfolding(crate::specs::Lines::event_line), using(std::proofs::Common::append_assoc))]
pub fn write_line(trace: &mut Vec<u8>, number: u64, told: &[u8]) -> Result<(), AllocError>
    ensures { OnOk result (trace.new.items ≡ trace.old.items ++ event_line number told.now) }
{
    trace.extend_from_slice(b"# ")?;
    put_number(trace, number)?;
    trace.push(b' ')?;
    trace.extend_from_slice(told)?;
    trace.push(b'\n')?;
    Ok(())
}
