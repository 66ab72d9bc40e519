//! The line below a record's, on how its run went.
ghost use Rattle.std.specs.Prelude.{◌≡◌, ◌++◌, OnOk};
ghost use Rattle.wf_told.specs.Summary.{summary_line};

use std::alloc::AllocError;
use wf_lines::put_number;

/// Writes the line on how a run went.
#[tactic(auto, unfolding(wf_told::specs::Summary::summary_line), using(std::proofs::Common::append_assoc))]
pub(crate) fn put_summary(
    text: &mut Vec<u8>,
    run: &str,
    steps: u64,
    peak: u64,
) -> Result<(), AllocError>
    ensures { OnOk result (text.new.items ≡ text.old.items ++ summary_line run.now steps peak) }
{
    text.extend_from_slice(b"# run ")?;
    text.extend_from_slice(run.as_bytes())?;
    text.extend_from_slice(b" steps ")?;
    put_number(text, steps)?;
    text.extend_from_slice(b" peak ")?;
    put_number(text, peak)?;
    text.push(b'\n')?;
    Ok(())
}
