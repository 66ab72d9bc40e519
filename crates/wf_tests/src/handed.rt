//! The files that a test's command is handed, in memory.
ghost use Rattle.std.specs.Prelude.{◌≡◌, IfOk, List, ℕ};
ghost use Rattle.wf_outside.specs.MemFiles.{files_held};
ghost use Rattle.wf_tests.specs.Command.{handed};

use std::alloc::{AllocError, Global};
use wf_outside::MemFiles;
use wf_val::Text;

/// What a test's command is handed.
#[derive(Clone, Copy)]
pub(crate) struct Handed<'a> {
    pub(crate) definition: &'a [u8],
    pub(crate) history: &'a [u8],
    pub(crate) inputs: &'a [u8],
}

/// The files, with this schedule.
#[tactic(auto, using(crate::proofs::HandedLemmas::all_added))]
pub(crate) fn files_of(
    alloc: Global,
    given: Handed<'_>,
    schedule: &[u8],
) -> Result<MemFiles, AllocError>
    ensures { IfOk result (λ files. (name : List ℕ) → files_held files name
        ≡ handed given.entry.definition.now given.entry.history.now given.entry.inputs.now schedule.now name) }
{
    let mut files = MemFiles::new(alloc);
    files.add(Text::of(alloc, "definition")?, given.definition)?;
    files.add(Text::of(alloc, "history")?, given.history)?;
    files.add(Text::of(alloc, "inputs")?, given.inputs)?;
    files.add(Text::of(alloc, "schedule")?, schedule)?;
    Ok(files)
}
