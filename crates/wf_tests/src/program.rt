//! What does a command.
ghost use Rattle.std.specs.Prelude.{IfOk, List, Option, ℕ};
ghost use Rattle.wf_outside.specs.MemFiles.{files_held};
ghost use Rattle.wf_tests.specs.Command.{IsOfATest};

use std::alloc::{AllocError, Global};
use wf_judged::Ended;
use wf_outside::MemFiles;
use wf_val::Text;

/// What does a command over files in memory.
pub trait Program {
    /// Words over files that hold these bytes may end with this status and this text.
    ghost says: { (List ℕ → Option (List ℕ)) → List (List ℕ) → ℕ → List ℕ → Type 0 };

    /// How the words of a test's command end over these files.
    fn end_of(
        &self,
        alloc: Global,
        words: &[Text],
        files: &mut MemFiles,
    ) -> Result<Ended, AllocError>
        requires { IsOfATest words.now }
        ensures { IfOk result (λ ended. says (files_held files.old) words.now ended.status ended.text.items) };
}
