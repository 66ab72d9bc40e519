//! The program that tests are of.
ghost use Rattle.std.specs.Prelude.{◌≡◌, ◌&&◌, IfOk, nat_le};
ghost use Rattle.wf_outside.specs.MemFiles.{files_held};
ghost use Rattle.wf_tests.specs.Command.{IsOfATest};
ghost use Rattle.wf_top.specs.Served.{Say};

use std::alloc::{AllocError, Global};
use wf_judged::Ended;
use wf_outside::{MemFiles, MemSource};
use wf_printed::Printer;
use wf_session::Talker;
use wf_tests::{Kept, Program};
use wf_top::serve_words;
use wf_val::Text;

/// The program `wflow` without its standard streams: the command of a test is done by `wf_top::serve_words`, and what that writes is kept.
/// No test has the command `session`, which alone would read an input.
pub struct Wflow;

// A read of files in memory that are all there, and a sink that grows, fail for want of memory alone.
fn is_short_of_memory(status: u8) -> bool
    ensures { result ≡ (nat_le 3 status && nat_le status 5) }
{
    3 <= status && status <= 5
}

impl Program for Wflow {
    ghost says = { Say };

    fn end_of(
        &self,
        alloc: Global,
        words: &[Text],
        files: &mut MemFiles,
    ) -> Result<Ended, AllocError>
        requires { IsOfATest words.now }
        ensures { IfOk result (λ ended. Say (files_held files.old) words.now ended.status ended.text.items) }
    {
        let mut input = MemSource::new(alloc, b"")?;
        let mut kept = Kept::new(alloc);
        let status = serve_words(
            alloc, words, files, &Printer, &Talker, &mut input, &mut kept,
        );
        if is_short_of_memory(status) {
            return Err(AllocError);
        }
        Ok(Ended {
            status,
            text: kept.into_bytes(),
        })
    }
}
