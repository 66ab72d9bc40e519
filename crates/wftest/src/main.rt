//! The program of tests: runs the tests of workflows that lie in files beside them, over the real files, and ends with the status of them.
//!
//! It hands the words after its own name to `wf_tests::serve_tests`, and lends it the program `wflow` (`Wflow`), each command of which is
//! done by `wf_top::serve_words` over files in memory. Where the words can't be had as texts nothing is written: the status is 5 for want
//! of memory, and 2 for any other cause.
#![tactic(auto)]

mod wflow;

ghost use Rattle.std.specs.Prelude.{◌≤◌};

use crate::wflow::Wflow;
use std::env::Env;
use std::io::ErrorKind;
use std::process::ExitCode;
use std::rt::Files;
use std::{env, io};
use wf_outside::{DiskFiles, StdSink};
use wf_tests::serve_tests;
use wf_val::Text;

// The words after the program's name.
fn words<R: Env + AllocGlobal>(rt: &R) -> io::Result<Vec<Text>> {
    let mut words = Vec::new(rt.alloc());
    for word in env::args(rt)?.skip(1) {
        words.push(Text::from_string(word))?;
    }
    Ok(words)
}

// The status that the program ends with.
fn status_of<R: Env + Files + Input + Print + AllocGlobal>(rt: &R) -> u8
    ensures { result ≤ 6 }
{
    let words = match words(rt) {
        Ok(words) => words,
        Err(error) if error.kind() == ErrorKind::OutOfMemory => return 5,
        Err(_) => return 2,
    };
    let mut files = DiskFiles::new(rt);
    let mut out = StdSink::new(rt);
    serve_tests(rt.alloc(), &words, &mut files, &Wflow, &mut out)
}

fn main(rt: HostRuntime) -> ExitCode {
    ExitCode::from(status_of(&rt))
}
