//! The program: runs one command over the real files and the standard streams, and ends with its status.
//!
//! It hands the words after its own name to `wf_top::serve_words`, and lends it the engine of `wf_printed` and the talker of `wf_session`,
//! which is all that it does; what a command reads, writes and answers is said there. Where the words can't be had as texts nothing is
//! written: the status is 5 for want of memory, and 2 for any other cause, as a word that isn't UTF-8.
#![tactic(auto)]

ghost use Rattle.std.specs.Prelude.{◌≤◌};

use std::env::Env;
use std::io::ErrorKind;
use std::process::ExitCode;
use std::rt::Files;
use std::{env, io};
use wf_outside::{DiskFiles, StdSink, StdSource};
use wf_printed::Printer;
use wf_session::Talker;
use wf_top::serve_words;
use wf_val::Text;

// The words after the program's name.
fn words<R: Env + AllocGlobal>(rt: &R) -> io::Result<Vec<Text>> {
    let mut words = Vec::new(rt.alloc());
    for word in env::args(rt)?.skip(1) {
        words.push(Text::from_string(word))?;
    }
    Ok(words)
}

// The status that the program ends with.
fn status_of<R: Env + Files + Input + Print + AllocGlobal>(rt: &R) -> u8
    ensures { result ≤ 9 }
{
    let words = match words(rt) {
        Ok(words) => words,
        Err(error) if error.kind() == ErrorKind::OutOfMemory => return 5,
        Err(_) => return 2,
    };
    let mut files = DiskFiles::new(rt);
    let mut input = StdSource::new(rt);
    let mut out = StdSink::new(rt);
    serve_words(
        rt.alloc(),
        &words,
        &mut files,
        &Printer,
        &Talker,
        &mut input,
        &mut out,
    )
}

fn main(rt: HostRuntime) -> ExitCode {
    ExitCode::from(status_of(&rt))
}
