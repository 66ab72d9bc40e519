//! The program: writes the page of a definition and a record over the real files, and ends with its status.
//!
//! It hands the words after its own name to `wf_page::serve_page`, which is all that it does; what is read, written and answered is said
//! there. Where the words can't be had as texts nothing is written: the status is 5 for want of memory, and 2 for any other cause, as a
//! word that isn't UTF-8.
#![tactic(auto)]

use std::env::Env;
use std::io::ErrorKind;
use std::process::ExitCode;
use std::rt::Files;
use std::{env, io};
use wf_outside::{DiskFiles, StdSink};
use wf_page::serve_page;
use wf_val::Text;

// The words after the program's name.
fn words<R: Env + AllocGlobal>(rt: &R) -> io::Result<Vec<Text>> {
    let mut words = Vec::new(rt.alloc());
    for word in env::args(rt)?.skip(1) {
        words.push(Text::from_string(word))?;
    }
    Ok(words)
}

// The status that the program ends with.
fn status_of<R: Env + Files + Print + AllocGlobal>(rt: &R) -> u8 {
    let words = match words(rt) {
        Ok(words) => words,
        Err(error) if error.kind() == ErrorKind::OutOfMemory => return 5,
        Err(_) => return 2,
    };
    let mut files = DiskFiles::new(rt);
    let mut out = StdSink::new(rt);
    serve_page(rt.alloc(), &words, &mut files, &mut out)
}

fn main(rt: HostRuntime) -> ExitCode {
    ExitCode::from(status_of(&rt))
}
