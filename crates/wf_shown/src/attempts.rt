//! The attempts of a connector in words.
ghost use Rattle.std.specs.Prelude.{◌≡◌, ◌++◌, IfOk, OnOk, string_bytes};
ghost use Rattle.wf_shown.specs.Changes.{attempt_line, attempts_text};

use std::alloc::{AllocError, Global};
use wf_record::{Tries, Try};

// Adds a line with what an attempt came to.
fn add_attempt(text: &mut String, attempt: Try) -> Result<(), AllocError>
    ensures { OnOk result (string_bytes text.new ≡ string_bytes text.old ++ attempt_line attempt) }
{
    match attempt {
        Try::Code(code) => write!(text, "{code}\n"),
        Try::NoConnection => text.push_str("no connection\n"),
        Try::TimedOut => text.push_str("timed out\n"),
        Try::NoAnswer => text.push_str("no answer\n"),
        Try::Unknown => text.push_str("unknown\n"),
    }
}

/// A line for each attempt.
#[tactic(auto, using(std::proofs::Common::append_assoc))]
pub fn attempts_text(alloc: Global, attempts: &Tries) -> Result<String, AllocError>
    ensures { IfOk result (λ text. string_bytes text ≡ attempts_text attempts.now) }
{
    let mut text = String::new(alloc);
    for attempt in attempts.as_slice() {
        add_attempt(&mut text, *attempt)?;
    }
    Ok(text)
}
