//! Lines of columns with tabs between.
use sha2::{Digest as _, Sha256};
use std::alloc::{AllocError, Global};
use wf_json::fault_text;
use wf_record::{Tries, Try};
use wf_val::{EvalFault, Val};

// The longest value that is written as it is, in bytes.
const LONGEST: usize = 400;

// Whether nothing stands on the last line yet.
fn is_at_start(lines: &[u8]) -> bool {
    match lines.last() {
        Some(byte) => *byte == b'\n',
        None => true,
    }
}

/// Puts a tab behind the last line, unless it is empty, and then the words.
pub(crate) fn push_word(line: &mut Vec<u8>, word: &str) -> Result<(), AllocError> {
    if !is_at_start(line) {
        line.push(b'\t')?;
    }
    line.extend_from_slice(word.as_bytes())
}

// A text in JSON, or its length and its digest where it is long.
fn push_shortened(alloc: Global, line: &mut Vec<u8>, text: &[u8]) -> Result<(), AllocError> {
    if text.len() <= LONGEST {
        return line.extend_from_slice(text);
    }
    let digest = hex::encode(alloc, Sha256::digest(text))?;
    let told = format!(in alloc; "{} bytes {digest}", text.len())?;
    line.extend_from_slice(told.as_bytes())
}

/// A column with words and a value behind them.
pub(crate) fn push_value(
    alloc: Global,
    line: &mut Vec<u8>,
    words: &str,
    value: &Val,
) -> Result<(), AllocError> {
    push_word(line, words)?;
    let text = wf_json::write(alloc, value)?;
    push_shortened(alloc, line, text.as_slice())
}

/// A column with a fault.
pub(crate) fn push_fault(
    alloc: Global,
    line: &mut Vec<u8>,
    fault: &EvalFault,
) -> Result<(), AllocError> {
    let text = fault_text(alloc, fault)?;
    push_word(line, "! ")?;
    line.extend_from_slice(text.as_str().as_bytes())
}

/// A column with a number.
pub(crate) fn push_number(
    alloc: Global,
    line: &mut Vec<u8>,
    number: u64,
) -> Result<(), AllocError> {
    let digits = format!(in alloc; "{number}")?;
    push_word(line, digits.as_str())
}

// What an attempt came to, as a record tells it.
fn push_try(alloc: Global, line: &mut Vec<u8>, attempt: Try) -> Result<(), AllocError> {
    let word = match attempt {
        Try::Code(code) => {
            let digits = format!(in alloc; "{code}")?;
            return line.extend_from_slice(digits.as_bytes());
        }
        Try::NoConnection => "noConnection",
        Try::TimedOut => "timedOut",
        Try::NoAnswer => "noAnswer",
        Try::Unknown => "unknown",
    };
    line.extend_from_slice(word.as_bytes())
}

/// A column with the attempts, with blanks between, or `-` where there are none.
pub(crate) fn push_attempts(
    alloc: Global,
    line: &mut Vec<u8>,
    attempts: &Tries,
) -> Result<(), AllocError> {
    if attempts.as_slice().is_empty() {
        return push_word(line, "-");
    }
    push_word(line, "")?;
    let mut is_first = true;
    for attempt in attempts.as_slice() {
        if !is_first {
            line.push(b' ')?;
        }
        is_first = false;
        push_try(alloc, line, *attempt)?;
    }
    Ok(())
}
