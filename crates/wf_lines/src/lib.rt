//! The lines of a file that is read line by line, such as a schedule or a history; and the numbers in lines that are written.
//!
//! A line feed ends a line, and that of the last line may be left out; a file of no bytes has no lines. A carriage return at the end of a
//! line doesn't count (`without_return`). `split_line` gives the first line as a part of the bytes, so that no line is copied.
//!
//! `put_number` writes a number straight behind the bytes of a line: a text of its own for each number would be an allocation more.
#![tactic(auto)]

ghost use Rattle.std.specs.Prelude.{◌≡◌, ◌≤◌, ◌<◌, ◌+◌, [], ◌∷◌, ◌++◌, drop, length, OnOk};
ghost use Rattle.wf_lines.specs.Lines.{line_length, lines_of, without_return};

use itoa::{Buffer, Integer};
use std::alloc::AllocError;

/// The first line, and what comes behind it.
pub fn split_line<'a>(bytes: &'a [u8]) -> (&'a [u8], &'a [u8])
    requires { 0 < length bytes.now }
    ensures lines { lines_of bytes.now ≡ result.0.now ∷ lines_of result.1.now }
    ensures shorter { length result.1.now < length bytes.now }
{
    let length = line_length(bytes);
    (&bytes[..length], rest_behind(bytes, length))
}

/// A line without the carriage return at its end, if there is one.
pub fn without_return<'a>(line: &'a [u8]) -> &'a [u8]
    ensures { result.now ≡ without_return line.now }
{
    match line.split_last() {
        Some((last, before)) => without_last(line, *last, before),
        None => line,
    }
}

// A line with this last byte, and the bytes before it.
#[tactic(auto, using(crate::proofs::LineLemmas::last_dropped))]
fn without_last<'a>(line: &'a [u8], last: u8, before: &'a [u8]) -> &'a [u8]
    requires { line.now ≡ before.now ++ last ∷ [] }
    ensures { result.now ≡ without_return line.now }
{
    if last == 13 { before } else { line }
}

// How many bytes stand before the first line feed.
fn line_length(bytes: &[u8]) -> usize
    ensures length { result ≡ line_length bytes.now }
    ensures within { result ≤ length bytes.now }
{
    let mut count = 0;
    for byte in bytes {
        if *byte == 10 {
            return count;
        }
        count += 1;
    }
    count
}

// What comes behind so many bytes and one more.
#[tactic(auto, using(crate::proofs::LineLemmas::drop_end))]
fn rest_behind<'a>(bytes: &'a [u8], count: usize) -> &'a [u8]
    requires { count ≤ length bytes.now }
    ensures { result.now ≡ drop (count + 1) bytes.now }
{
    if count < bytes.len() {
        &bytes[count + 1..]
    } else {
        &bytes[count..]
    }
}

/// Writes a number in decimal behind what there is.
pub fn put_number<N: Integer>(bytes: &mut Vec<u8>, number: N) -> Result<(), AllocError>
    ensures { OnOk result (bytes.new.items ≡ bytes.old.items ++ N.text number) }
{
    let mut buffer = Buffer::new();
    bytes.extend_from_slice(buffer.format(number).as_bytes())
}
