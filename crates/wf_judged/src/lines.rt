//! What the text of an end holds: lines of records, and lines about runs.
ghost use Rattle.std.specs.Prelude.{◌≡◌, IfOk, map};
ghost use Rattle.wf_judged.specs.Lines.{digit_then, ending_number, is_record, is_summary, record_lines, records_text, joined};
ghost use Rattle.wf_lines.specs.Lines.{lines_of};

use std::alloc::{AllocError, Global};
use wf_lines::split_line;

/// How a command ended.
#[derive(Drop)]
pub struct Ended {
    pub status: u8,
    pub text: Vec<u8>,
}

/// The lines of a text.
pub(crate) fn lines_of<'a>(alloc: Global, text: &'a [u8]) -> Result<Vec<&'a [u8]>, AllocError>
    ensures { IfOk result (λ v. map (λ l. l.now) v.items ≡ lines_of text.now) }
{
    let mut lines = Vec::new(alloc);
    let mut rest = text;
    while !rest.is_empty() {
        let (first, more) = split_line(rest);
        lines.push(first)?;
        rest = more;
    }
    Ok(lines)
}

fn is_record(line: &[u8]) -> bool
    ensures { result ≡ is_record line.now }
{
    match line {
        [] => false,
        [first, ..] => *first != b'#',
    }
}

/// The lines that hold records.
pub(crate) fn record_lines<'a>(
    alloc: Global,
    lines: &[&'a [u8]],
) -> Result<Vec<&'a [u8]>, AllocError>
    ensures { IfOk result (λ v. map (λ l. l.now) v.items ≡ record_lines (map (λ l. l.now) lines.now)) }
{
    let mut records = Vec::new(alloc);
    for line in lines {
        if is_record(line) {
            records.push(*line)?;
        }
    }
    Ok(records)
}

/// The text of the records alone.
pub(crate) fn records_text(alloc: Global, text: &[u8]) -> Result<Vec<u8>, AllocError>
    ensures { IfOk result (λ bytes. bytes.items ≡ records_text text.now) }
{
    let lines = lines_of(alloc, text)?;
    let records = record_lines(alloc, &lines)?;
    joined(alloc, &records)
}

fn joined(alloc: Global, lines: &[&[u8]]) -> Result<Vec<u8>, AllocError>
    ensures { IfOk result (λ bytes. bytes.items ≡ joined (map (λ l. l.now) lines.now)) }
{
    let mut bytes = Vec::new(alloc);
    for line in lines {
        bytes.extend_from_slice(line)?;
        bytes.push(b'\n')?;
    }
    Ok(bytes)
}

/// Whether a line tells how a run went.
pub(crate) fn is_summary(line: &[u8]) -> bool
    ensures { result ≡ is_summary line.now }
{
    line.starts_with(b"# run ")
}

fn digit_then(number: u64, byte: u8) -> u64
    ensures { result ≡ digit_then number byte }
{
    if 48 <= byte && byte <= 57 {
        number.saturating_mul(10).saturating_add((byte - 48) as u64)
    } else {
        0
    }
}

/// The number that the digits at the end of a line are.
pub(crate) fn ending_number(line: &[u8]) -> u64
    ensures { result ≡ ending_number 0 line.now }
{
    let mut number = 0;
    for byte in line {
        number = digit_then(number, *byte);
    }
    number
}
