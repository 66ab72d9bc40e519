//! The lines that a talk says.
ghost use Rattle.std.specs.Prelude.{◌≡◌, ◌++◌, IfOk, OnOk, flat_map, map};
ghost use Rattle.wf_talk.specs.Hearing.{refused_line, summary_line};
ghost use Rattle.wf_talk.specs.Keys.{key_line, open_lines, want_lines};
ghost use Rattle.wf_talk.specs.Seen.{want_key};

use crate::want::Want;
use std::alloc::{AllocError, Global};

// A word of the talk and an attempt, behind what there is.
fn key_line_to(
    lines: &mut Vec<u8>,
    alloc: Global,
    word: &[u8],
    want: &Want,
) -> Result<(), AllocError>
    ensures { OnOk result (lines.new.items ≡ lines.old.items ++ key_line word.now (want_key want.now)) }
{
    lines.extend_from_slice(word)?;
    lines.extend_from_slice(want.address.text(alloc)?.as_str().as_bytes())?;
    lines.extend_from_slice(format!(in alloc; " {}\n", want.attempt)?.as_bytes())?;
    Ok(())
}

// A line for each attempt, with this word.
fn key_lines(alloc: Global, word: &[u8], wants: &[Want]) -> Result<Vec<u8>, AllocError>
    ensures { IfOk result (λ lines. lines.items ≡ flat_map (key_line word.now) (map want_key wants.now)) }
{
    let mut lines = Vec::new(alloc);
    for want in wants {
        key_line_to(&mut lines, alloc, word, want)?;
    }
    Ok(lines)
}

/// A line for each attempt that waits for its answer now and didn't wait before.
pub(crate) fn want_lines(alloc: Global, wants: &[Want]) -> Result<Vec<u8>, AllocError>
    ensures { IfOk result (λ lines. lines.items ≡ want_lines (map want_key wants.now)) }
{
    key_lines(alloc, b"# want ", wants)
}

/// A line for each attempt that still waits at the end.
pub(crate) fn open_lines(alloc: Global, wants: &[Want]) -> Result<Vec<u8>, AllocError>
    ensures { IfOk result (λ lines. lines.items ≡ open_lines (map want_key wants.now)) }
{
    key_lines(alloc, b"# open ", wants)
}

/// The line of a line that is refused.
pub(crate) fn refused_line(alloc: Global, number: u64, words: &[u8]) -> Result<Vec<u8>, AllocError>
    ensures { IfOk result (λ line. line.items ≡ refused_line number words.now) }
{
    let mut line = format!(in alloc; "# refused {number} ")?.into_bytes();
    line.extend_from_slice(words)?;
    line.push(b'\n')?;
    Ok(line)
}

/// The line that counts the lines.
pub(crate) fn summary_line(alloc: Global, number: u64, refused: u64) -> Result<Vec<u8>, AllocError>
    ensures { IfOk result (λ line. line.items ≡ summary_line number refused) }
{
    Ok(format!(in alloc; "# session lines {number} refused {refused}\n")?.into_bytes())
}
