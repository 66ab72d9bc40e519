//! Whole calls of the program, as rows of the standard input: files and words in, status and text out.
//!
//! Each row hands `wf_top::serve_words` files, a source and a sink in memory, and prints the status that it answers, what failed and
//! every byte that the sink took. A line of the standard input is one of these:
//!
//! - `file NAME TEXT`: from here on a file of this name holds the text, and nothing else;
//! - `bytes NAME TEXT`: the same, where `\n` in the text stands for a line feed, `\r` for a carriage return, `\t` for a tab and `\\` for a
//!   backslash;
//! - `pad SIZE`: the file of the last such line is as long as that many bytes, by blanks behind its text;
//! - `input TEXT`: from here on the source holds the text, with escapes as above, and nothing else; at first it holds some bytes that no
//!   command but `session` reads;
//! - `indent SIZE`: the source is as long as that many bytes, by blanks in front of its text;
//! - `fail read N`, `fail write N`, `fail input N`: in the next row the Nth read of a file, the Nth write, or the Nth call of the source,
//!   fails;
//! - `pieces SIZE`: in the next row a write takes at most so many bytes;
//! - `words WORD ..`: a row. It is answered at once;
//! - `check TEXT`: a row of `check` on a file that holds the text, answered in one line: the status and what is written.
//!
//! Other lines say what the rows below them show. The texts that are wanted come from the program's requirements and from outside
//! tools, never from the program: `fuzz/owed.py` writes them. This program is no part of the engine.
#![tactic(auto)]

use std::alloc::{AllocError, Global};
use std::io;
use wf_outside::{MemFiles, MemSink, MemSource};
use wf_printed::Printer;
use wf_session::Talker;
use wf_top::serve_words;
use wf_val::Text;

// As many bytes as a sink has room for.
const ROOM: u64 = 67_108_864;

// A file of the rows below it.
#[derive(Drop)]
struct Held {
    name: Text,
    bytes: Vec<u8>,
}

// What fails in the next row: the number of a read, of a write and of a call of the source, where 0 is none, and how many bytes a write
// takes at most.
#[derive(Clone, Copy)]
struct Trouble {
    read: u64,
    write: u64,
    input: u64,
    piece: u64,
}

const NO_TROUBLE: Trouble = Trouble {
    read: 0,
    write: 0,
    input: 0,
    piece: ROOM,
};

// The number that a text is in decimal, or 0 where it is none.
fn number(text: &str) -> u64 {
    text.parse::<u64>().unwrap_or(0)
}

fn with_trouble(trouble: Trouble, line: &str) -> Trouble {
    let mut more = trouble;
    if let Some(count) = line.strip_prefix("fail read ") {
        more.read = number(count);
    }
    if let Some(count) = line.strip_prefix("fail write ") {
        more.write = number(count);
    }
    if let Some(count) = line.strip_prefix("fail input ") {
        more.input = number(count);
    }
    if let Some(size) = line.strip_prefix("pieces ") {
        more.piece = number(size);
    }
    more
}

// Pushes what a backslash and this byte stand for: both, where the byte is none of those that stand for another.
fn push_escaped(bytes: &mut Vec<u8>, byte: u8) -> Result<(), AllocError> {
    match byte {
        b'n' => bytes.push(b'\n')?,
        b'r' => bytes.push(b'\r')?,
        b't' => bytes.push(b'\t')?,
        b'\\' => bytes.push(b'\\')?,
        other => {
            bytes.push(b'\\')?;
            bytes.push(other)?;
        }
    }
    Ok(())
}

// The bytes that a text with escapes stands for.
fn unescaped(alloc: Global, text: &str) -> Result<Vec<u8>, AllocError> {
    let mut bytes = Vec::new(alloc);
    let mut escaped = false;
    for byte in text.as_bytes() {
        if escaped {
            push_escaped(&mut bytes, *byte)?;
        } else if *byte != b'\\' {
            bytes.push(*byte)?;
        }
        escaped = !escaped && *byte == b'\\';
    }
    Ok(bytes)
}

// Holds a file, in the place of one that has its name.
fn hold(alloc: Global, held: &mut Vec<Held>, name: &str, bytes: Vec<u8>) -> Result<(), AllocError> {
    held.retain(|file| file.name.as_str() != name);
    held.push(Held {
        name: Text::of(alloc, name)?,
        bytes,
    })?;
    Ok(())
}

// Holds the file that a line names and spells.
fn hold_line(alloc: Global, held: &mut Vec<Held>, line: &str) -> Result<(), AllocError> {
    if let Some(file) = line.strip_prefix("file ") {
        let (name, text) = file.split_once(' ').unwrap_or((file, ""));
        hold(alloc, held, name, text.as_bytes().to_vec(alloc)?)?;
    }
    if let Some(file) = line.strip_prefix("bytes ") {
        let (name, text) = file.split_once(' ').unwrap_or((file, ""));
        hold(alloc, held, name, unescaped(alloc, text)?)?;
    }
    Ok(())
}

fn pad(held: &mut Vec<Held>, size: u64) -> Result<(), AllocError> {
    if let Some(file) = held.last_mut() {
        file.bytes.resize(size as usize, b' ')?;
    }
    Ok(())
}

// The text behind as many blanks as make it that long.
fn indented(alloc: Global, text: &[u8], size: u64) -> Result<Vec<u8>, AllocError> {
    let mut bytes = Vec::new(alloc);
    bytes.resize((size as usize).saturating_sub(text.len()), b' ')?;
    bytes.extend_from_slice(text)?;
    Ok(bytes)
}

fn files_of(alloc: Global, held: &[Held], trouble: Trouble) -> Result<MemFiles, AllocError> {
    let mut files = MemFiles::new(alloc);
    files.fail_at(trouble.read)?;
    for file in held {
        files.add(file.name.copy(alloc)?, &file.bytes)?;
    }
    Ok(files)
}

fn words_of(alloc: Global, line: &str) -> Result<Vec<Text>, AllocError> {
    let mut words = Vec::new(alloc);
    for word in line.split_whitespace() {
        words.push(Text::of(alloc, word)?)?;
    }
    Ok(words)
}

fn source_of(alloc: Global, input: &[u8], trouble: Trouble) -> Result<MemSource, AllocError> {
    let mut source = MemSource::new(alloc, input)?;
    source.fail_at(trouble.input)?;
    Ok(source)
}

fn sink_of(alloc: Global, trouble: Trouble) -> Result<MemSink, AllocError> {
    let mut sink = MemSink::new(alloc, trouble.piece.max(1), ROOM)?;
    sink.fail_at(trouble.write)?;
    Ok(sink)
}

fn answer<R: Print + AllocGlobal>(
    rt: &R,
    held: &[Held],
    input: &[u8],
    trouble: Trouble,
    line: &str,
) -> io::Result<()> {
    let alloc = rt.alloc();
    let words = words_of(alloc, line)?;
    let mut files = files_of(alloc, held, trouble)?;
    let mut source = source_of(alloc, input, trouble)?;
    let mut sink = sink_of(alloc, trouble)?;
    let status = serve_words(
        alloc,
        &words,
        &mut files,
        &Printer,
        &Talker,
        &mut source,
        &mut sink,
    );
    println!(rt;
        "words {line}: status {status}, failed reads {}, failed writes {}, left in the source {}",
        files.faults(),
        sink.faults(),
        source.left().len()
    )?;
    match std::str::from_utf8(sink.taken()) {
        Ok(text) => println!(rt; "{text}"),
        Err(_) => println!(rt; "not UTF-8"),
    }
}

// Answers a row of `check`.
fn answer_check<R: Print + AllocGlobal>(rt: &R, definition: &str) -> io::Result<()> {
    let alloc = rt.alloc();
    let words = words_of(alloc, "check definition")?;
    let mut files = MemFiles::new(alloc);
    files.add(Text::of(alloc, "definition")?, definition.as_bytes())?;
    let mut source = MemSource::new(alloc, b"")?;
    let mut sink = sink_of(alloc, NO_TROUBLE)?;
    let status = serve_words(
        alloc,
        &words,
        &mut files,
        &Printer,
        &Talker,
        &mut source,
        &mut sink,
    );
    match std::str::from_utf8(sink.taken()) {
        Ok(text) => println!(rt; "{status} {}", text.trim_end()),
        Err(_) => println!(rt; "{status} not UTF-8"),
    }
}

fn main(rt: HostRuntime) -> io::Result<()> {
    let alloc = rt.alloc();
    let rows = io::read_to_string(alloc, rt.reader())?;
    let mut held: Vec<Held> = Vec::new(alloc);
    let mut input = b"untouched".to_vec(alloc)?;
    let mut trouble = NO_TROUBLE;
    for line in rows.lines() {
        trouble = with_trouble(trouble, line);
        hold_line(alloc, &mut held, line)?;
        if let Some(size) = line.strip_prefix("pad ") {
            pad(&mut held, number(size))?;
        }
        if let Some(text) = line.strip_prefix("input ") {
            input = unescaped(alloc, text)?;
        }
        if let Some(size) = line.strip_prefix("indent ") {
            input = indented(alloc, &input, number(size))?;
        }
        if let Some(definition) = line.strip_prefix("check ") {
            answer_check(&rt, definition)?;
        }
        if let Some(words) = line.strip_prefix("words ") {
            answer(&rt, &held, &input, trouble, words)?;
            trouble = NO_TROUBLE;
        }
    }
    Ok(())
}
