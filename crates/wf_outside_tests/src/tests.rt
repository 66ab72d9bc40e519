ghost use Rattle.std.specs.Prelude.{◌≡◌, ◌+◌, ◌<◌, ◌≤◌, IfOk, length, string_len};

use std::alloc::{Allocator, Global};
use std::fmt::Display;
use std::io::{self, BufRead, ErrorKind, Lines, Read};
use std::process::Abort;
use std::test::Fail;
use std::{env, fs, process};
use wf_outside::{
    DiskFiles, Failed, FileFault, Files, MemFiles, MemSink, MemSource, Sink, Source, StdSink,
    StdSource,
};
use wf_val::Text;

// A limit of a read, and the text or the fault that it is to give.
type ReadRow = (u64, Result<&'static str, FileFault>);

fn check_read<F: Files>(
    rt: &impl Abort,
    alloc: Global,
    files: &mut F,
    name: &str,
    row: ReadRow,
) -> Result<(), Fail> {
    let (limit, wanted) = row;
    let name = Text::of(alloc, name)?;
    match (files.read(&name, limit), wanted) {
        (Ok(bytes), Ok(text)) => assert_eq!(rt; bytes.as_slice(), text.as_bytes()),
        (Err(fault), Err(wanted)) => assert_eq!(rt; fault, wanted),
        _ => assert!(rt; false, "at {} within {limit}", name.as_str()),
    }
    Ok(())
}

fn check_reads<F: Files>(
    rt: &impl Abort,
    alloc: Global,
    files: &mut F,
    name: &str,
    rows: &[ReadRow],
) -> Result<(), Fail> {
    for row in rows {
        check_read(rt, alloc, files, name, *row)?;
    }
    Ok(())
}

fn files_in_memory(alloc: Global) -> Result<MemFiles, Fail> {
    let mut files = MemFiles::new(alloc);
    files.add(Text::of(alloc, "d.json")?, b"first")?;
    files.add(Text::of(alloc, "other")?, b"other")?;
    files.add(Text::of(alloc, "d.json")?, b"second")?;
    files.fail_at(3)?;
    Ok(files)
}

const NO_FILE: ReadRow = (6, Err(FileFault::Failed));

#[test]
fn files_in_memory_fail_where_they_are_to(rt: HostRuntime) -> Result<(), Fail> {
    let alloc = rt.alloc();
    let mut files = files_in_memory(alloc)?;
    // the third read is to fail
    let rows = [
        (6, Ok("second")),
        (5, Err(FileFault::TooLong)),
        NO_FILE,
        (6, Ok("second")),
    ];
    check_reads(&rt, alloc, &mut files, "d.json", &rows)?;
    check_reads(&rt, alloc, &mut files, "none", &[NO_FILE])?;
    check_reads(&rt, alloc, &mut files, "D.json", &[NO_FILE])?;
    check_reads(&rt, alloc, &mut files, "other", &[(5, Ok("other"))])?;
    assert_eq!(rt; files.faults(), 3);
    Ok(())
}

// A call on a source with room for four bytes, and the bytes or the fault that it is to give.
fn check_gives<S: Source>(
    rt: &impl Abort,
    source: &mut S,
    rows: &[Result<&str, Failed>],
) -> Result<(), Fail> {
    for wanted in rows {
        let mut into = [b'.'; 4];
        match (source.next(&mut into), *wanted) {
            (Ok(count), Ok(text)) => {
                assert_eq!(rt; count, text.len());
                assert!(rt; into.starts_with(text.as_bytes()));
            }
            (given, wanted) => assert!(rt; given.is_err() && wanted.is_err()),
        }
    }
    Ok(())
}

#[test]
fn a_source_in_memory_fails_in_mid_stream(rt: HostRuntime) -> Result<(), Fail> {
    let mut source = MemSource::new(rt.alloc(), b"abcdef")?;
    source.fail_at(2)?;
    check_gives(
        &rt,
        &mut source,
        &[Ok("abcd"), Err(Failed), Ok("ef"), Ok(""), Ok("")],
    )?;
    assert_eq!(rt; source.faults(), 1);
    assert!(rt; source.left().is_empty());
    Ok(())
}

// A piece that is put into a sink, and how much of it is to be taken.
fn check_takes<S: Sink>(
    rt: &impl Abort,
    sink: &mut S,
    rows: &[(&str, Result<usize, Failed>)],
) -> Result<(), Fail> {
    for (piece, wanted) in rows {
        if !piece.is_empty() {
            assert_eq!(rt; sink.put(piece.as_bytes()), *wanted, "at {piece}");
        }
    }
    Ok(())
}

#[test]
fn a_sink_in_memory_fails_in_mid_stream_and_where_it_is_full(rt: HostRuntime) -> Result<(), Fail> {
    let mut sink = MemSink::new(rt.alloc(), 4, 6)?;
    sink.fail_at(2)?;
    check_takes(
        &rt,
        &mut sink,
        &[
            ("abcdefgh", Ok(4)),
            ("efgh", Err(Failed)),
            ("efgh", Ok(2)),
            ("gh", Err(Failed)),
        ],
    )?;
    assert_eq!(rt; sink.taken(), b"abcdef".as_slice());
    assert_eq!(rt; sink.faults(), 2);
    Ok(())
}

#[test]
fn a_real_file_is_read_within_its_limit(rt: HostRuntime) -> Result<(), Fail> {
    let alloc = rt.alloc();
    let folder = env::temp_dir(&rt)?;
    let own = format!(in alloc; "wf_outside_{}", process::id(rt.process()))?;
    let path = folder.join(alloc, own.as_str())?;
    let mut files = DiskFiles::new(&rt);
    check_reads(&rt, alloc, &mut files, path.as_str(), &[NO_FILE])?;
    fs::write(&rt, path.as_str(), "eleven byte")?;
    let rows = [
        (11, Ok("eleven byte")),
        (u64::MAX, Ok("eleven byte")),
        (10, Err(FileFault::TooLong)),
        (0, Err(FileFault::TooLong)),
    ];
    check_reads(&rt, alloc, &mut files, path.as_str(), &rows)?;
    fs::remove_file(&rt, path.as_str())?;
    check_reads(&rt, alloc, &mut files, path.as_str(), &[NO_FILE])?;
    // a folder can be opened, and its read fails
    check_reads(&rt, alloc, &mut files, folder.as_str(), &[NO_FILE])?;
    check_reads(&rt, alloc, &mut files, "", &[NO_FILE])
}

// A stream that fails at each read.
#[derive(Clone, Copy)]
struct Broken;

impl Read for Broken {
    fn read(&mut self, _: &mut [u8]) -> io::Result<usize> {
        Err(io::Error::from(ErrorKind::Other))
    }
}

impl BufRead for Broken {
    fn fill_buf(&mut self) -> io::Result<&[u8]> {
        Err(io::Error::from(ErrorKind::Other))
    }

    fn consume(&mut self, _: usize) {}
}

// A runtime whose standard input is this stream, from its beginning at each call.
#[derive(Drop)]
struct In<S>(S);

impl<S: BufRead + Copy + Drop> Input for In<S> {
    type Reader = S;

    fn read_line<A: Allocator + Clone>(&self, buf: &mut String<A>) -> io::Result<usize>
        ensures ok { IfOk result (λ n. string_len buf.new ≡ string_len buf.old + n) }
    {
        self.reader().read_line(buf)
    }

    fn lines<A: Allocator>(&self, alloc: A) -> Lines<S, A> {
        self.reader().lines(alloc)
    }

    fn reader(&self) -> S {
        self.0
    }
}

#[test]
fn a_standard_source_gives_a_piece_or_fails(rt: HostRuntime) -> Result<(), Fail> {
    let mut into = [0; 4];
    let host = In(b"abcdef".as_slice());
    let mut source = StdSource::new(&host);
    assert_eq!(rt; source.next(&mut into), Ok(4));
    assert_eq!(rt; into, *b"abcd");
    let host = In(b"".as_slice());
    let mut source = StdSource::new(&host);
    assert_eq!(rt; source.next(&mut into), Ok(0));
    let host = In(Broken);
    let mut source = StdSource::new(&host);
    assert_eq!(rt; source.next(&mut into), Err(Failed));
    Ok(())
}

// A runtime whose standard output takes so many bytes a call, or fails.
#[derive(Drop)]
struct Out(Option<usize>);

impl Print for Out {
    fn print<D: Display + Drop>(&self, _: D) -> io::Result<()> {
        Ok(())
    }

    fn println<D: Display + Drop>(&self, _: D) -> io::Result<()> {
        Ok(())
    }

    fn write_all(&self, _: &[u8]) -> io::Result<()> {
        Ok(())
    }

    fn write_some(&self, bytes: &[u8]) -> io::Result<usize>
        ensures bound { IfOk result (λ n. n ≤ length bytes.now) }
    {
        match self.0 {
            Some(most) => Ok(most.min(bytes.len())),
            None => Err(io::Error::from(ErrorKind::Other)),
        }
    }
}

#[test]
fn a_standard_sink_takes_a_piece_or_fails(rt: HostRuntime) -> Result<(), Fail> {
    check_takes(&rt, &mut StdSink::new(&Out(Some(9))), &[("abcde", Ok(5))])?;
    check_takes(&rt, &mut StdSink::new(&Out(Some(3))), &[("abcde", Ok(3))])?;
    check_takes(
        &rt,
        &mut StdSink::new(&Out(Some(0))),
        &[("abcde", Err(Failed))],
    )?;
    check_takes(
        &rt,
        &mut StdSink::new(&Out(None)),
        &[("abcde", Err(Failed))],
    )?;
    check_takes(&rt, &mut StdSink::new(&rt), &[("one piece\n", Ok(10))])
}
