// The standard input and the standard output.
ghost use Rattle.std.specs.Prelude.{◌≡◌, None};

use crate::faults::Failed;
use crate::traits::{Sink, Source};
use std::io::Read;

/// The standard input. It keeps nothing back: what a call doesn't give stays in the stream.
#[derive(Drop)]
pub struct StdSource<'a, R: Input> {
    rt: &'a R,
    faults: u64,
}

impl<'a, R: Input> StdSource<'a, R> {
    /// Adapts the standard input of the runtime. No call has failed.
    pub fn new(rt: &'a R) -> StdSource<'a, R>
        ensures { ⟦<StdSource<'a, R> as Source>⟧.faults result ≡ 0 }
    {
        StdSource { rt, faults: 0 }
    }
}

impl<'a, R: Input> Source for StdSource<'a, R> {
    ghost left = { λ _. None };

    ghost faults = { λ s. s.faults };

    fn next(&mut self, into: &mut [u8]) -> Result<usize, Failed> {
        match self.rt.reader().read(into) {
            Ok(count) => Ok(count),
            Err(_) => {
                self.faults = self.faults.saturating_add(1);
                Err(Failed)
            }
        }
    }
}

/// The standard output. It keeps nothing back: what a call takes was handed to the system, and a stream that takes
/// nothing has failed.
#[derive(Drop)]
pub struct StdSink<'a, R: Print> {
    rt: &'a R,
    faults: u64,
}

impl<'a, R: Print> StdSink<'a, R> {
    /// Adapts the standard output of the runtime. No call has failed.
    pub fn new(rt: &'a R) -> StdSink<'a, R>
        ensures { ⟦<StdSink<'a, R> as Sink>⟧.faults result ≡ 0 }
    {
        StdSink { rt, faults: 0 }
    }
}

impl<'a, R: Print> Sink for StdSink<'a, R> {
    ghost taken = { λ _. None };

    ghost faults = { λ s. s.faults };

    fn put(&mut self, piece: &[u8]) -> Result<usize, Failed> {
        match self.rt.write_some(piece) {
            Ok(count) if count > 0 => Ok(count),
            _ => {
                self.faults = self.faults.saturating_add(1);
                Err(Failed)
            }
        }
    }
}
