// The real files.
ghost use Rattle.std.specs.Prelude.{◌≡◌, ◌≢◌, ◌↔◌, [], ◌<◌, ◌≤◌, ◌^◌, ◌-◌, None, Some, length, IfOk, IfSome};
ghost use Rattle.std.specs.IoError.{error_kind};
ghost use Rattle.wf_outside.specs.Outside.{ReadsFrom};

use crate::faults::FileFault;
use crate::traits::Files;
use std::alloc::Global;
use std::fs;
use std::io::{ErrorKind, Read};
use std::rt::Files as HostFiles;
use wf_val::Text;

/// The real files, by their paths. A name that is no path, and a folder, are read faults as an absent file is.
#[derive(Drop)]
pub struct DiskFiles<'a, R: HostFiles + AllocGlobal> {
    rt: &'a R,
    failed: Vec<Text>,
}

impl<'a, R: HostFiles + AllocGlobal> DiskFiles<'a, R> {
    /// Adapts the files that the runtime reaches. No read has failed.
    pub fn new(rt: &'a R) -> DiskFiles<'a, R>
        ensures { ⟦<DiskFiles<'a, R> as Files>⟧.failed result ≡ [] }
    {
        DiskFiles {
            rt,
            failed: Vec::new(rt.alloc()),
        }
    }
}

// Each error is a failed read but want of memory.
fn fault_of(error: std::io::Error) -> FileFault
    ensures memory { (result ≡ FileFault.Memory) ↔ (error_kind error ≡ ErrorKind.OutOfMemory) }
    ensures failed { (result ≡ FileFault.Failed) ↔ (error_kind error ≢ ErrorKind.OutOfMemory) }
{
    if error.kind() == ErrorKind::OutOfMemory {
        FileFault::Memory
    } else {
        FileFault::Failed
    }
}

// All the bytes that a reader has left, where there are at most limit. No more than one byte past it is read.
fn read_within<R: Read + Drop>(alloc: Global, reader: R, limit: u64) -> Result<Vec<u8>, FileFault>
    ensures within { IfOk result (λ bytes. length bytes.items ≤ limit) }

    // Where the reader tells what it has left, they are those bytes, or there are more than limit. At the last limit
    // of all nothing is said, since no read could find one byte more.
    ensures content { limit < 2 ^ 64 - 1 → IfSome (R.remaining reader) (λ bytes. ReadsFrom (Some bytes) limit result) }
{
    let mut bytes = Vec::new(alloc);
    let mut front = reader.take(limit.saturating_add(1));
    match front.read_to_end(&mut bytes) {
        Err(error) => Err(fault_of(error)),
        Ok(_) => {
            if bytes.len() as u64 > limit {
                Err(FileFault::TooLong)
            } else {
                Ok(bytes)
            }
        }
    }
}

fn read_file<R: HostFiles + AllocGlobal>(
    rt: &R,
    name: &str,
    limit: u64,
) -> Result<Vec<u8>, FileFault>
    ensures { IfOk result (λ bytes. length bytes.items ≤ limit) }
{
    let file = fs::open(rt, name).map_err(fault_of)?;
    read_within(rt.alloc(), file, limit)
}

impl<'a, R: HostFiles + AllocGlobal> Files for DiskFiles<'a, R> {
    ghost held = { λ _. None };

    ghost failed = { λ f. f.failed.items };

    fn read(&mut self, name: &Text, limit: u64) -> Result<Vec<u8>, FileFault> {
        // The room for the name comes first, so that each failed read is kept.
        let kept = name.copy(self.rt.alloc())?;
        self.failed.reserve(1)?;
        let result = read_file(self.rt, name.as_str(), limit);
        if let Err(FileFault::Failed) = &result {
            self.failed.push(kept).unwrap();
        }
        result
    }
}
