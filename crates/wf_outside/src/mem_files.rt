// Files in memory.
ghost use Rattle.std.specs.Prelude.{◌≡◌, ◌⊎◌, ◌≤◌, ℕ, List, [], ◌∷◌, ◌++◌, Some, None, length, OnOk, OnErr, IfOk, IsErrOf, if◌then◌else◌};
ghost use Rattle.std.specs.Str.{bytes_eq};
ghost use Rattle.std.specs.Option.{option_map};
ghost use Rattle.wf_outside.specs.CallPlan.{called, no_calls, planned};
ghost use Rattle.wf_outside.specs.Outside.{Tells, failed_after};

use crate::calls::Calls;
use crate::faults::FileFault;
use crate::traits::Files;
use std::alloc::{AllocError, Global};
use wf_val::Text;

/// A file's bytes under its name.
#[derive(Drop)]
pub struct MemFile {
    name: Text,
    bytes: Vec<u8>,
}

/// Files in memory, which tell what they hold.
///
/// A look-up walks the files one by one, the newest first: this is for tests with a few files.
#[derive(Drop)]
pub struct MemFiles {
    alloc: Global,
    files: Vec<MemFile>,
    failed: Vec<Text>,
    calls: Calls,
}

impl MemFiles {
    ghost use Rattle.wf_outside.specs.MemFiles.{files_held, names_failed, reads};

    /// No files.
    pub fn new(alloc: Global) -> MemFiles
        ensures empty { (name : List ℕ) → files_held result name ≡ None }
        ensures failed { names_failed result ≡ [] }
        ensures calls { reads result ≡ no_calls }
    {
        MemFiles {
            alloc,
            files: Vec::new(alloc),
            failed: Vec::new(alloc),
            calls: Calls::new(alloc),
        }
    }

    /// Adds a file, or puts other bytes in the place of those that the name had.
    pub fn add(&mut self, name: Text, bytes: &[u8]) -> Result<(), AllocError>
        ensures ok { OnOk result ((other : List ℕ) → files_held self.new other ≡ (if bytes_eq name other then Some bytes.now else files_held self.old other)) }
        ensures err { OnErr result (files_held self.new ≡ files_held self.old) }
        ensures failed { names_failed self.new ≡ names_failed self.old }
        ensures calls { reads self.new ≡ reads self.old }
    {
        let bytes = bytes.to_vec(self.alloc)?;
        self.files.insert(0, MemFile { name, bytes })?;
        Ok(())
    }

    /// Has the read of that number fail, counted from 1 over all reads of this object. A number that has passed, or 0,
    /// changes no read.
    pub fn fail_at(&mut self, call: u64) -> Result<(), AllocError>
        ensures ok { OnOk result (reads self.new ≡ planned (reads self.old) call) }
        ensures err { OnErr result (reads self.new ≡ reads self.old) }
        ensures held { files_held self.new ≡ files_held self.old }
        ensures failed { names_failed self.new ≡ names_failed self.old }
    {
        self.calls.fail_at(call)
    }

    /// How many reads failed.
    pub fn faults(&self) -> u64
        ensures { result ≡ length (names_failed self.now) }
    {
        self.failed.len() as u64
    }

    fn find(&self, name: &Text) -> Option<&[u8]>
        ensures { option_map (λ bytes. bytes.now) result ≡ files_held self.now name.now }
    {
        for file in &self.files {
            if file.name.as_str() == name.as_str() {
                return Some(file.bytes.as_slice());
            }
        }
        None
    }
}

impl Files for MemFiles {
    ghost use Rattle.wf_outside.specs.MemFiles.{WillFail, files_held, names_failed, reads};

    ghost held = { λ m. Some (files_held m) };

    ghost failed = { λ m. names_failed m };

    fn read(&mut self, name: &Text, limit: u64) -> Result<Vec<u8>, FileFault>
        ensures content { Tells (Some (files_held self.old)) name.now limit result }
        ensures within { IfOk result (λ bytes. length bytes.items ≤ limit) }
        ensures names { names_failed self.new ≡ failed_after (names_failed self.old) name.now result }
        ensures same { files_held self.new ≡ files_held self.old }

        // A read fails exactly where it is to fail or there is no such file, want of memory apart.
        ensures failed { IsErrOf result FileFault.Failed → WillFail self.old name.now }
        ensures fails { WillFail self.old name.now → IsErrOf result FileFault.Failed ⊎ IsErrOf result FileFault.Memory }
        ensures counted { reads self.new ≡ called (reads self.old) }
    {
        let due = self.calls.begin();
        match self.find(name) {
            Some(bytes) if !due => {
                if bytes.len() as u64 > limit {
                    return Err(FileFault::TooLong);
                }
                Ok(bytes.to_vec(self.alloc)?)
            }
            _ => {
                self.failed.push(name.copy(self.alloc)?)?;
                Err(FileFault::Failed)
            }
        }
    }
}
