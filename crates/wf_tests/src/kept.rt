//! A sink that grows.
ghost use Rattle.std.specs.Prelude.{◌≡◌, [], Some};

use std::alloc::Global;
use wf_outside::{Failed, Sink};

/// A sink in memory that keeps all that it is handed, and fails only where memory runs out.
#[derive(Drop)]
pub struct Kept {
    taken: Vec<u8>,
    faults: u64,
}

impl Kept {
    ghost use Rattle.wf_tests.specs.Kept.{kept_bytes, kept_faults};

    /// A sink that has taken nothing.
    pub fn new(alloc: Global) -> Kept
        ensures taken { kept_bytes result ≡ [] }
        ensures faults { kept_faults result ≡ 0 }
    {
        Kept {
            taken: Vec::new(alloc),
            faults: 0,
        }
    }

    /// The bytes taken.
    pub fn into_bytes(self) -> Vec<u8>
        ensures { result.items ≡ kept_bytes self }
    {
        self.taken
    }
}

impl Sink for Kept {
    ghost use Rattle.wf_tests.specs.Kept.{kept_bytes, kept_faults};

    ghost taken = { λ s. Some (kept_bytes s) };

    ghost faults = { λ s. kept_faults s };

    fn put(&mut self, piece: &[u8]) -> Result<usize, Failed> {
        match self.taken.extend_from_slice(piece) {
            Ok(()) => Ok(piece.len()),
            Err(_) => {
                self.faults = self.faults.saturating_add(1);
                Err(Failed)
            }
        }
    }
}
