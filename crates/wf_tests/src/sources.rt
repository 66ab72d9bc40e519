//! The bytes of files that tests name.
ghost use Rattle.std.specs.Prelude.{◌≡◌, ℕ, List, None, Some, IfOk, bytes_eq, option_map, if◌then◌else◌};
ghost use Rattle.wf_tests.specs.Sources.{IsThere, Keeps, source_named};

use std::alloc::{AllocError, Global};
use std::collections::BTreeMap;
use wf_val::Text;

/// The bytes of files, by the names that tests have for them.
#[derive(Drop)]
pub(crate) struct Sources {
    bytes: BTreeMap<Text, Vec<u8>>,
}

impl Sources {
    /// No files.
    pub(crate) fn new(alloc: Global) -> Sources
        ensures { (name : List ℕ) → source_named result name ≡ None }
    {
        Sources {
            bytes: BTreeMap::new(alloc),
        }
    }

    /// The bytes of the file of a name.
    pub(crate) fn get(&self, name: &Text) -> Option<&[u8]>
        ensures { option_map (λ b. b.now) result ≡ source_named self.now name.now }
    {
        match self.bytes.get(name) {
            Some(bytes) => Some(bytes.as_slice()),
            None => None,
        }
    }

    /// With one file more, or in the place of the one that has its name.
    pub(crate) fn with(
        self,
        alloc: Global,
        name: &Text,
        bytes: Vec<u8>,
    ) -> Result<Sources, AllocError>
        ensures put { IfOk result (λ s. (other : List ℕ) → source_named s other
            ≡ (if bytes_eq name.now other then Some bytes.items else source_named self other)) }
        ensures there { IfOk result (λ s. IsThere s name.now) }
        ensures keeps { IfOk result (λ s. Keeps self s) }
    {
        let mut all = self.bytes;
        let _earlier = all.insert(name.copy(alloc)?, bytes)?;
        Ok(Sources { bytes: all })
    }
}
