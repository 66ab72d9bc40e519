//! A definition that was read.
ghost use Rattle.wf_reading.specs.Read.{IsRead, tree_of_parts};

use std::alloc::AllocError;
use wf_def::{Graph, Outputs, Params, Triggers};
use wf_val::{Digest, Fields, Text};

/// A workflow definition that was read: it breaks none of the rules of `wf_form`.
#[derive(Drop)]
pub struct Def {
    /// The SHA-256 (FIPS 180-4) of its compact text (RFC 8259), members in byte order of their names. A wrapper round it doesn't count.
    pub digest: Digest,
    pub parameters: Params,
    /// The values that a wrapper gives to parameters, also to such as aren't declared.
    pub given: Fields,
    pub triggers: Triggers,
    /// Its graph at the top.
    pub top: Graph,
    pub outputs: Outputs,
    ghost read: { ∥ IsRead (tree_of_parts digest parameters given triggers top outputs) ∥₁ },
}

/// Why a value is no definition.
#[derive(Drop)]
pub enum RuleFault {
    /// The least number, 1 to 8, of a rule that the definition breaks, and the least pointer (RFC 6901), from the definition on, to what
    /// breaks it.
    Rule { rule: u8, pointer: Text },
    Memory,
}

impl From<AllocError> for RuleFault {
    ghost use Rattle.std.specs.Prelude.{◌≡◌};
    ghost use Rattle.wf_reading.specs.declared.definition.RuleFault.{RuleFault};

    ghost from_gives = { λ _ e. e ≡ RuleFault.Memory };

    fn from(_error: AllocError) -> RuleFault {
        RuleFault::Memory
    }
}
