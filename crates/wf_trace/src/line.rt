//! The front of a line.
ghost use Rattle.std.specs.Prelude.{◌≡◌, ◌∷◌, ◌++◌, [], codes, IfOk, OnOk};
ghost use Rattle.wf_val.specs.Address.{address_text};
ghost use Rattle.wf_trace.specs.Told.{line_at};

use std::alloc::{AllocError, Global};
use wf_val::{Indexes, Name, push_indexes};

// Adds a text as it is.
pub(crate) fn add(line: &mut Vec<u8>, text: &str) -> Result<(), AllocError>
    ensures { OnOk result (line.new.items ≡ line.old.items ++ text.now) }
{
    line.extend_from_slice(text.as_bytes())?;
    Ok(())
}

// A kind of event and the address, with a blank between.
#[tactic(auto, using(std::proofs::Common::append_assoc))]
pub(crate) fn front(
    alloc: Global,
    kind: &str,
    name: &Name,
    at: &Indexes,
) -> Result<Vec<u8>, AllocError>
    ensures { IfOk result (λ line. line.items ≡ kind.now ++ 32 ∷ address_text (record { name = name.now; at = at.now })) }
{
    // Most lines are shorter.
    let mut line = String::with_capacity(alloc, 64)?;
    line.push_str(kind)?;
    line.push_str(" ")?;
    line.push_str(name.as_str())?;
    push_indexes(&mut line, at.as_slice())?;
    Ok(line.into_bytes())
}

/// An action was passed over.
#[tactic(auto, using(crate::proofs::LineLemmas::bare_line))]
pub fn skip_line(alloc: Global, name: &Name, at: &Indexes) -> Result<Vec<u8>, AllocError>
    ensures { IfOk result (λ line. line.items ≡ line_at (codes "Skip") name.now at.now []) }
{
    front(alloc, "Skip", name, at)
}
