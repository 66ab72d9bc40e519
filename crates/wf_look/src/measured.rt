//! A text that is put together and measured.
ghost use Rattle.std.specs.Prelude.{◌≡◌, [], IfOk, OnOk};
ghost use Rattle.wf_val.specs.Arguments.{seen};
ghost use Rattle.wf_val.specs.Seen.{tree};
ghost use Rattle.wf_json.specs.Json as json_text;
ghost use Rattle.wf_look.specs.Measured.{with_more, measured_answer};

use std::alloc::{AllocError, Global};
use std::marker::Model;
use wf_val::{EvalFault, Text, Val};

// How many bytes a text may have that fits.
const LIMIT: u64 = (1 << 20) - 1;

/// What is kept of a text that is put together, and how long the text is. Once it is too long no more is kept, but its
/// length is counted on, cut to the greatest u64.
#[derive(Drop)]
pub struct Measured {
    kept: String,
    length: u64,
}

impl Model for Measured {
    ghost use Rattle.std.specs.Prelude.{string_bytes};
    ghost use Rattle.wf_look.specs.Measured as definition;

    ghost Value = { definition.Measured };

    ghost view = { λ m. (string_bytes m.kept, m.length) };
}

impl Measured {
    /// The empty text.
    pub fn new(alloc: Global) -> Self
        ensures { result ≡ ([], 0) }
    {
        Measured {
            kept: String::new(alloc),
            length: 0,
        }
    }

    /// Puts a part behind what is there.
    pub fn push(&mut self, part: &str) -> Result<(), AllocError>
        ensures { OnOk result (self.new ≡ with_more part.now self.old) }
    {
        self.length = self.length.saturating_add(part.len() as u64);
        if self.length <= LIMIT {
            self.kept.push_str(part)?;
        }
        Ok(())
    }

    /// The whole, where it fits.
    pub fn answer(self) -> Result<Val, EvalFault>
        ensures { seen result ≡ measured_answer self }
    {
        if self.length <= LIMIT {
            Ok(Val::Text(Text::from_string(self.kept)))
        } else {
            Err(EvalFault::TooBig {
                depth: 0,
                weight: self.length.saturating_add(1),
            })
        }
    }
}

/// A value as text; a text is moved.
pub fn as_text(alloc: Global, value: Val) -> Result<Text, AllocError>
    ensures { IfOk result (λ s. s ≡ json_text.text (tree value)) }
{
    match value {
        Val::Text(text) => Ok(text),
        other => wf_json::text(alloc, &other),
    }
}
