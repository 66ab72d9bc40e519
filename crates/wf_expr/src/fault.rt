//! Why a text is no template.
ghost use Rattle.std.specs.Prelude.{◌≡◌};
ghost use Rattle.wf_val.specs.Cut.{cut_u32};

use std::alloc::AllocError;

/// Why a text is no template. Places and lengths count Unicode scalar values, and are cut at the greatest `u32`.
#[derive(Drop)]
pub enum ParseFault {
    /// The text spells no template. So many characters of it can be continued to a text that does, and not one more.
    Syntax { at: u32 },
    /// The text spells a template, and an expression in it is longer than 8,192 characters: the first one's length,
    /// with the white space at both its ends, and without the `@`, `@{` and `}` around it.
    TooLong { length: u32 },
    /// Memory ran out.
    Memory,
}

impl From<AllocError> for ParseFault {
    ghost use Rattle.std.specs.Prelude.{◌≡◌};
    ghost use Rattle.wf_expr.specs.declared.fault.ParseFault.TheVariants.{Memory};

    ghost from_gives = { λ _ e. e ≡ Memory };

    fn from(_error: AllocError) -> ParseFault {
        ParseFault::Memory
    }
}

/// A count of characters, cut.
pub(crate) fn cut(count: u64) -> u32
    ensures { result ≡ cut_u32 count }
{
    count.min(u32::MAX as u64) as u32
}
