use std::alloc::AllocError;
use wf_val::Text;

/// Why bytes are no value. Pointers are those of RFC 6901, and the least by bytes.
#[derive(Drop)]
pub enum JsonFault {
    /// They are no JSON text of UTF-8, or it nests deeper than 127.
    NotJson,
    /// A number has a fraction or an exponent, is `-0`, or is out of the range of `i64`.
    NotWhole { pointer: Text },
    /// A list or an object stands at nesting 121.
    TooDeep { pointer: Text },
    /// Memory ran out.
    Memory,
}

impl From<AllocError> for JsonFault {
    ghost use Rattle.std.specs.Prelude.{◌≡◌};
    ghost use Rattle.wf_json.specs.declared.fault.JsonFault.{JsonFault};

    ghost from_gives = { λ _ e. e ≡ JsonFault.Memory };

    fn from(_error: AllocError) -> JsonFault {
        JsonFault::Memory
    }
}

/// What a place of a JSON text is refused for.
#[derive(Clone, Copy, PartialEq, Eq)]
pub(crate) enum Flaw {
    NotWhole,
    TooDeep,
}
