use std::alloc::AllocError;
use wf_val::Text;

/// Why a value is no inputs.
#[derive(Drop)]
pub enum InputsFault {
    /// It isn't of the form of inputs. The pointer (RFC 6901) is the least by bytes.
    Form { pointer: Text },
    /// Two answers are for one attempt; the least, by address and then by number.
    Twice { address: Text, attempt: u32 },
    /// The moment is no timestamp.
    Moment,
    /// Memory ran out.
    Memory,
}

impl From<AllocError> for InputsFault {
    ghost use Rattle.std.specs.Prelude.{◌≡◌};
    ghost use Rattle.wf_answers.specs.declared.fault.InputsFault.{InputsFault};

    ghost from_gives = { λ _ e. e ≡ InputsFault.Memory };

    fn from(_error: AllocError) -> InputsFault {
        InputsFault::Memory
    }
}

/// Why a value is no answer.
#[derive(Drop)]
pub enum AnswerFault {
    /// It isn't of the form of an answer. The pointer (RFC 6901), from the value on, is the least by bytes.
    Form { pointer: Text },
    /// Memory ran out.
    Memory,
}

impl From<AllocError> for AnswerFault {
    ghost use Rattle.std.specs.Prelude.{◌≡◌};
    ghost use Rattle.wf_answers.specs.declared.fault.AnswerFault.{AnswerFault};

    ghost from_gives = { λ _ e. e ≡ AnswerFault.Memory };

    fn from(_error: AllocError) -> AnswerFault {
        AnswerFault::Memory
    }
}
