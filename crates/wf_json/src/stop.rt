use json::Invalid;
use std::alloc::AllocError;

/// Why a reading stopped.
#[derive(Drop)]
pub(crate) enum Stop {
    /// The text is no JSON, whatever else is wrong with it.
    NotJson,
    /// A number isn't whole, or a list or an object is too deep. What follows is unread, so the
    /// text may still be no JSON.
    Flawed,
    /// Memory ran out.
    Memory,
}

impl From<AllocError> for Stop {
    ghost use Rattle.std.specs.Prelude.{◌≡◌};
    ghost use Rattle.wf_json.specs.declared.stop.Stop.{Stop};

    ghost from_gives = { λ _ e. e ≡ Stop.Memory };

    fn from(_error: AllocError) -> Stop {
        Stop::Memory
    }
}

impl From<Invalid> for Stop {
    ghost use Rattle.std.specs.Prelude.{◌≡◌};
    ghost use Rattle.wf_json.specs.declared.stop.Stop.{Stop};

    ghost from_gives = { λ _ e. e ≡ Stop.NotJson };

    fn from(_error: Invalid) -> Stop {
        Stop::NotJson
    }
}
