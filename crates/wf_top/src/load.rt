// The reading of one file in its turn.
ghost use Rattle.std.specs.Prelude.{◌≡◌, ℕ, List, Option, IfOk, IfErr, Err};
ghost use Rattle.std.specs.Option.{option_map};
ghost use Rattle.wf_top.specs.Plan.{Plan, Reads, MayGive};
ghost use Rattle.wf_top.specs.Served.{Follows};
ghost use Rattle.wf_top.specs.declared.load.Stop.TheVariants.{Memory};

use std::alloc::{AllocError, AllocFailed, Global};
use wf_outside::{FileFault, Files};
use wf_val::Text;

/// Why a command has nothing of its own to say.
#[derive(Drop)]
pub enum Stop {
    CannotRead(Text),
    Memory,
}

impl From<AllocError> for Stop {
    ghost from_gives = { λ _ e. e ≡ Memory };

    fn from(_: AllocError) -> Self {
        Stop::Memory
    }
}

impl<T: Drop> From<AllocFailed<T>> for Stop {
    ghost from_gives = { λ _ e. e ≡ Memory };

    fn from(_: AllocFailed<T>) -> Self {
        Stop::Memory
    }
}

/// The bytes of a file, or `None` where it has more than `limit`.
pub fn load<F: Files>(
    alloc: Global,
    files: &mut F,
    name: &Text,
    limit: u64,
) -> Result<Option<Vec<u8>>, Stop>
    ensures gives { IfOk result (λ file. MayGive (F.held files.old) name.now limit (option_map (λ bytes. bytes.items) file) × (F.failed files.new ≡ F.failed files.old)) }

    // Whatever the plan has next, a stop here is one that the reading of this name comes to.
    ensures stops { IfErr result (λ stop. (next : Option (List ℕ) → Plan) → Follows (F.held files.old) (Reads name.now limit next) (F.failed files.old) (F.failed files.new) (Err stop)) }
    ensures same { F.held files.new ≡ F.held files.old }
{
    match files.read(name, limit) {
        Ok(bytes) => Ok(Some(bytes)),
        Err(FileFault::TooLong) => Ok(None),
        Err(FileFault::Failed) => Err(Stop::CannotRead(name.copy(alloc)?)),
        Err(FileFault::Memory) => Err(Stop::Memory),
    }
}
