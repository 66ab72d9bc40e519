// What is said of an accepted definition.
ghost use Rattle.std.specs.Prelude.{◌≡◌, IfOk};
ghost use Rattle.wf_reading.specs.ReadSeen.{def_tree};
ghost use Rattle.wf_top.specs.Commands.{accepted_line};

use std::alloc::{AllocError, Global};
use wf_reading::Def;

/// The line that says how many actions a definition has, at any depth.
#[tactic(auto, unfolding(crate::specs::Commands::accepted_line))]
pub fn accepted_line(alloc: Global, def: &Def) -> Result<Vec<u8>, AllocError>
    ensures { IfOk result (λ line. line.items ≡ accepted_line (def_tree def.now)) }
{
    let count = def.top.names(alloc)?.len();
    Ok(format!(in alloc; "accepted {count}\n")?.into_bytes())
}
