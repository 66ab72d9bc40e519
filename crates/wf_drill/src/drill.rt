//! A drill.
ghost use Rattle.std.specs.Prelude.{◌≡◌, ◌≤◌, IfOk};
ghost use Rattle.wf_drill.specs.Seen.{IsDrill};

use crate::actions::definition;
use crate::answers::inputs;
use crate::schedules::numbers;
use std::alloc::{AllocError, Global};
use wf_val::{Schedule, Val};

/// A definition and the inputs of its run, as values, and three schedules of it.
#[derive(Drop)]
pub struct Drill {
    pub definition: Val,
    pub inputs: Val,
    /// The empty one.
    pub plain: Schedule,
    /// The numbers from 0 on.
    pub forward: Schedule,
    /// Each third number from 1 on.
    pub leaping: Schedule,
}

/// The drill of a size.
pub fn make(alloc: Global, n: u32) -> Result<Drill, AllocError>
    requires { n ≤ 400 }
    ensures { IfOk result (IsDrill n) }
{
    let definition = definition(alloc, n)?;
    let inputs = inputs(alloc, n)?;
    let forward = numbers(alloc, 0, 1, 8 * n + 8)?;
    let leaping = numbers(alloc, 1, 3, 8 * n + 8)?;
    Ok(Drill {
        definition,
        inputs,
        plain: Schedule::new(alloc),
        forward,
        leaping,
    })
}
