//! Functions that draw a word.
ghost use Rattle.std.specs.Prelude.{◌≡◌, Ok};
ghost use Rattle.wf_val.specs.Arguments.{seen};
ghost use Rattle.wf_functions.specs.Draws.{draw_of};
ghost use Rattle.wf_look.specs.Meets.{Meets};
ghost use Rattle.wf_look.specs.Drawn.{drawn};

use crate::look::Look;
use std::alloc::Global;
use wf_functions::{Draw, draw_of, made};
use wf_val::{EvalFault, Fun, Val, Vals, bounded};

/// What a function makes of the next word, which is drawn once these arguments pass.
pub fn drawn_by<L: Look>(
    alloc: Global,
    function: Fun,
    values: &Vals,
    look: &mut L,
) -> Result<Val, EvalFault>
    ensures value { Meets (seen result) (drawn (L.told look.old) (draw_of function values.now) (L.drawn look.old)) (L.drawn look.new) }
    ensures same { L.told look.new ≡ L.told look.old }
    ensures held { L.held look.new ≡ L.held look.old }
{
    let draw = draw_of(function, values)?;
    drawn(alloc, draw, look)
}

fn drawn<L: Look>(alloc: Global, draw: Draw, look: &mut L) -> Result<Val, EvalFault>
    ensures value { Meets (seen result) (drawn (L.told look.old) (Ok draw) (L.drawn look.old)) (L.drawn look.new) }
    ensures same { L.told look.new ≡ L.told look.old }
    ensures held { L.held look.new ≡ L.held look.old }
{
    let word = look.word();
    bounded(made(alloc, draw, &word)?)
}
