//! The steps outside every expression: literal text, and the signs that begin an expression.
ghost use Rattle.std.specs.Prelude.{◌≡◌, IfOk};
ghost use Rattle.wf_expr.specs.FrontSeen.{items_seen};
ghost use Rattle.wf_expr.specs.Machine.{plain_step, start_step, step_at, at_sign, one_at, two_at};
ghost use Rattle.wf_expr.specs.ModeSeen.{state_seen};
ghost use Rattle.wf_expr.specs.StackSeen.{stack_seen};

use crate::character::Character;
use crate::expression_step::at_begin;
use crate::front::Front;
use crate::kind::Kind;
use crate::mode::Mode;
use crate::stack::Stack;
use std::alloc::{AllocError, Global};

pub(crate) fn in_text(
    front: Front,
    stack: &Stack,
    next: Character,
) -> Result<Option<Mode>, AllocError>
    ensures { IfOk result (λ m. state_seen m stack.now ≡ plain_step (items_seen front) (stack_seen stack.now) next.value next.kind) }
{
    match next.kind {
        Kind::At => Ok(Some(Mode::OneAt {
            front,
            sign: next.value,
        })),
        _ => Ok(Some(Mode::Plain {
            front: front.with(next.value)?,
        })),
    }
}

/// After an `@` at the start of the text.
pub(crate) fn after_sign(
    alloc: Global,
    sign: char,
    stack: &mut Stack,
    next: Character,
) -> Result<Option<Mode>, AllocError>
    ensures { IfOk result (λ m. state_seen m stack.new ≡ step_at (at_sign sign) (stack_seen stack.old) next.value next.kind next.at) }
{
    match next.kind {
        Kind::At => Ok(Some(Mode::Plain {
            front: Front::new(alloc).with(sign)?,
        })),
        Kind::Brace => {
            *stack = Stack::in_part(alloc, Front::new(alloc), next.at);
            Ok(Some(Mode::First))
        }
        _ => {
            *stack = Stack::whole(alloc);
            at_begin(alloc, stack, next)
        }
    }
}

/// After an `@` in the text.
pub(crate) fn after_at(
    alloc: Global,
    front: Front,
    sign: char,
    stack: &mut Stack,
    next: Character,
) -> Result<Option<Mode>, AllocError>
    ensures { IfOk result (λ m. state_seen m stack.new ≡ step_at (one_at (items_seen front) sign) (stack_seen stack.old) next.value next.kind next.at) }
{
    match next.kind {
        Kind::At => Ok(Some(Mode::TwoAt {
            front,
            first: sign,
            second: next.value,
        })),
        Kind::Brace => {
            *stack = Stack::in_part(alloc, front, next.at);
            Ok(Some(Mode::First))
        }
        _ => Ok(Some(Mode::Plain {
            front: front.with(sign)?.with(next.value)?,
        })),
    }
}

/// After two `@` in the text.
pub(crate) fn after_two(
    front: Front,
    first: char,
    second: char,
    stack: &Stack,
    next: Character,
) -> Result<Option<Mode>, AllocError>
    ensures { IfOk result (λ m. state_seen m stack.now ≡ step_at (two_at (items_seen front) first second) (stack_seen stack.now) next.value next.kind next.at) }
{
    match next.kind {
        Kind::At => Ok(Some(Mode::TwoAt {
            front: front.with(first)?,
            first: second,
            second: next.value,
        })),
        Kind::Brace => Ok(Some(Mode::Plain {
            front: front.with(second)?.with(next.value)?,
        })),
        _ => Ok(Some(Mode::Plain {
            front: front.with(first)?.with(second)?.with(next.value)?,
        })),
    }
}

/// At the start of the text.
pub(crate) fn at_text_start(
    alloc: Global,
    stack: &Stack,
    next: Character,
) -> Result<Option<Mode>, AllocError>
    ensures { IfOk result (λ m. state_seen m stack.now ≡ start_step (stack_seen stack.now) next.value next.kind) }
{
    match next.kind {
        Kind::At => {
            let sign = next.value;
            Ok(Some(Mode::Sign { sign }))
        }
        _ => in_text(Front::new(alloc), stack, next),
    }
}
