//! What may follow an expression that is read whole.
ghost use Rattle.std.specs.Prelude.{◌≡◌, IfOk, nat_lt};
ghost use Rattle.wf_expr.specs.Machine.{allowed, closed, separated, key_ended, part_ended, top, below, part_of, depth, follow, at_first, key_of};
ghost use Rattle.wf_expr.specs.ModeSeen.{state_seen};
ghost use Rattle.wf_expr.specs.StackSeen.{stack_seen};

use crate::character::Character;
use crate::draft::Draft;
use crate::kind::Kind;
use crate::mode::Mode;
use crate::stack::{Frame, Stack};
use std::alloc::{AllocError, Global};

/// So many of `(` and `[` may be open at once.
pub(crate) const MOST_OPEN: usize = 64;

pub(crate) fn open_key(
    base: Draft,
    soft: bool,
    stack: &mut Stack,
) -> Result<Option<Mode>, AllocError>
    ensures { IfOk result (λ m. state_seen m stack.new ≡ allowed (nat_lt (depth (stack_seen stack.old)) 64) (at_first, key_of base soft (stack_seen stack.old))) }
{
    if stack.depth() >= MOST_OPEN {
        return Ok(None);
    }
    stack.push(Frame::Key { base, soft })?;
    Ok(Some(Mode::First))
}

#[tactic(auto, using(crate::proofs::DraftLemmas::joined_none))]
fn close(last: Draft, stack: &mut Stack) -> Result<Option<Mode>, AllocError>
    ensures { IfOk result (λ m. state_seen m stack.new ≡ closed last (top (stack_seen stack.old)) (below (stack_seen stack.old))) }
{
    match stack.pop() {
        Some(Frame::Call { name, args }) => {
            let args = args.with(last)?;
            let base = Draft::call(name, args);
            Ok(Some(Mode::After { base }))
        }
        _ => Ok(None),
    }
}

fn separate(last: Draft, stack: &mut Stack) -> Result<Option<Mode>, AllocError>
    ensures { IfOk result (λ m. state_seen m stack.new ≡ separated last (top (stack_seen stack.old)) (below (stack_seen stack.old))) }
{
    match stack.pop() {
        Some(Frame::Call { name, args }) => {
            let args = args.with(last)?;
            stack.push(Frame::Call { name, args })?;
            Ok(Some(Mode::First))
        }
        _ => Ok(None),
    }
}

fn end_key(alloc: Global, key: Draft, stack: &mut Stack) -> Result<Option<Mode>, AllocError>
    ensures { IfOk result (λ m. state_seen m stack.new ≡ key_ended key (top (stack_seen stack.old)) (below (stack_seen stack.old))) }
{
    match stack.pop() {
        Some(Frame::Key { base, soft }) => {
            let base = base.index(alloc, key, soft)?;
            Ok(Some(Mode::After { base }))
        }
        _ => Ok(None),
    }
}

fn end_part(
    alloc: Global,
    expression: Draft,
    stack: &mut Stack,
    next: Character,
) -> Result<Option<Mode>, AllocError>
    ensures { IfOk result (λ m. state_seen m stack.new ≡ part_ended expression (part_of (stack_seen stack.old)) next.at) }
{
    match stack.take_part() {
        Some((front, start)) => {
            let length = next.at.saturating_sub(start).saturating_sub(1);
            let front = front.with_part(alloc, expression, length)?;
            Ok(Some(Mode::Plain { front }))
        }
        None => Ok(None),
    }
}

pub(crate) fn after_base(
    alloc: Global,
    base: Draft,
    stack: &mut Stack,
    next: Character,
) -> Result<Option<Mode>, AllocError>
    ensures { IfOk result (λ m. state_seen m stack.new ≡ follow base (stack_seen stack.old) next.kind next.at) }
{
    match next.kind {
        Kind::Blank => Ok(Some(Mode::After { base })),
        Kind::Dot => Ok(Some(Mode::Dot { base, soft: false })),
        Kind::Soft => Ok(Some(Mode::Soft { base })),
        Kind::Bracket => open_key(base, false, stack),
        Kind::Comma => separate(base, stack),
        Kind::Close => close(base, stack),
        Kind::Unbracket => end_key(alloc, base, stack),
        Kind::Unbrace => end_part(alloc, base, stack, next),
        _ => Ok(None),
    }
}
