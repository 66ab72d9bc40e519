//! A character that leaves the reader in the part that it stands in is taken in place: most characters of a text do.
ghost use Rattle.std.specs.Prelude.{IfOk, string_bytes};
ghost use Rattle.wf_expr.specs.FrontSeen.{items_seen};
ghost use Rattle.wf_expr.specs.InPlace.{
  IsTaken,
  IsTakenInText,
  IsTakenInQuotes,
  IsTakenInName,
  IsTakenInMember,
  IsTakenAsBlank,
};
ghost use Rattle.wf_expr.specs.StackSeen.{stack_seen};

use crate::character::Character;
use crate::follow::MOST_OPEN;
use crate::front::Front;
use crate::kind::Kind;
use crate::mode::Mode;
use crate::stack::Stack;
use std::alloc::AllocError;

/// Takes the character in, where the reader stands in literal text, in a quoted text, in the name of a function with
/// room for a bracket or in that of a member, and the character stands for itself there; and white space, where the
/// reader stands between two parts. Says whether it did. If not, the reader stands where it stood.
pub(crate) fn take_in_place(
    mode: &mut Mode,
    stack: &Stack,
    next: Character,
) -> Result<bool, AllocError>
    ensures { IfOk result (λ taken. IsTaken taken mode.old mode.new (stack_seen stack.now) next) }
{
    match mode {
        Mode::Plain { front } => take_in_text(front, next),
        Mode::Quoted { text } => take_in_quotes(text, next),
        Mode::Name { name } => take_in_name(name, stack, next),
        Mode::Member {
            base: _,
            soft: _,
            name,
        } => take_in_member(name, next),
        Mode::First
        | Mode::Args { name: _ }
        | Mode::Named { name: _ }
        | Mode::After { base: _ }
        | Mode::Dot { base: _, soft: _ } => Ok(is_blank(next)),
        _ => Ok(false),
    }
}

fn take_in_text(front: &mut Front, next: Character) -> Result<bool, AllocError>
    ensures { IfOk result (λ taken. IsTakenInText taken (items_seen front.old) (items_seen front.new) next) }
{
    match next.kind {
        Kind::At => Ok(false),
        _ => {
            front.push(next.value)?;
            Ok(true)
        }
    }
}

fn take_in_quotes(text: &mut String, next: Character) -> Result<bool, AllocError>
    ensures { IfOk result (λ taken. IsTakenInQuotes taken (string_bytes text.old) (string_bytes text.new) next) }
{
    match next.kind {
        Kind::Quote => Ok(false),
        _ => {
            text.push(next.value)?;
            Ok(true)
        }
    }
}

/// Where no further bracket may open, a name goes on only as a word: that is left to the step.
fn take_in_name(name: &mut String, stack: &Stack, next: Character) -> Result<bool, AllocError>
    ensures { IfOk result (λ taken. IsTakenInName taken (string_bytes name.old) (string_bytes name.new) (stack_seen stack.now) next) }
{
    if stack.depth() >= MOST_OPEN {
        return Ok(false);
    }
    match next.kind {
        Kind::Letter | Kind::Digit | Kind::Under => {
            name.push(next.value)?;
            Ok(true)
        }
        _ => Ok(false),
    }
}

fn take_in_member(name: &mut String, next: Character) -> Result<bool, AllocError>
    ensures { IfOk result (λ taken. IsTakenInMember taken (string_bytes name.old) (string_bytes name.new) next) }
{
    match next.kind {
        Kind::Letter | Kind::Digit | Kind::Under | Kind::Dollar => {
            name.push(next.value)?;
            Ok(true)
        }
        _ => Ok(false),
    }
}

fn is_blank(next: Character) -> bool
    ensures { IsTakenAsBlank result next }
{
    matches!(next.kind, Kind::Blank)
}
