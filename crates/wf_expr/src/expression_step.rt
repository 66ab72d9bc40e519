//! The steps in an expression, up to where it is read whole.
ghost use Rattle.std.specs.Prelude.{◌≡◌, ◌++◌, IfOk, string_bytes, nat_lt, ◌||◌};
ghost use Rattle.std.specs.Char.{encode_utf8};
ghost use Rattle.wf_expr.specs.Machine.{allowed, depth, named, begun, args_step, minus_step, quoted_step, soft_step, dot_step, after_word, is_word, step_at, at_quote, in_int, in_name, at_named, at_args, in_member};
ghost use Rattle.wf_expr.specs.ModeSeen.{state_seen};
ghost use Rattle.wf_expr.specs.StackSeen.{stack_seen};
ghost use Rattle.wf_expr.specs.WordTests.{word_of};

use crate::character::Character;
use crate::digits::Digits;
use crate::draft::{Draft, Drafts};
use crate::follow::{MOST_OPEN, after_base, open_key};
use crate::kind::Kind;
use crate::mode::Mode;
use crate::stack::{Frame, Stack};
use crate::word::{begins_word, word_value};
use std::alloc::{AllocError, Global};
use wf_val::{Text, Val};

fn with_char(text: String, c: char) -> Result<String, AllocError>
    ensures { IfOk result (λ t. string_bytes t ≡ string_bytes text ++ encode_utf8 c) }
{
    let mut text = text;
    text.push(c)?;
    Ok(text)
}

fn text_of(alloc: Global, c: char) -> Result<String, AllocError>
    ensures { IfOk result (λ t. string_bytes t ≡ encode_utf8 c) }
{
    with_char(String::new(alloc), c)
}

/// A name may go on where a call may open, or a word begins with it.
fn name_so_far(name: String, stack: &Stack) -> Option<Mode>
    ensures { state_seen result stack.now ≡ named (string_bytes name) (stack_seen stack.now) }
{
    if stack.depth() < MOST_OPEN || begins_word(&name) {
        Some(Mode::Name { name })
    } else {
        None
    }
}

pub(crate) fn at_begin(
    alloc: Global,
    stack: &Stack,
    next: Character,
) -> Result<Option<Mode>, AllocError>
    ensures { IfOk result (λ m. state_seen m stack.now ≡ begun (stack_seen stack.now) next.value next.kind) }
{
    match next.kind {
        Kind::Blank => Ok(Some(Mode::First)),
        Kind::Digit => Ok(Some(Mode::Int {
            digits: Digits::first(false, next.value),
        })),
        Kind::Minus => Ok(Some(Mode::Minus)),
        Kind::Quote => Ok(Some(Mode::Quoted {
            text: String::new(alloc),
        })),
        Kind::Letter => Ok(name_so_far(text_of(alloc, next.value)?, stack)),
        _ => Ok(None),
    }
}

pub(crate) fn in_args(
    alloc: Global,
    name: Text,
    stack: &mut Stack,
    next: Character,
) -> Result<Option<Mode>, AllocError>
    ensures { IfOk result (λ m. state_seen m stack.new ≡ args_step name (stack_seen stack.old) next.value next.kind) }
{
    match next.kind {
        Kind::Blank => Ok(Some(Mode::Args { name })),
        Kind::Close => Ok(Some(Mode::After {
            base: Draft::call(name, Drafts::new(alloc)),
        })),
        _ => {
            stack.push(Frame::Call {
                name,
                args: Drafts::new(alloc),
            })?;
            at_begin(alloc, stack, next)
        }
    }
}

pub(crate) fn after_minus(stack: &Stack, next: Character) -> Option<Mode>
    ensures { state_seen result stack.now ≡ minus_step (stack_seen stack.now) next.value next.kind }
{
    match next.kind {
        Kind::Digit => Some(Mode::Int {
            digits: Digits::first(true, next.value),
        }),
        _ => None,
    }
}

pub(crate) fn in_number(
    alloc: Global,
    digits: Digits,
    stack: &mut Stack,
    next: Character,
) -> Result<Option<Mode>, AllocError>
    ensures { IfOk result (λ m. state_seen m stack.new ≡ step_at (in_int digits.0 digits.1) (stack_seen stack.old) next.value next.kind next.at) }
{
    match next.kind {
        Kind::Digit => Ok(digits.then(next.value).map(|digits| Mode::Int { digits })),
        _ => {
            let base = Draft::literal(Val::Int(digits.value()));
            after_base(alloc, base, stack, next)
        }
    }
}

pub(crate) fn in_quotes(
    text: String,
    stack: &Stack,
    next: Character,
) -> Result<Option<Mode>, AllocError>
    ensures { IfOk result (λ m. state_seen m stack.now ≡ quoted_step (string_bytes text) (stack_seen stack.now) next.value next.kind) }
{
    match next.kind {
        Kind::Quote => Ok(Some(Mode::Quote { text })),
        _ => Ok(Some(Mode::Quoted {
            text: with_char(text, next.value)?,
        })),
    }
}

pub(crate) fn after_quote(
    alloc: Global,
    text: String,
    stack: &mut Stack,
    next: Character,
) -> Result<Option<Mode>, AllocError>
    ensures { IfOk result (λ m. state_seen m stack.new ≡ step_at (at_quote (string_bytes text)) (stack_seen stack.old) next.value next.kind next.at) }
{
    match next.kind {
        Kind::Quote => Ok(Some(Mode::Quoted {
            text: with_char(text, next.value)?,
        })),
        _ => {
            let base = Draft::literal(Val::Text(Text::from_string(text)));
            after_base(alloc, base, stack, next)
        }
    }
}

/// A call of the name opens, where a bracket may.
fn open_call(name: String, stack: &Stack) -> Option<Mode>
    ensures { state_seen result stack.now ≡ allowed (nat_lt (depth (stack_seen stack.now)) 64) (at_args (string_bytes name), stack_seen stack.now) }
{
    if stack.depth() < MOST_OPEN {
        Some(Mode::Args {
            name: Text::from_string(name),
        })
    } else {
        None
    }
}

/// What follows a name that is no call.
fn after_name(
    alloc: Global,
    name: String,
    stack: &mut Stack,
    next: Character,
) -> Result<Option<Mode>, AllocError>
    ensures { IfOk result (λ m. state_seen m stack.new ≡ after_word (word_of (string_bytes name)) (stack_seen stack.old) next.kind next.at) }
{
    match word_value(&name) {
        Some(value) => after_base(alloc, Draft::literal(value), stack, next),
        None => Ok(None),
    }
}

/// White space after a name: a call may open yet, or the name is a word.
fn name_ended(name: String, stack: &Stack) -> Option<Mode>
    ensures { state_seen result stack.now ≡ allowed (nat_lt (depth (stack_seen stack.now)) 64 || is_word (word_of (string_bytes name))) (at_named (string_bytes name), stack_seen stack.now) }
{
    if stack.depth() < MOST_OPEN || word_value(&name).is_some() {
        Some(Mode::Named { name })
    } else {
        None
    }
}

pub(crate) fn in_function_name(
    alloc: Global,
    name: String,
    stack: &mut Stack,
    next: Character,
) -> Result<Option<Mode>, AllocError>
    ensures { IfOk result (λ m. state_seen m stack.new ≡ step_at (in_name (string_bytes name)) (stack_seen stack.old) next.value next.kind next.at) }
{
    match next.kind {
        Kind::Letter | Kind::Digit | Kind::Under => Ok(name_so_far(
            with_char(name, next.value)?,
            stack,
        )),
        Kind::Blank => Ok(name_ended(name, stack)),
        Kind::Open => Ok(open_call(name, stack)),
        _ => after_name(alloc, name, stack, next),
    }
}

pub(crate) fn after_function_name(
    alloc: Global,
    name: String,
    stack: &mut Stack,
    next: Character,
) -> Result<Option<Mode>, AllocError>
    ensures { IfOk result (λ m. state_seen m stack.new ≡ step_at (at_named (string_bytes name)) (stack_seen stack.old) next.value next.kind next.at) }
{
    match next.kind {
        Kind::Blank => Ok(Some(Mode::Named { name })),
        Kind::Open => Ok(open_call(name, stack)),
        _ => after_name(alloc, name, stack, next),
    }
}

pub(crate) fn after_soft(
    base: Draft,
    stack: &mut Stack,
    kind: Kind,
) -> Result<Option<Mode>, AllocError>
    ensures { IfOk result (λ m. state_seen m stack.new ≡ soft_step base (stack_seen stack.old) kind) }
{
    match kind {
        Kind::Dot => Ok(Some(Mode::Dot { base, soft: true })),
        Kind::Bracket => open_key(base, true, stack),
        _ => Ok(None),
    }
}

pub(crate) fn after_dot(
    alloc: Global,
    base: Draft,
    soft: bool,
    stack: &Stack,
    next: Character,
) -> Result<Option<Mode>, AllocError>
    ensures { IfOk result (λ m. state_seen m stack.now ≡ dot_step base soft (stack_seen stack.now) next.value next.kind) }
{
    match next.kind {
        Kind::Blank => Ok(Some(Mode::Dot { base, soft })),
        Kind::Letter | Kind::Under | Kind::Dollar => Ok(Some(Mode::Member {
            base,
            soft,
            name: text_of(alloc, next.value)?,
        })),
        _ => Ok(None),
    }
}

pub(crate) fn in_member_name(
    alloc: Global,
    base: Draft,
    soft: bool,
    name: String,
    stack: &mut Stack,
    next: Character,
) -> Result<Option<Mode>, AllocError>
    ensures { IfOk result (λ m. state_seen m stack.new ≡ step_at (in_member base soft (string_bytes name)) (stack_seen stack.old) next.value next.kind next.at) }
{
    match next.kind {
        Kind::Letter | Kind::Digit | Kind::Under | Kind::Dollar => Ok(Some(Mode::Member {
            base,
            soft,
            name: with_char(name, next.value)?,
        })),
        _ => {
            let base = base.member(alloc, Text::from_string(name), soft)?;
            after_base(alloc, base, stack, next)
        }
    }
}
