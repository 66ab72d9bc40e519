//! A text is read from left to right, once.
ghost use Rattle.std.specs.Prelude.{◌≡◌, Some, IfOk, chars, option_map, string_bytes};
ghost use Rattle.wf_expr.specs.Machine.{finish, in_whole, scan, start, word_end};
ghost use Rattle.wf_expr.specs.ModeSeen.{mode_seen};
ghost use Rattle.wf_expr.specs.ReadSeen.{read_seen, Gives};
ghost use Rattle.wf_expr.specs.Reading.{whole_of};
ghost use Rattle.wf_expr.specs.StackSeen.{stack_seen};
ghost use Rattle.wf_expr.specs.WordTests.{word_of};

use crate::character::Character;
use crate::draft::Draft;
use crate::fault::{ParseFault, cut};
use crate::front::Front;
use crate::in_place::take_in_place;
use crate::kind::kind_of;
use crate::mode::Mode;
use crate::stack::Stack;
use crate::step::next;
use crate::word::word_value;
use std::alloc::{AllocError, Global};
use wf_val::{Text, Val};

/// What a whole text is read as: an expression after its `@`, or a text with expressions in it.
#[derive(Drop)]
pub(crate) enum Read {
    Whole { expression: Draft },
    Items { front: Front },
}

/// An expression may end the text where it is the whole of it.
fn whole(expression: Draft, stack: &Stack) -> Option<Read>
    ensures { option_map read_seen result ≡ in_whole (stack_seen stack.now) (Some (whole_of expression)) }
{
    if stack.is_whole() {
        Some(Read::Whole { expression })
    } else {
        None
    }
}

/// A word may.
fn whole_word(name: String, stack: &Stack) -> Option<Read>
    ensures { option_map read_seen result ≡ in_whole (stack_seen stack.now) (word_end (word_of (string_bytes name))) }
{
    match word_value(&name) {
        Some(value) => whole(Draft::literal(value), stack),
        None => None,
    }
}

/// What the text is read as, where it may end here.
fn end(alloc: Global, mode: Mode, stack: &Stack) -> Result<Option<Read>, AllocError>
    ensures { IfOk result (λ r. option_map read_seen r ≡ finish (mode_seen mode, stack_seen stack.now)) }
{
    match mode {
        Mode::Start => Ok(Some(Read::Items {
            front: Front::new(alloc),
        })),
        Mode::Plain { front } => Ok(Some(Read::Items { front })),
        Mode::OneAt { front, sign } => Ok(Some(Read::Items {
            front: front.with(sign)?,
        })),
        Mode::TwoAt {
            front,
            first,
            second,
        } => Ok(Some(Read::Items {
            front: front.with(first)?.with(second)?,
        })),
        Mode::Int { digits } => Ok(whole(Draft::literal(Val::Int(digits.value())), stack)),
        Mode::Quote { text } => Ok(whole(
            Draft::literal(Val::Text(Text::from_string(text))),
            stack,
        )),
        Mode::Name { name } => Ok(whole_word(name, stack)),
        Mode::Named { name } => Ok(whole_word(name, stack)),
        Mode::After { base } => Ok(whole(base, stack)),
        Mode::Member { base, soft, name } => {
            let base = base.member(alloc, Text::from_string(name), soft)?;
            Ok(whole(base, stack))
        }
        _ => Ok(None),
    }
}

/// The characters of a text.
pub(crate) fn characters_of(alloc: Global, text: &str) -> Result<Vec<char>, AllocError>
    ensures { IfOk result (λ v. v.items ≡ chars text.now) }
{
    let mut characters = Vec::with_capacity(alloc, text.len())?;
    for c in text.chars() {
        characters.push(c)?;
    }
    Ok(characters)
}

/// What the text is read as, or how many characters of it can be continued to a text that can be read.
pub(crate) fn read_text(alloc: Global, text: &[char]) -> Result<Read, ParseFault>
    ensures { Gives result (scan start 0 text.now) }
{
    let mut mode = Mode::Start;
    let mut stack = Stack::whole(alloc);
    for (at, c) in text.iter().enumerate() {
        let character = Character {
            value: *c,
            kind: kind_of(*c),
            at: at as u64,
        };
        if take_in_place(&mut mode, &stack, character)? {
            continue;
        }
        match next(alloc, mode, &mut stack, character)? {
            Some(then) => {
                mode = then;
            }
            None => {
                return Err(ParseFault::Syntax { at: cut(at as u64) });
            }
        }
    }
    match end(alloc, mode, &stack)? {
        Some(read) => Ok(read),
        None => Err(ParseFault::Syntax {
            at: cut(text.len() as u64),
        }),
    }
}
