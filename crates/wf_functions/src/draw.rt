//! Identifiers and numbers made of words.
ghost use Rattle.std.specs.Prelude.{◌≡◌, IfOk};
ghost use Rattle.wf_val.specs.Seen.{tree};
ghost use Rattle.wf_functions.specs.Draws.{draw_of, form_of, form_named, bounds_of, made, guid_text, identifier, number_in};

use std::alloc::{AllocError, Global};
use std::marker::Model;
use uuid::{Builder, Uuid};
use wf_val::{EvalFault, Fun, Text, Val, Vals, number_at, optional_text_at, wrong_type};

/// How an identifier is written (.NET, `Guid.ToString`).
#[derive(Clone, Copy)]
pub enum GuidForm {
    /// `D`: with dashes.
    Dashed,
    /// `N`: digits alone.
    Digits,
    /// `B`: with dashes, in braces.
    Braced,
    /// `P`: with dashes, in parentheses.
    Parenthesized,
}

/// The numbers from the least on, below the end.
#[derive(Clone, Copy)]
pub struct Bounds {
    least: i64,
    end: i64,
}

impl Model for Bounds {
    ghost use Rattle.std.specs.Prelude.{ℤ, ◌<ℤ◌};

    ghost Value = { ℤ × ℤ };

    ghost view = { λ b. (b.least, b.end) };

    ghost invariant = { λ b. b.least <ℤ b.end };

    ghost inverse = { λ p. record { least = p.0; end = p.1 } };
}

/// What is to be made of the next word.
#[derive(Clone, Copy)]
pub enum Draw {
    Guid(GuidForm),
    Number(Bounds),
}

/// What a function makes of the next word, where its arguments pass.
pub fn draw_of(function: Fun, args: &Vals) -> Result<Draw, EvalFault>
    ensures { result ≡ draw_of function args.now }
{
    if !function.takes(args.len()) {
        return Err(wrong_type(function, args.len()));
    }
    match function {
        Fun::Guid => Ok(Draw::Guid(form_of(args)?)),
        _ => Ok(Draw::Number(bounds_of(args)?)),
    }
}

// The form that the argument of `guid` names, by default that with dashes.
fn form_of(args: &Vals) -> Result<GuidForm, EvalFault>
    ensures { result ≡ form_of args.now }
{
    match optional_text_at(Fun::Guid, args, 0)? {
        Some(name) => form_named(name.as_str()),
        None => Ok(GuidForm::Dashed),
    }
}

fn form_named(name: &str) -> Result<GuidForm, EvalFault>
    ensures { result ≡ form_named name.now }
{
    if name == "D" {
        Ok(GuidForm::Dashed)
    } else if name == "N" {
        Ok(GuidForm::Digits)
    } else if name == "B" {
        Ok(GuidForm::Braced)
    } else if name == "P" {
        Ok(GuidForm::Parenthesized)
    } else {
        Err(EvalFault::Range {
            function: Fun::Guid,
        })
    }
}

// The bounds that the arguments of `rand` are.
fn bounds_of(args: &Vals) -> Result<Bounds, EvalFault>
    ensures { result ≡ bounds_of args.now }
{
    let least = number_at(Fun::Rand, args, 0)?;
    let end = number_at(Fun::Rand, args, 1)?;
    if least < end {
        Ok(Bounds { least, end })
    } else {
        Err(EvalFault::Range {
            function: Fun::Rand,
        })
    }
}

/// The value that is made of a word.
pub fn made(alloc: Global, draw: Draw, word: &[u8; 32]) -> Result<Val, AllocError>
    ensures { IfOk result (λ v. tree v ≡ made draw word.now) }
{
    match draw {
        Draw::Guid(form) => Ok(Val::Text(guid_text(alloc, form, identifier(word))?)),
        Draw::Number(bounds) => Ok(Val::Int(number_in(bounds, word))),
    }
}

// The version 4 identifier of a word.
fn identifier(word: &[u8; 32]) -> Uuid
    ensures { result ≡ identifier word.now }
{
    let mut bytes = [0; 16];
    bytes.copy_from_slice(&word[..16]);
    Builder::from_random_bytes(bytes).into_uuid()
}

// An identifier as text, in lower case.
fn guid_text(alloc: Global, form: GuidForm, id: Uuid) -> Result<Text, AllocError>
    ensures { IfOk result (λ s. s ≡ guid_text form id) }
{
    let text = match form {
        GuidForm::Dashed => format!(in alloc; "{}", id.hyphenated())?,
        GuidForm::Digits => format!(in alloc; "{}", id.simple())?,
        GuidForm::Braced => format!(in alloc; "{}", id.braced())?,
        GuidForm::Parenthesized => format!(in alloc; "({})", id.hyphenated())?,
    };
    Ok(Text::from_string(text))
}

// The number of these bounds that a word falls on.
fn number_in(bounds: Bounds, word: &[u8; 32]) -> i64
    ensures { result ≡ number_in bounds word.now }
{
    let mut bytes = [0; 8];
    bytes.copy_from_slice(&word[..8]);
    let width = bounds.end.abs_diff(bounds.least);
    let place = u64::from_be_bytes(bytes) % width;
    bounds.least.strict_add_unsigned(place)
}
