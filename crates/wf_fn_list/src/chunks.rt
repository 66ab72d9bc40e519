//! A text or a list cut into pieces of one length.
ghost use Rattle.std.specs.Prelude.{◌≡◌, ◌<◌, IfOk, length, map};
ghost use Rattle.std.specs.Str.{chars};
ghost use Rattle.wf_val.specs.Arguments.{seen, Gives};
ghost use Rattle.wf_val.specs.Seen.{tree};
ghost use Rattle.wf_fn_list.specs.Chunks.{chunk_row, chunk_size, chunks};
ghost use Rattle.wf_fn_list.specs.Parts.{listed, spelled};

use crate::parts::{copied, split_items};
use std::alloc::{AllocError, Global};
use wf_val::{EvalFault, Fun, Text, Val, Vals, bounded, number_at, split_at_char, wrong_type};

/// `chunk`: pieces of so many characters or items, the last perhaps shorter; `Range` below 1.
#[tactic(auto, using(wf_val::proofs::ValueTreeLemmas::listed))]
pub fn f_chunk(alloc: Global, args: &Vals) -> Result<Val, EvalFault>
    requires { length args.now ≡ 2 }
    ensures { Gives (seen result) (chunk_row args.now) }
{
    match args.at(0) {
        Some(Val::Text(text)) => {
            let size = chunk_size(number_at(Fun::Chunk, args, 1)?)?;
            bounded(Val::List(pieces_of_text(alloc, text.as_str(), size)?))
        }
        Some(Val::List(items)) => {
            let size = chunk_size(number_at(Fun::Chunk, args, 1)?)?;
            bounded(Val::List(pieces_of_list(alloc, items.as_slice(), size)?))
        }
        _ => Err(wrong_type(Fun::Chunk, 0)),
    }
}

// The length of a piece, `Range` below 1.
fn chunk_size(number: i64) -> Result<u64, EvalFault>
    ensures size { result ≡ chunk_size number }
    ensures some { IfOk result (λ size. 0 < size) }
{
    match u64::try_from(number) {
        Ok(size) if size > 0 => Ok(size),
        _ => Err(EvalFault::Range {
            function: Fun::Chunk,
        }),
    }
}

fn pieces_of_text(alloc: Global, text: &str, size: u64) -> Result<Vals, AllocError>
    requires { 0 < size }
    ensures { IfOk result (λ v. v ≡ map spelled (chunks size (chars text.now))) }
{
    let mut pieces = Vals::new(alloc);
    let mut rest = text;
    while !rest.is_empty() {
        let (piece, others) = split_at_char(rest, size);
        pieces.push(Val::Text(Text::of(alloc, piece)?))?;
        rest = others;
    }
    Ok(pieces)
}

fn pieces_of_list(alloc: Global, values: &[Val], size: u64) -> Result<Vals, AllocError>
    requires { 0 < size }
    ensures { IfOk result (λ v. v ≡ map listed (chunks size (map tree values.now))) }
{
    let mut pieces = Vals::new(alloc);
    let mut rest = values;
    while !rest.is_empty() {
        let (piece, others) = split_items(rest, size);
        pieces.push(Val::List(copied(alloc, piece)?))?;
        rest = others;
    }
    Ok(pieces)
}
