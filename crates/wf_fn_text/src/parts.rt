//! Parts of a text.
ghost use Rattle.std.specs.Prelude.{◌≡◌, ◌≤◌, ◌<◌, ◌^◌, length, option_map};
ghost use Rattle.wf_val.specs.Arguments.{seen, Gives, bounded};
ghost use Rattle.wf_val.specs.ValueTree.{text};
ghost use Rattle.wf_fn_text.specs.Parts.{substring_row, slice_row, span, part, place_within, end_within};

use std::alloc::Global;
use wf_val::{
    EvalFault, Fun, Val, Vals, bounded_text, char_count, number_at, optional_number_at,
    split_at_char, text_at,
};

/// `substring`: the part from a start on, of a length, by default to the end. `Range` where it doesn't lie within the
/// text.
pub fn f_substring(alloc: Global, args: &Vals) -> Result<Val, EvalFault>
    requires at_least { 2 ≤ length args.now }
    requires at_most { length args.now ≤ 3 }
    ensures { Gives (seen result) (substring_row args.now) }
{
    let text = text_at(Fun::Substring, args, 0)?.as_str();
    let start = number_at(Fun::Substring, args, 1)?;
    let count = optional_number_at(Fun::Substring, args, 2)?;
    match span(start, count, char_count(text)) {
        Some((start, count)) => bounded_text(alloc, part(text, start, count)),
        None => Err(EvalFault::Range {
            function: Fun::Substring,
        }),
    }
}

/// `slice`: the part from a place up to another, left out; a place below 0 counts from the end, and places are cut to
/// the text.
pub fn f_slice(alloc: Global, args: &Vals) -> Result<Val, EvalFault>
    requires at_least { 2 ≤ length args.now }
    requires at_most { length args.now ≤ 3 }
    ensures { Gives (seen result) (slice_row args.now) }
{
    let text = text_at(Fun::Slice, args, 0)?.as_str();
    let start = number_at(Fun::Slice, args, 1)?;
    let end = optional_number_at(Fun::Slice, args, 2)?;
    let length = char_count(text);
    let start = place_within(start, length);
    let end = end_within(end, length);
    bounded_text(alloc, part(text, start, end.saturating_sub(start)))
}

// So many characters from a place on.
fn part(text: &str, start: u64, count: u64) -> &str
    ensures { result.now ≡ part start count text.now }
{
    let (_, rest) = split_at_char(text, start);
    let (part, _) = split_at_char(rest, count);
    part
}

// The start and the count, to the end where none is given, where they lie within so many characters.
fn span(start: i64, count: Option<i64>, length: u64) -> Option<(u64, u64)>
    ensures { result ≡ span start count length }
{
    let start = u64::try_from(start).ok()?;
    let most = length.checked_sub(start)?;
    match count {
        None => Some((start, most)),
        Some(count) => {
            let count = u64::try_from(count).ok()?;
            if count <= most {
                Some((start, count))
            } else {
                None
            }
        }
    }
}

// The place, counted from the end where it is below 0, and cut to so many characters.
fn place_within(place: i64, length: u64) -> u64
    ensures { result ≡ place_within place length }
{
    if place < 0 {
        length.saturating_sub(place.unsigned_abs())
    } else {
        length.min(place.unsigned_abs())
    }
}

// The place of an end, which is that of the text where none is given.
fn end_within(end: Option<i64>, length: u64) -> u64
    ensures { result ≡ end_within end length }
{
    match end {
        Some(end) => place_within(end, length),
        None => length,
    }
}
