//! Texts in which nothing has to be escaped.
ghost use Rattle.std.specs.Prelude.{◌≡◌, ◌+◌, ◌≤◌, ◌∷◌, [], length, flat_map, true};
ghost use Rattle.std.specs.Bool.{OnTrue};
ghost use Rattle.json.specs.Written.{PlainBetween};
ghost use Rattle.wf_json.specs.Json.{escaped};

use std::simd::prelude::*;

/// Whether each byte of a text stands for itself in a JSON text.
pub(crate) fn is_plain(text: &[u8]) -> bool
    ensures { result ≡ true → flat_map escaped text.now ≡ text.now }
{
    if text.len() < 8 {
        is_short_plain(text)
    } else {
        is_long_plain(text)
    }
}

// One byte after the other.
fn is_short_plain(text: &[u8]) -> bool
    ensures { result ≡ true → flat_map escaped text.now ≡ text.now }
{
    for byte in text {
        if !stands_for_itself(*byte) {
            return false;
        }
    }
    true
}

// Whether a byte isn't escaped.
fn stands_for_itself(byte: u8) -> bool
    ensures { result ≡ true → escaped byte ≡ byte ∷ [] }
{
    byte >= 32 && byte != 34 && byte != 92
}

// Eight bytes at a time; the last eight may have been looked at in part.
fn is_long_plain(text: &[u8]) -> bool
    requires { 8 ≤ length text.now }
    ensures { OnTrue result (PlainBetween text.now 0 (length text.now)) }
{
    let mut at = 0;
    while text.len() - at > 8 {
        if !are_plain(text, at) {
            return false;
        }
        at += 8;
    }
    are_plain(text, text.len() - 8)
}

// Whether the eight bytes from a place on stand for themselves.
#[inline(always)]
fn are_plain(text: &[u8], at: usize) -> bool
    requires { at + 8 ≤ length text.now }
    ensures { OnTrue result (PlainBetween text.now at (at + 8)) }
{
    let bytes = u8x8::from_slice(&text[at..]);
    (bytes.simd_eq(u8x8::splat(b'"'))
        | bytes.simd_eq(u8x8::splat(b'\\'))
        | bytes.simd_lt(u8x8::splat(32))).to_bitmask()
        == 0
}
