//! Percent-encoding.
ghost use Rattle.std.specs.Prelude.{◌≡◌, IfOk, length, string_bytes};
ghost use Rattle.wf_val.specs.Arguments.{seen, Gives, bounded};
ghost use Rattle.wf_val.specs.ValueTree.{text};
ghost use Rattle.wf_fn_uri.specs.Escapes.{escaped, escaped_row, unescaped_row, utf8_or_bad};
ghost use Rattle.percent_encoding.specs.Percent.{percent_decode};

use percent_encoding::{AsciiSet, NON_ALPHANUMERIC, ascii_set, percent_decode, percent_encode};
use std::alloc::{AllocError, Global};
use wf_val::{EvalFault, Fun, Text, Val, Vals, bounded, text_at};

const UNRESERVED: AsciiSet = ascii_set!(
    NON_ALPHANUMERIC
        .remove(b'-')
        .remove(b'.')
        .remove(b'_')
        .remove(b'~')
);

/// `uriComponent`: the text with every byte but unreserved characters (RFC 3986, section 2.3) as `%XX`.
pub fn f_uri_component(alloc: Global, args: &Vals) -> Result<Val, EvalFault>
    requires { length args.now ≡ 1 }
    ensures { Gives (seen result) (escaped_row Fun.UriComponent args.now) }
{
    let text = text_at(Fun::UriComponent, args, 0)?;
    bounded(Val::Text(Text::from_string(escaped(alloc, text.as_str())?)))
}

/// `encodeUriComponent`: as `uriComponent`, under its other name.
pub fn f_encode_uri_component(alloc: Global, args: &Vals) -> Result<Val, EvalFault>
    requires { length args.now ≡ 1 }
    ensures { Gives (seen result) (escaped_row Fun.EncodeUriComponent args.now) }
{
    let text = text_at(Fun::EncodeUriComponent, args, 0)?;
    bounded(Val::Text(Text::from_string(escaped(alloc, text.as_str())?)))
}

/// `uriComponentToString`: the text with each escape replaced by its byte; a `%` without two hexadecimal digits stays.
/// `BadText` where the bytes aren't UTF-8.
pub fn f_uri_component_to_string(alloc: Global, args: &Vals) -> Result<Val, EvalFault>
    requires { length args.now ≡ 1 }
    ensures { Gives (seen result) (unescaped_row Fun.UriComponentToString args.now) }
{
    let text = text_at(Fun::UriComponentToString, args, 0)?;
    unescaped(alloc, Fun::UriComponentToString, text.as_str())
}

/// `decodeUriComponent`: as `uriComponentToString`, under its other name.
pub fn f_decode_uri_component(alloc: Global, args: &Vals) -> Result<Val, EvalFault>
    requires { length args.now ≡ 1 }
    ensures { Gives (seen result) (unescaped_row Fun.DecodeUriComponent args.now) }
{
    let text = text_at(Fun::DecodeUriComponent, args, 0)?;
    unescaped(alloc, Fun::DecodeUriComponent, text.as_str())
}

// Every byte but unreserved ones as `%XX`.
fn escaped(alloc: Global, text: &str) -> Result<String, AllocError>
    ensures { IfOk result (λ s. string_bytes s ≡ escaped text.now) }
{
    let mut out = String::new(alloc);
    percent_encode(text.as_bytes(), UNRESERVED).append_to(&mut out)?;
    Ok(out)
}

// Each escape replaced by its byte.
fn unescaped(alloc: Global, function: Fun, text: &str) -> Result<Val, EvalFault>
    ensures { Gives (seen result) (utf8_or_bad function (percent_decode text.now)) }
{
    let mut bytes = Vec::new(alloc);
    if percent_decode(text.as_bytes())
        .append_to(&mut bytes)
        .is_err()
    {
        return Err(EvalFault::Memory);
    }
    utf8_text(function, bytes)
}

// Bytes as a text, `BadText` where they aren't UTF-8.
#[tactic(auto, using(crate::proofs::EscapeLemmas::no_utf8_text))]
pub(crate) fn utf8_text(function: Fun, bytes: Vec<u8>) -> Result<Val, EvalFault>
    ensures { Gives (seen result) (utf8_or_bad function bytes.items) }
{
    match String::from_utf8(bytes) {
        Ok(text) => bounded(Val::Text(Text::from_string(text))),
        Err(_) => Err(EvalFault::BadText { function }),
    }
}
