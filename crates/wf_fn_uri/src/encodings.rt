//! Base64 and data URLs.
ghost use Rattle.std.specs.Prelude.{◌≡◌, length, option_map};
ghost use Rattle.wf_val.specs.Arguments.{seen, Gives};
ghost use Rattle.wf_fn_uri.specs.Encodings.{base64_row, from_base64_row, data_uri_row, from_data_uri_row, decoded_or_bad, behind_scheme};
ghost use Rattle.wf_fn_uri.specs.Encodings.{behind_comma, encoded_part};
ghost use Rattle.base64.specs.GeneralPurpose.{decode_of};
ghost use Rattle.base64.specs.Engines.{standard};

use crate::escapes::utf8_text;
use base64::DecodeAllocError;
use base64::engine::general_purpose::STANDARD;
use std::alloc::Global;
use wf_val::{EvalFault, Fun, Text, Val, Vals, bounded, text_at};

/// `base64`: the bytes of a text in Base64 (RFC 4648, section 4), with padding.
pub fn f_base64(alloc: Global, args: &Vals) -> Result<Val, EvalFault>
    requires { length args.now ≡ 1 }
    ensures { Gives (seen result) (base64_row args.now) }
{
    let text = text_at(Fun::Base64, args, 0)?;
    let encoded = STANDARD.encode(alloc, text.as_str().as_bytes())?;
    bounded(Val::Text(Text::from_string(encoded)))
}

/// `base64ToString`: the text whose encoding is given; `BadText` where it is none as `base64` writes it, or its bytes
/// aren't UTF-8.
pub fn f_base64_to_string(alloc: Global, args: &Vals) -> Result<Val, EvalFault>
    requires { length args.now ≡ 1 }
    ensures { Gives (seen result) (from_base64_row Fun.Base64ToString args.now) }
{
    let text = text_at(Fun::Base64ToString, args, 0)?;
    decoded(alloc, Fun::Base64ToString, text.as_str())
}

/// `decodeBase64`: as `base64ToString`, under its other name.
pub fn f_decode_base64(alloc: Global, args: &Vals) -> Result<Val, EvalFault>
    requires { length args.now ≡ 1 }
    ensures { Gives (seen result) (from_base64_row Fun.DecodeBase64 args.now) }
{
    let text = text_at(Fun::DecodeBase64, args, 0)?;
    decoded(alloc, Fun::DecodeBase64, text.as_str())
}

/// `dataUri`: a data URL (RFC 2397) of a text, in Base64.
pub fn f_data_uri(alloc: Global, args: &Vals) -> Result<Val, EvalFault>
    requires { length args.now ≡ 1 }
    ensures { Gives (seen result) (data_uri_row args.now) }
{
    let text = text_at(Fun::DataUri, args, 0)?;
    let mut url = String::from_str(alloc, "data:text/plain;charset=utf-8;base64,")?;
    let encoded = STANDARD.encode(alloc, text.as_str().as_bytes())?;
    url.push_str(encoded.as_str())?;
    bounded(Val::Text(Text::from_string(url)))
}

/// `dataUriToString`: the text that a data URL carries in Base64, whatever its media type is; `BadText` for any other
/// text.
pub fn f_data_uri_to_string(alloc: Global, args: &Vals) -> Result<Val, EvalFault>
    requires { length args.now ≡ 1 }
    ensures { Gives (seen result) (from_data_uri_row args.now) }
{
    let url = text_at(Fun::DataUriToString, args, 0)?;
    match encoded_part(url.as_str()) {
        Some(encoded) => decoded(alloc, Fun::DataUriToString, encoded),
        None => Err(EvalFault::BadText {
            function: Fun::DataUriToString,
        }),
    }
}

// The encoding that a data URL carries.
fn encoded_part(url: &str) -> Option<&str>
    ensures { option_map (λ t. t.now) result ≡ encoded_part (behind_scheme url.now) }
{
    match behind_scheme(url) {
        Some(rest) => behind_comma(rest),
        None => None,
    }
}

// What stands behind the scheme of a data URL.
fn behind_scheme(url: &str) -> Option<&str>
    ensures { option_map (λ t. t.now) result ≡ behind_scheme url.now }
{
    url.strip_prefix("data:")
}

// What stands behind the first comma, where `;base64` stands right before it.
fn behind_comma(rest: &str) -> Option<&str>
    ensures { option_map (λ t. t.now) result ≡ behind_comma rest.now }
{
    match rest.split_once(',') {
        Some((kind, encoded)) => {
            if kind.ends_with(";base64") {
                Some(encoded)
            } else {
                None
            }
        }
        None => None,
    }
}

// The text of an encoding.
fn decoded(alloc: Global, function: Fun, encoded: &str) -> Result<Val, EvalFault>
    ensures { Gives (seen result) (decoded_or_bad function (decode_of standard encoded.now)) }
{
    match STANDARD.decode(alloc, encoded.as_bytes()) {
        Ok(bytes) => utf8_text(function, bytes),
        Err(DecodeAllocError::OutOfMemory) => Err(EvalFault::Memory),
        Err(DecodeAllocError::DecodeError(_)) => Err(EvalFault::BadText { function }),
    }
}
