//! What is asked of a value.
ghost use Rattle.std.specs.List.{list_all};
ghost use Rattle.std.specs.Prelude.{◌≡◌};
ghost use Rattle.wf_answers.specs.Asked.{is_fitting_object, is_index, is_list, is_name, is_printable, is_status, is_text, is_within};
ghost use Rattle.wf_val.specs.Get.{is_object};
ghost use Rattle.wf_val.specs.Seen.{tree};
ghost use Rattle.wf_val.specs.ValueTree as value;

use wf_val::{Val, char_count};

pub(crate) fn is_text(value: &Val) -> bool
    ensures { result ≡ is_text (tree value.now) }
{
    matches!(value, Val::Text(_))
}

pub(crate) fn is_list(value: &Val) -> bool
    ensures { result ≡ is_list (tree value.now) }
{
    matches!(value, Val::List(_))
}

pub(crate) fn is_object(value: &Val) -> bool
    ensures { result ≡ is_object (tree value.now) }
{
    matches!(value, Val::Obj(_))
}

/// Whether it is an object that fits.
pub(crate) fn is_fitting_object(value: &Val) -> bool
    ensures { result ≡ is_fitting_object (tree value.now) }
{
    is_object(value) && value.fits()
}

/// Whether it is a text of 1 to `most` characters and no control character (those below U+0020, and U+007F).
pub(crate) fn is_name(most: u64, value: &Val) -> bool
    ensures { result ≡ is_name most (tree value.now) }
{
    match value {
        Val::Text(text) => is_name_text(most, text.as_str()),
        _ => false,
    }
}

fn is_name_text(most: u64, name: &str) -> bool
    ensures { result ≡ is_name most (value.text name.now) }
{
    let count = char_count(name);
    1 <= count && count <= most && is_all_printable(name)
}

fn is_all_printable(text: &str) -> bool
    ensures { result ≡ list_all is_printable text.now }
{
    for byte in text.as_bytes() {
        if !is_printable(*byte) {
            return false;
        }
    }
    true
}

fn is_printable(byte: u8) -> bool
    ensures { result ≡ is_printable byte }
{
    byte >= b' ' && byte != 0x7f
}

/// Whether it is a number of such a range, its ends included.
pub(crate) fn is_within(least: u32, most: u32, value: &Val) -> bool
    ensures { result ≡ is_within least most (tree value.now) }
{
    match value {
        Val::Int(n) => 0 <= *n && least as i64 <= *n && *n <= most as i64,
        _ => false,
    }
}

/// Whether it is a number from 0.
pub(crate) fn is_index(value: &Val) -> bool
    ensures { result ≡ is_index (tree value.now) }
{
    match value {
        Val::Int(n) => 0 <= *n,
        _ => false,
    }
}

/// Whether it says what an attempt came to: a status code of HTTP (RFC 9110, section 15), or a word for none.
pub(crate) fn is_status(value: &Val) -> bool
    ensures { result ≡ is_status (tree value.now) }
{
    match value {
        Val::Int(n) => 100 <= *n && *n <= 599,
        Val::Text(text) => is_no_code(text.as_str()),
        _ => false,
    }
}

fn is_no_code(text: &str) -> bool
    ensures { result ≡ is_status (value.text text.now) }
{
    text == "noConnection" || text == "timedOut"
}
