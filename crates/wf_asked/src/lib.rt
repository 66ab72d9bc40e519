//! What is asked of a value, whatever the form that asks it: its kind, and for a name or a number its range. A form (`wf_places`) asks
//! these of the values in its roles.
#![tactic(auto)]

ghost use Rattle.std.specs.List.{list_all};
ghost use Rattle.std.specs.Prelude.{◌≡◌};
ghost use Rattle.wf_asked.specs.Asked.{is_index, is_list, is_name, is_null, is_number, is_printable, is_text, is_within};
ghost use Rattle.wf_val.specs.Get.{is_object};
ghost use Rattle.wf_val.specs.Seen.{tree};
ghost use Rattle.wf_val.specs.ValueTree as value;

use wf_val::{Val, char_count};

/// Whether it is null.
pub fn is_null(value: &Val) -> bool
    ensures { result ≡ is_null (tree value.now) }
{
    matches!(value, Val::Null)
}

/// Whether it is a number, of whatever size.
pub fn is_number(value: &Val) -> bool
    ensures { result ≡ is_number (tree value.now) }
{
    matches!(value, Val::Int(_))
}

/// Whether it is a text, also one that is empty.
pub fn is_text(value: &Val) -> bool
    ensures { result ≡ is_text (tree value.now) }
{
    matches!(value, Val::Text(_))
}

/// Whether it is a list. Nothing is asked of its items.
pub fn is_list(value: &Val) -> bool
    ensures { result ≡ is_list (tree value.now) }
{
    matches!(value, Val::List(_))
}

/// Whether it is an object. Nothing is asked of its members.
pub fn is_object(value: &Val) -> bool
    ensures { result ≡ is_object (tree value.now) }
{
    matches!(value, Val::Obj(_))
}

/// Whether it is a text of 1 to `most` characters and no control character (those below U+0020, and U+007F).
pub fn is_name(most: u64, value: &Val) -> bool
    ensures { result ≡ is_name most (tree value.now) }
{
    match value {
        Val::Text(text) => is_name_text(most, text.as_str()),
        _ => false,
    }
}

fn is_name_text(most: u64, name: &str) -> bool
    ensures { result ≡ is_name most (value.text name.now) }
{
    let count = char_count(name);
    1 <= count && count <= most && is_all_printable(name)
}

fn is_all_printable(text: &str) -> bool
    ensures { result ≡ list_all is_printable text.now }
{
    for byte in text.as_bytes() {
        if !is_printable(*byte) {
            return false;
        }
    }
    true
}

fn is_printable(byte: u8) -> bool
    ensures { result ≡ is_printable byte }
{
    byte >= b' ' && byte != 0x7f
}

/// Whether it is a number of such a range, its ends included.
pub fn is_within(least: u32, most: u32, value: &Val) -> bool
    ensures { result ≡ is_within least most (tree value.now) }
{
    match value {
        Val::Int(n) => 0 <= *n && least as i64 <= *n && *n <= most as i64,
        _ => false,
    }
}

/// Whether it is a number from 0.
pub fn is_index(value: &Val) -> bool
    ensures { result ≡ is_index (tree value.now) }
{
    match value {
        Val::Int(n) => 0 <= *n,
        _ => false,
    }
}
