ghost use Rattle.std.specs.Prelude.{◌≡◌, ◌≢◌, Ok, Err, IfOk, IfErr};
ghost use Rattle.serde_json.specs.Read.{read as json_text};
ghost use Rattle.wf_val.specs.Seen.{tree};
ghost use Rattle.wf_json.specs.Read.{after_mark, read_json, read_value};

use crate::fault::{Flaw, JsonFault};
use crate::flaws::{least_flawed, value_past_flaws};
use crate::stop::Stop;
use crate::straight::read_straight;
use std::alloc::Global;
use wf_val::{Text, Val};

/// The value that the bytes are the JSON text of. One leading byte order mark is dropped, and of
/// members with one name the last stands. A member that a later one of its name replaces has to be
/// JSON, and isn't looked at further.
pub fn read(alloc: Global, bytes: &[u8]) -> Result<Val, JsonFault>
    ensures value { IfOk result (λ v. read_value bytes.now ≡ Ok (tree v)) }
    ensures fault { IfErr result (λ e. e ≢ JsonFault.Memory → read_value bytes.now ≡ Err e) }
{
    match simdutf8::compat::from_utf8(without_mark(bytes)) {
        Ok(text) => read_text(alloc, text),
        Err(_) => Err(JsonFault::NotJson),
    }
}

// Most texts are read once. Where something is refused further readings tell the place, or the value, since of members
// with one name the last may stand in place of what was refused.
fn read_text(alloc: Global, text: &str) -> Result<Val, JsonFault>
    ensures value { IfOk result (λ v. read_json (json_text text.now) ≡ Ok (tree v)) }
    ensures fault { IfErr result
        (λ e. e ≢ JsonFault.Memory → read_json (json_text text.now) ≡ Err e) }
{
    match read_straight(alloc, text) {
        Ok(value) => Ok(value),
        Err(Stop::Memory) => Err(JsonFault::Memory),
        Err(Stop::NotJson) => Err(JsonFault::NotJson),
        Err(Stop::Flawed) => read_flawed(alloc, text),
    }
}

// A number that isn't whole is named before what is too deep.
fn read_flawed(alloc: Global, text: &str) -> Result<Val, JsonFault>
    ensures value { IfOk result (λ v. read_json (json_text text.now) ≡ Ok (tree v)) }
    ensures fault { IfErr result
        (λ e. e ≢ JsonFault.Memory → read_json (json_text text.now) ≡ Err e) }
{
    if let Some(pointer) = least_flawed(alloc, Flaw::NotWhole, text)? {
        return Err(JsonFault::NotWhole {
            pointer: Text::from_string(pointer),
        });
    }
    if let Some(pointer) = least_flawed(alloc, Flaw::TooDeep, text)? {
        return Err(JsonFault::TooDeep {
            pointer: Text::from_string(pointer),
        });
    }
    value_past_flaws(alloc, text)
}

// The bytes after one byte order mark, where one leads.
fn without_mark(bytes: &[u8]) -> &[u8]
    ensures { result.now ≡ after_mark bytes.now }
{
    if bytes.starts_with(&[239, 187, 191]) {
        &bytes[3..]
    } else {
        bytes
    }
}
