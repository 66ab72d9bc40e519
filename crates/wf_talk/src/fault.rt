//! Why a line of a talk is no answer.
ghost use Rattle.std.specs.Prelude.{◌≡◌, ◌++◌, IfOk};
ghost use Rattle.wf_answers.specs.declared.fault.AnswerFault.{AnswerFault};
ghost use Rattle.wf_json.specs.Json.{string};
ghost use Rattle.wf_json.specs.declared.fault.JsonFault.{JsonFault};
ghost use Rattle.wf_talk.specs.Line.{fault_words, form_fault, json_fault, not_wanted_words};

use std::alloc::{AllocError, Global};
use wf_answers::AnswerFault;
use wf_json::JsonFault;
use wf_val::{Address, Text};

/// Why a line is no answer. Pointers are those of RFC 6901, from the line's value on, and the least by bytes.
#[derive(Drop)]
pub enum LineFault {
    /// It is no JSON text.
    NotJson,
    /// A number in it isn't whole, or out of range.
    NotWhole { pointer: Text },
    /// It nests too deep.
    TooDeep { pointer: Text },
    /// Its value isn't of the form of an answer.
    Form { pointer: Text },
    /// Memory ran out.
    Memory,
}

impl From<JsonFault> for LineFault {
    ghost from_gives = { λ fault e. e ≡ json_fault fault };

    fn from(fault: JsonFault) -> Self {
        match fault {
            JsonFault::NotJson => LineFault::NotJson,
            JsonFault::NotWhole { pointer } => LineFault::NotWhole { pointer },
            JsonFault::TooDeep { pointer } => LineFault::TooDeep { pointer },
            JsonFault::Memory => LineFault::Memory,
        }
    }
}

impl From<AnswerFault> for LineFault {
    ghost from_gives = { λ fault e. e ≡ form_fault fault };

    fn from(fault: AnswerFault) -> Self {
        match fault {
            AnswerFault::Form { pointer } => LineFault::Form { pointer },
            AnswerFault::Memory => LineFault::Memory,
        }
    }
}

// A word, and a text behind it as a JSON text.
fn with_text(alloc: Global, word: &[u8], text: &Text) -> Result<Vec<u8>, AllocError>
    ensures { IfOk result (λ bytes. bytes.items ≡ word.now ++ string text.now) }
{
    let mut bytes = word.to_vec(alloc)?;
    wf_json::quote_to(&mut bytes, text.as_str())?;
    Ok(bytes)
}

/// A fault as it is printed.
pub(crate) fn fault_words(alloc: Global, fault: &LineFault) -> Result<Vec<u8>, AllocError>
    ensures { IfOk result (λ bytes. bytes.items ≡ fault_words fault.now) }
{
    match fault {
        LineFault::NotJson => Ok(b"NotJson".to_vec(alloc)?),
        LineFault::NotWhole { pointer } => with_text(alloc, b"NotWhole ", pointer),
        LineFault::TooDeep { pointer } => with_text(alloc, b"TooDeep ", pointer),
        LineFault::Form { pointer } => with_text(alloc, b"Form ", pointer),
        LineFault::Memory => Ok(Vec::new(alloc)),
    }
}

/// That no answer is wanted for this attempt.
pub(crate) fn not_wanted_words(
    alloc: Global,
    address: &Address,
    attempt: u32,
) -> Result<Vec<u8>, AllocError>
    ensures { IfOk result (λ bytes. bytes.items ≡ not_wanted_words (address.now, attempt)) }
{
    let mut bytes = with_text(alloc, b"NotWanted ", &address.text(alloc)?)?;
    bytes.extend_from_slice(format!(in alloc; " {attempt}")?.as_bytes())?;
    Ok(bytes)
}
