// The lines that say why a run isn't resubmitted.
ghost use Rattle.std.specs.Prelude.{◌≡◌, ◌++◌, ◌∷◌, IfOk};
ghost use Rattle.hex.specs.Hex.{encode_lower};
ghost use Rattle.wf_json.specs.Json.{string};
ghost use Rattle.wf_top.specs.Refusal.{find_line, find_words, refusal_line, refusal_words};

use std::alloc::{AllocError, Global};
use wf_files::{FindFault, with_text};
use wf_resubmit::ResubmitFault;
use wf_val::{Digest, Text};

fn find_words(alloc: Global, fault: &FindFault) -> Result<Vec<u8>, AllocError>
    ensures { IfOk result (λ bytes. bytes.items ≡ find_words fault.now) }
{
    match fault {
        FindFault::NoRun => Ok(b"NoRun".to_vec(alloc)?),
        FindFault::Twice { first, second } => {
            Ok(format!(in alloc; "Twice {first} {second}")?.into_bytes())
        }
    }
}

/// The line that says why no record of the run, or not one alone, is in a history.
#[tactic(auto, unfolding(crate::specs::Refusal::find_line))]
pub fn find_line(alloc: Global, fault: &FindFault) -> Result<Vec<u8>, AllocError>
    ensures { IfOk result (λ line. line.items ≡ find_line fault.now) }
{
    let mut line = b"history ".to_vec(alloc)?;
    line.extend_from_slice(&find_words(alloc, fault)?)?;
    line.push(b'\n')?;
    Ok(line)
}

// A word, and two texts behind it as JSON texts.
fn with_texts(alloc: Global, word: &[u8], text: &Text, other: &Text) -> Result<Vec<u8>, AllocError>
    ensures { IfOk result (λ bytes. bytes.items ≡ word.now ++ string text.now ++ 32 ∷ string other.now) }
{
    let mut bytes = with_text(alloc, word, text)?;
    bytes.push(b' ')?;
    wf_json::quote_to(&mut bytes, other.as_str())?;
    Ok(bytes)
}

// A word, and two digests behind it.
fn with_digests(
    alloc: Global,
    word: &str,
    digest: Digest,
    other: Digest,
) -> Result<Vec<u8>, AllocError>
    ensures { IfOk result (λ bytes. bytes.items ≡ word.now ++ encode_lower digest.bytes ++ 32 ∷ encode_lower other.bytes) }
{
    let first = hex::encode(alloc, digest.bytes)?;
    let second = hex::encode(alloc, other.bytes)?;
    Ok(format!(in alloc; "{word}{first} {second}")?.into_bytes())
}

fn refusal_words(alloc: Global, fault: ResubmitFault) -> Result<Vec<u8>, AllocError>
    ensures { IfOk result (λ bytes. bytes.items ≡ refusal_words fault) }
{
    match fault {
        ResubmitFault::NoAction { name } => with_text(alloc, b"NoAction ", &name),
        ResubmitFault::InLoop { name, around } => with_texts(alloc, b"InLoop ", &name, &around),
        ResubmitFault::NotRun { name } => with_text(alloc, b"NotRun ", &name),
        ResubmitFault::OtherDefinition { kept, given } => {
            with_digests(alloc, "OtherDefinition ", kept, given)
        }
        ResubmitFault::Shape { address } => with_text(alloc, b"Shape ", &address.text(alloc)?),
        ResubmitFault::Memory => Ok(Vec::new(alloc)),
    }
}

/// The line that says why a record can't be resubmitted from the actions that are named.
#[tactic(auto, unfolding(crate::specs::Refusal::refusal_line))]
pub fn refusal_line(alloc: Global, fault: ResubmitFault) -> Result<Vec<u8>, AllocError>
    ensures { IfOk result (λ line. line.items ≡ refusal_line fault) }
{
    let mut line = b"resubmit ".to_vec(alloc)?;
    line.extend_from_slice(&refusal_words(alloc, fault)?)?;
    line.push(b'\n')?;
    Ok(line)
}
