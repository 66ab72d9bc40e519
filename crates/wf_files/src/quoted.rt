// Words of a fault with what it names behind them.
ghost use Rattle.std.specs.Prelude.{◌≡◌, ◌++◌, ◌∷◌, IfOk, decimal};
ghost use Rattle.wf_json.specs.Json.{string};

use std::alloc::{AllocError, Global};
use wf_val::Text;

/// A word, and a text behind it as a JSON text.
pub fn with_text(alloc: Global, word: &[u8], text: &Text) -> Result<Vec<u8>, AllocError>
    ensures { IfOk result (λ bytes. bytes.items ≡ word.now ++ string text.now) }
{
    let mut bytes = word.to_vec(alloc)?;
    wf_json::quote_to(&mut bytes, text.as_str())?;
    Ok(bytes)
}

/// A word, a text behind it as a JSON text, and a number.
pub fn with_pair(
    alloc: Global,
    word: &[u8],
    text: &Text,
    number: u32,
) -> Result<Vec<u8>, AllocError>
    ensures { IfOk result (λ bytes. bytes.items ≡ word.now ++ (string text.now ++ (32 ∷ decimal number))) }
{
    let mut bytes = with_text(alloc, word, text)?;
    bytes.extend_from_slice(format!(in alloc; " {number}")?.as_bytes())?;
    Ok(bytes)
}

/// A word, and a number behind it.
pub fn with_number(alloc: Global, word: &str, number: u64) -> Result<Vec<u8>, AllocError>
    ensures { IfOk result (λ bytes. bytes.items ≡ word.now ++ decimal number) }
{
    Ok(format!(in alloc; "{word}{number}")?.into_bytes())
}
