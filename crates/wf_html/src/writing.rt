//! The writing of pieces. Each call takes a buffer, and gives it back with a piece behind.
ghost use Rattle.std.specs.Prelude.{◌≡◌, ◌∷◌, ◌++◌, [], IfOk, decimal};
ghost use Rattle.wf_html.specs.Html.{closed, escape, escaped, opened, said, with_text, written};

use crate::tag::Tag;
use std::alloc::AllocError;

/// A tag opens.
pub fn open(bytes: Vec<u8>, tag: Tag) -> Result<Vec<u8>, AllocError>
    ensures { IfOk result (λ b. b.items ≡ written bytes.items (opened tag ∷ [])) }
{
    let mut bytes = bytes;
    bytes.extend_from_slice(tag.open_text().as_bytes())?;
    Ok(bytes)
}

/// A tag closes.
pub fn close(bytes: Vec<u8>, tag: Tag) -> Result<Vec<u8>, AllocError>
    ensures { IfOk result (λ b. b.items ≡ written bytes.items (closed tag ∷ [])) }
{
    let mut bytes = bytes;
    bytes.extend_from_slice(tag.close_text().as_bytes())?;
    Ok(bytes)
}

// Bytes, and behind them a byte or the reference that stands for it.
fn with_escaped(bytes: Vec<u8>, byte: u8) -> Result<Vec<u8>, AllocError>
    ensures { IfOk result (λ b. b.items ≡ bytes.items ++ escaped byte) }
{
    let mut bytes = bytes;
    match byte {
        b'&' => bytes.extend_from_slice(b"&amp;")?,
        b'<' => bytes.extend_from_slice(b"&lt;")?,
        b'>' => bytes.extend_from_slice(b"&gt;")?,
        b'"' => bytes.extend_from_slice(b"&quot;")?,
        b'\'' => bytes.extend_from_slice(b"&#39;")?,
        _ => bytes.push(byte)?,
    }
    Ok(bytes)
}

/// A text is said, which is given as its bytes.
#[tactic(auto, using(std::proofs::Common::append_assoc))]
pub fn say_bytes(bytes: Vec<u8>, text: &[u8]) -> Result<Vec<u8>, AllocError>
    ensures { IfOk result (λ b. b.items ≡ written bytes.items (said text.now ∷ [])) }
{
    let mut bytes = bytes;
    for byte in text {
        bytes = with_escaped(bytes, *byte)?;
    }
    Ok(bytes)
}

/// A text is said.
pub fn say(bytes: Vec<u8>, text: &str) -> Result<Vec<u8>, AllocError>
    ensures { IfOk result (λ b. b.items ≡ written bytes.items (said text.now ∷ [])) }
{
    say_bytes(bytes, text.as_bytes())
}

/// A text is said alone in a tag.
pub fn say_in(bytes: Vec<u8>, tag: Tag, text: &str) -> Result<Vec<u8>, AllocError>
    ensures { IfOk result (λ b. b.items ≡ written bytes.items (with_text tag text.now)) }
{
    let bytes = open(bytes, tag)?;
    let bytes = say(bytes, text)?;
    let bytes = close(bytes, tag)?;
    Ok(bytes)
}
