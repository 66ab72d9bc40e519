//! The text of a row.
use std::alloc::{AllocError, Global};
use wf_val::{Text, Val, Vals};

// The most bytes that a row's text may have.
const MOST: usize = 1 << 26;

/// The text that a value stands for: a text, or texts in a list, where a number says how often the text behind it
/// stands. Any other value is the empty text.
pub(crate) fn text_of(alloc: Global, value: &Val) -> Result<Text, AllocError> {
    match value {
        Val::Text(text) => text.copy(alloc),
        Val::List(parts) => joined(alloc, parts),
        _ => Text::of(alloc, ""),
    }
}

fn joined(alloc: Global, parts: &Vals) -> Result<Text, AllocError> {
    let mut text = String::new(alloc);
    let mut times: u64 = 1;
    for part in parts.as_slice() {
        match part {
            Val::Int(number) => times = number.unsigned_abs(),
            Val::Text(part) => {
                push_times(&mut text, part.as_str(), times)?;
                times = 1;
            }
            _ => {}
        }
    }
    Ok(Text::from_string(text))
}

// The part so many times behind the text, up to the most that a text may have.
fn push_times(text: &mut String, part: &str, times: u64) -> Result<(), AllocError> {
    for _ in 0..times {
        if text.len() > MOST {
            return Ok(());
        }
        text.push_str(part)?;
    }
    Ok(())
}
