//! The text that a row stands for.
use std::alloc::{AllocError, Global};
use wf_val::{Text, Val, Vals};

// The most bytes that a row's text may have.
const MOST: usize = 1 << 26;

/// The text of a row, or `None` where the line is no row.
pub(crate) fn text_of_row(alloc: Global, row: &str) -> Result<Option<Text>, AllocError> {
    match wf_json::read(alloc, row.as_bytes()) {
        Ok(Val::Text(text)) => Ok(Some(text)),
        Ok(Val::List(parts)) => joined(alloc, &parts),
        Ok(_) => Ok(None),
        Err(wf_json::JsonFault::Memory) => Err(AllocError),
        Err(_) => Ok(None),
    }
}

// The texts one behind the other, each as often as the number before it says, or once.
fn joined(alloc: Global, parts: &Vals) -> Result<Option<Text>, AllocError> {
    let mut text = String::new(alloc);
    let mut times: u64 = 1;
    for part in parts.as_slice() {
        match part {
            Val::Int(number) => {
                times = number.unsigned_abs();
            }
            Val::Text(part) => {
                if !push_times(&mut text, part.as_str(), times)? {
                    return Ok(None);
                }
                times = 1;
            }
            _ => return Ok(None),
        }
    }
    Ok(Some(Text::from_string(text)))
}

// Whether the text has room for the part so many times, which is then added.
fn push_times(text: &mut String, part: &str, times: u64) -> Result<bool, AllocError> {
    for _ in 0..times {
        if text.len() > MOST {
            return Ok(false);
        }
        text.push_str(part)?;
    }
    Ok(true)
}
