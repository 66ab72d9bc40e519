//! The bytes that a row stands for.
use std::alloc::{AllocError, Global};

// The most bytes that a row may stand for.
const MOST: usize = 1 << 26;

/// The bytes of a row: those that are there, unless it begins with one of these words.
///
/// - `times N TEXT` is a list of the text so many times;
/// - `lists N TEXT` is the text in so many lists, each in the next;
/// - `objects N TEXT` is the text in so many objects, each the member `k` of the next;
/// - `string N TEXT` is a JSON text, that is the text so many times between two quotation marks;
/// - `bytes DIGITS` is two hexadecimal digits a byte.
pub(crate) fn bytes_of_row(alloc: Global, row: &[u8]) -> Result<Vec<u8>, AllocError> {
    match spoken(alloc, row)? {
        Some(bytes) => Ok(bytes),
        None => Vec::from_slice(alloc, row),
    }
}

// The bytes of a row that begins with a word.
fn spoken(alloc: Global, row: &[u8]) -> Result<Option<Vec<u8>>, AllocError> {
    let Ok(row) = str::from_utf8(row) else {
        return Ok(None);
    };
    let Some((word, rest)) = row.split_once(" ") else {
        return Ok(None);
    };
    if word == "bytes" {
        return hexadecimal(alloc, rest);
    }
    let Some((number, text)) = rest.split_once(" ") else {
        return Ok(None);
    };
    let Ok(count) = number.parse::<u32>() else {
        return Ok(None);
    };
    match word {
        "times" => repeated(alloc, "[", text, ",", count, "]"),
        "lists" => nested(alloc, "[", text, "]", count),
        "objects" => nested(alloc, "{\"k\":", text, "}", count),
        "string" => repeated(alloc, "\"", text, "", count, "\""),
        _ => Ok(None),
    }
}

// The text so many times, with another between, and a beginning and an end.
fn repeated(
    alloc: Global,
    begin: &str,
    text: &str,
    between: &str,
    count: u32,
    end: &str,
) -> Result<Option<Vec<u8>>, AllocError> {
    let mut bytes = Vec::from_slice(alloc, begin.as_bytes())?;
    for place in 0..count {
        if bytes.len() > MOST {
            return Ok(None);
        }
        if place > 0 {
            bytes.extend_from_slice(between.as_bytes())?;
        }
        bytes.extend_from_slice(text.as_bytes())?;
    }
    bytes.extend_from_slice(end.as_bytes())?;
    Ok(Some(bytes))
}

// The text between so many beginnings and as many ends.
fn nested(
    alloc: Global,
    begin: &str,
    text: &str,
    end: &str,
    count: u32,
) -> Result<Option<Vec<u8>>, AllocError> {
    let mut bytes = Vec::new(alloc);
    for _ in 0..count {
        if bytes.len() > MOST {
            return Ok(None);
        }
        bytes.extend_from_slice(begin.as_bytes())?;
    }
    bytes.extend_from_slice(text.as_bytes())?;
    for _ in 0..count {
        bytes.extend_from_slice(end.as_bytes())?;
    }
    Ok(Some(bytes))
}

// The byte that two hexadecimal digits spell.
fn byte_of(digits: &[u8]) -> Option<u8> {
    let digits = str::from_utf8(digits).ok()?;
    u8::from_str_radix(digits, 16).ok()
}

// The bytes that hexadecimal digits spell.
fn hexadecimal(alloc: Global, digits: &str) -> Result<Option<Vec<u8>>, AllocError> {
    let mut bytes = Vec::new(alloc);
    for pair in digits.as_bytes().chunks(2) {
        match byte_of(pair) {
            Some(byte) => bytes.push(byte)?,
            None => return Ok(None),
        }
    }
    Ok(Some(bytes))
}
