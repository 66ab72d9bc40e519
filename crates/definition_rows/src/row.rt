//! The file that a row stands for.
use std::alloc::{AllocError, Global};

// The most bytes that a row may stand for.
const MOST: usize = 1 << 26;

/// The text of a row's file, or `None` where a number is missing, or the file would be too long.
pub(crate) fn file_of_row(alloc: Global, row: &str) -> Result<Option<String>, AllocError> {
    match row.strip_prefix("times ") {
        Some(parts) => built(alloc, parts),
        None => Ok(Some(String::from_str(alloc, row)?)),
    }
}

// Parts one behind the other, every second of them so often as it says.
fn built(alloc: Global, parts: &str) -> Result<Option<String>, AllocError> {
    let mut file = String::new(alloc);
    let mut is_counted = false;
    for part in parts.split(" | ") {
        let has_room = if is_counted {
            push_times(alloc, &mut file, part)?
        } else {
            file.push_str(part)?;
            true
        };
        if !has_room {
            return Ok(None);
        }
        is_counted = !is_counted;
    }
    Ok(Some(file))
}

// Whether the part begins with a number and the file has room for what follows it so many times, which is then added.
fn push_times(alloc: Global, file: &mut String, part: &str) -> Result<bool, AllocError> {
    let Some((number, text)) = part.split_once(" ") else {
        return Ok(false);
    };
    let Ok(count) = number.parse::<u32>() else {
        return Ok(false);
    };
    for time in 0..count {
        if file.len() > MOST {
            return Ok(false);
        }
        if time > 0 {
            file.push(',')?;
        }
        push_numbered(alloc, file, text, time)?;
    }
    Ok(true)
}

// The text, with a number of three digits in the place of each `$`.
fn push_numbered(
    alloc: Global,
    file: &mut String,
    text: &str,
    number: u32,
) -> Result<(), AllocError> {
    let digits = format!(in alloc; "{number:03}")?;
    for c in text.chars() {
        if c == '$' {
            file.push_str(digits.as_str())?;
        } else {
            file.push(c)?;
        }
    }
    Ok(())
}
