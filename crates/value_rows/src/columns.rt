//! What is told of a value.
use sha2::{Digest as _, Sha256};
use std::alloc::{AllocError, Global};
use std::cmp::Ordering;
use wf_json::JsonFault;
use wf_val::Val;

// The longest column that is written as it is, in bytes.
const LONGEST: usize = 400;

/// Puts the columns of a value, beside the value before it.
pub(crate) fn push_columns(
    alloc: Global,
    line: &mut Vec<u8>,
    value: &Val,
    last: &Option<Val>,
) -> Result<(), AllocError> {
    push_size(alloc, line, value)?;
    line.extend_from_slice(if value.fits() { b"fits\t" } else { b"big\t" })?;
    line.extend_from_slice(order_sign(value, last).as_bytes())?;
    line.push(b'\t')?;
    push_texts(alloc, line, value)
}

// How deep the value nests, and its weight.
fn push_size(alloc: Global, line: &mut Vec<u8>, value: &Val) -> Result<(), AllocError> {
    let size = value.size();
    let sizes = format!(in alloc; "{}\t{}\t", size.depth, size.weight)?;
    line.extend_from_slice(sizes.as_bytes())
}

// How the value stands to the one before it.
fn order_sign(value: &Val, last: &Option<Val>) -> &'static str {
    match last {
        None => "-",
        Some(last) => match value.order(last) {
            Ordering::Less => "<",
            Ordering::Equal => "=",
            Ordering::Greater => ">",
        },
    }
}

// The JSON text, the value as text, and whether all that was made of the value is the value.
fn push_texts(alloc: Global, line: &mut Vec<u8>, value: &Val) -> Result<(), AllocError> {
    let json = wf_json::write(alloc, value)?;
    push_column(alloc, line, json.as_slice())?;
    line.push(b'\t')?;
    let text = wf_json::quoted(alloc, wf_json::text(alloc, value)?.as_str())?;
    if text.as_str().as_bytes() == json.as_slice() {
        line.push(b'=')?;
    } else {
        push_column(alloc, line, text.as_str().as_bytes())?;
    }
    let kept = is_kept(alloc, value, json.as_slice())?;
    line.extend_from_slice(if kept { b"\t=" } else { b"\tlost" })
}

// Whether a copy, and what is read again from the text, are the value.
fn is_kept(alloc: Global, value: &Val, json: &[u8]) -> Result<bool, AllocError> {
    let copy = value.copy(alloc)?;
    match wf_json::read(alloc, json) {
        Ok(again) => Ok(copy.same(value) && again.same(value)),
        Err(JsonFault::Memory) => Err(AllocError),
        Err(_) => Ok(false),
    }
}

// The column, or its length and digest where it is long.
fn push_column(alloc: Global, line: &mut Vec<u8>, column: &[u8]) -> Result<(), AllocError> {
    if column.len() <= LONGEST {
        return line.extend_from_slice(column);
    }
    let digest = hex::encode(alloc, Sha256::digest(column))?;
    let told = format!(in alloc; "{} bytes {digest}", column.len())?;
    line.extend_from_slice(told.as_bytes())
}
