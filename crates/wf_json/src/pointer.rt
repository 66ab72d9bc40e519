//! Pointers to places in a value (RFC 6901), made from the inside out, and the least of them by bytes.
//!
//! A walk that looks for what is at fault hands up the least pointer below each place, if there is one, and each step
//! up puts itself in front. So a value without a fault costs no memory.
ghost use Rattle.std.specs.Prelude.{◌≡◌, ◌++◌, Some, IfOk, option_map, string_bytes};
ghost use Rattle.wf_json.specs.Pointer.{flagged, here, item_step, least, lesser, member_step};

use std::alloc::{AllocError, Global};
use std::cmp::Ordering;

/// The pointer to the place itself, if it is at fault.
pub fn here(alloc: Global, flawed: bool) -> Option<String>
    ensures { option_map string_bytes result ≡ least (here flawed) }
{
    if flawed {
        Some(String::new(alloc))
    } else {
        None
    }
}

/// The pointer to the member of a name, whether or not there is one, if it is at fault.
pub fn flagged(alloc: Global, flawed: bool, name: &str) -> Result<Option<String>, AllocError>
    ensures { IfOk result (λ p. option_map string_bytes p ≡ least (flagged flawed name.now)) }
{
    if flawed {
        Ok(Some(step_to(alloc, name)?))
    } else {
        Ok(None)
    }
}

/// The lesser of two pointers, each of which may be absent.
pub fn lesser(one: Option<String>, other: Option<String>) -> Option<String>
    ensures { option_map string_bytes result
        ≡ lesser (option_map string_bytes one) (option_map string_bytes other) }
{
    match other {
        None => one,
        Some(other) => Some(lesser_of(one, other)),
    }
}

/// The lesser of the best pointer so far and a further one.
pub fn lesser_of(best: Option<String>, found: String) -> String
    ensures { Some (string_bytes result)
        ≡ lesser (option_map string_bytes best) (Some (string_bytes found)) }
{
    match best {
        None => found,
        Some(best) => match best.as_str().cmp(found.as_str()) {
            Ordering::Greater => found,
            _ => best,
        },
    }
}

/// The lesser of the best pointer so far and the one in the item at a place, counted from 0.
pub fn with_item(
    alloc: Global,
    best: Option<String>,
    place: usize,
    rest: Option<String>,
) -> Result<Option<String>, AllocError>
    ensures { IfOk result (λ p. option_map string_bytes p ≡ lesser (option_map string_bytes best)
        (option_map (λ q. item_step place ++ q) (option_map string_bytes rest))) }
{
    match rest {
        None => Ok(best),
        Some(rest) => {
            let pointer = format!(in alloc; "/{place}{rest}")?;
            Ok(Some(lesser_of(best, pointer)))
        }
    }
}

/// The lesser of the best pointer so far and the one in the member of a name.
pub fn with_member(
    alloc: Global,
    best: Option<String>,
    name: &str,
    rest: Option<String>,
) -> Result<Option<String>, AllocError>
    ensures { IfOk result (λ p. option_map string_bytes p ≡ lesser (option_map string_bytes best)
        (option_map (λ q. member_step name.now ++ q) (option_map string_bytes rest))) }
{
    match rest {
        None => Ok(best),
        Some(rest) => {
            let mut pointer = step_to(alloc, name)?;
            pointer.push_str(rest.as_str())?;
            Ok(Some(lesser_of(best, pointer)))
        }
    }
}

/// A pointer's step to the member of a name.
pub fn step_to(alloc: Global, name: &str) -> Result<String, AllocError>
    ensures { IfOk result (λ p. string_bytes p ≡ member_step name.now) }
{
    let mut step = String::from_str(alloc, "/")?;
    for c in name.chars() {
        match c {
            '~' => step.push_str("~0")?,
            '/' => step.push_str("~1")?,
            _ => step.push(c)?,
        }
    }
    Ok(step)
}
