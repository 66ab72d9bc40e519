//! Further schedules, made from a seed.
ghost use Rattle.std.specs.Prelude.{◌≡◌, ◌<◌, IfOk, string_bytes};
ghost use Rattle.wf_tests.specs.Schedules.{further_schedule, line, next, start};

use std::alloc::{AllocError, Global};

fn next(state: u64) -> u64
    requires { state < 2147483648 }
    ensures next { result ≡ next state }
    ensures within { result < 2147483648 }
{
    (state * 1103515245 + 12345) % 2147483648
}

fn start(seed: u64, place: u64) -> u64
    ensures start { result ≡ start seed place }
    ensures within { result < 2147483648 }
{
    let sum = u128::from(seed % 2147483648) + u128::from(place) * 7919;
    (sum % 2147483648) as u64
}

fn line(alloc: Global, state: u64) -> Result<String, AllocError>
    ensures { IfOk result (λ bytes. string_bytes bytes ≡ line state) }
{
    let number = state / 65536;
    format!(in alloc; "{number}\n")
}

/// The text of the schedule of a place, from 0.
pub(crate) fn further_schedule(alloc: Global, seed: u64, place: u64) -> Result<Vec<u8>, AllocError>
    ensures { IfOk result (λ bytes. bytes.items ≡ further_schedule seed place) }
{
    let mut bytes = Vec::new(alloc);
    let mut state = start(seed, place);
    let mut left = 500u64;
    while left > 0 {
        state = next(state);
        bytes.extend_from_slice(line(alloc, state)?.as_bytes())?;
        left -= 1;
    }
    Ok(bytes)
}
