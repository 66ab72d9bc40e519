//! Schedules as they are read.
ghost use Rattle.std.specs.Prelude.{◌≡◌, ◌≢◌, ◌≤◌, Ok, Err, IfErr, IfOk};
ghost use Rattle.wf_schedule.specs.Reading.{digit_then};
ghost use Rattle.wf_schedule.specs.Schedule.{digits_from, is_digit, number_of, schedule_of, small};

use crate::fault::ScheduleFault;
use std::alloc::Global;
use wf_lines::{split_line, without_return};
use wf_val::Schedule;

fn is_digit(byte: u8) -> bool
    ensures { result ≡ is_digit byte }
{
    48 <= byte && byte <= 57
}

// What a digit comes to behind those that come to `sum`, where it is one and the number is one of a schedule.
fn digit_then(sum: u64, byte: u8) -> Option<u64>
    requires { sum ≤ 4294967295 }
    ensures { result ≡ digit_then sum byte }
{
    if !is_digit(byte) {
        return None;
    }
    let more = 10 * sum + (byte - 48) as u64;
    if more <= 4294967295 { Some(more) } else { None }
}

// What the digits of a line come to.
#[tactic(auto, using(crate::proofs::LineLemmas::none_more, crate::proofs::LineLemmas::some_more, crate::proofs::LineLemmas::more_within))]
fn digits(line: &[u8]) -> Option<u32>
    ensures { result ≡ small (digits_from 0 line.now) }
{
    let mut sum: u64 = 0;
    for byte in line {
        let Some(more) = digit_then(sum, *byte) else {
            return None;
        };
        sum = more;
    }
    Some(sum as u32)
}

// The number that a line is.
fn number_of(line: &[u8]) -> Option<u32>
    ensures { result ≡ number_of line.now }
{
    if 1 <= line.len() && line.len() <= 10 {
        digits(line)
    } else {
        None
    }
}

/// The schedule that the bytes of a file are, a number a line.
#[tactic(auto, using(crate::proofs::LineLemmas::read_one, crate::proofs::LineLemmas::read_bad, crate::proofs::LineLemmas::read_all, crate::proofs::LineLemmas::none_behind))]
pub fn read_schedule(alloc: Global, bytes: &[u8]) -> Result<Schedule, ScheduleFault>
    ensures numbers { IfOk result (λ s. schedule_of bytes.now ≡ Ok s) }
    ensures fault { IfErr result (λ f. f ≢ ScheduleFault.Memory → schedule_of bytes.now ≡ Err f) }
{
    let mut schedule = Schedule::new(alloc);
    let mut rest = bytes;
    let mut line: u64 = 1;
    while !rest.is_empty() {
        let (first, more) = split_line(rest);
        let Some(number) = number_of(without_return(first)) else {
            return Err(ScheduleFault::Line { number: line });
        };
        schedule.push(number)?;
        rest = more;
        line += 1;
    }
    Ok(schedule)
}
