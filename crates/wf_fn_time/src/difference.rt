//! From one moment to another.
ghost use Rattle.std.specs.Prelude.{◌≡◌, ◌++◌, ◌<◌, length, IfOk, OnOk, string_bytes};
ghost use Rattle.wf_val.specs.Arguments.{seen, Gives};
ghost use Rattle.wf_fn_time.specs.Difference.{days_printed, fraction_printed, span_printed, difference_printed, date_difference_row};

use crate::printing::push_digits;
use crate::ticks::Ticks;
use crate::times::moment_of;
use std::alloc::{AllocError, Global};
use wf_val::{EvalFault, Fun, Text, Val, Vals, bounded, text_at};

/// `dateDifference`: the second moment less the first.
pub fn f_date_difference(alloc: Global, args: &Vals) -> Result<Val, EvalFault>
    requires { length args.now ≡ 2 }
    ensures { Gives (seen result) (date_difference_row args.now) }
{
    let from = text_at(Fun::DateDifference, args, 0)?;
    let to = text_at(Fun::DateDifference, args, 1)?;
    let from = moment_of(Fun::DateDifference, from)?;
    let to = moment_of(Fun::DateDifference, to)?;
    let text = difference_printed(alloc, from, to)?;
    bounded(Val::Text(Text::from_string(text)))
}

// The second moment less the first.
fn difference_printed(alloc: Global, from: Ticks, to: Ticks) -> Result<String, AllocError>
    ensures { IfOk result (λ s. string_bytes s ≡ difference_printed from to) }
{
    let (from, to) = (from.get(), to.get());
    let mut text = String::new(alloc);
    if to < from {
        text.push('-')?;
        push_span(alloc, &mut text, from - to)?;
        return Ok(text);
    }
    push_span(alloc, &mut text, to - from)?;
    Ok(text)
}

// So many ticks as days, hours, minutes and seconds.
fn push_span(alloc: Global, text: &mut String, ticks: u64) -> Result<(), AllocError>
    ensures { OnOk result (string_bytes text.new ≡ string_bytes text.old ++ span_printed ticks) }
{
    push_days(alloc, text, ticks / 864_000_000_000)?;
    push_digits(text, 2, (ticks / 36_000_000_000 % 24) as u32)?;
    text.push(':')?;
    push_digits(text, 2, (ticks / 600_000_000 % 60) as u32)?;
    text.push(':')?;
    push_digits(text, 2, (ticks / 10_000_000 % 60) as u32)?;
    push_fraction(text, (ticks % 10_000_000) as u32)
}

// Whole days and a point, where there are any.
fn push_days(alloc: Global, text: &mut String, days: u64) -> Result<(), AllocError>
    ensures { OnOk result (string_bytes text.new ≡ string_bytes text.old ++ days_printed days) }
{
    if days == 0 {
        return Ok(());
    }
    let number = format!(in alloc; "{days}")?;
    text.push_str(number.as_str())?;
    text.push('.')
}

// A point and seven digits, where there is a fraction of a second.
fn push_fraction(text: &mut String, fraction: u32) -> Result<(), AllocError>
    ensures { OnOk result (string_bytes text.new ≡ string_bytes text.old ++ fraction_printed fraction) }
{
    if fraction == 0 {
        return Ok(());
    }
    text.push('.')?;
    push_digits(text, 7, fraction)
}
