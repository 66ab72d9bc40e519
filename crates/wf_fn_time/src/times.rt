//! The moment and the pattern among the arguments, and a moment printed.
ghost use Rattle.std.specs.Prelude.{◌≡◌, option_map};
ghost use Rattle.wf_val.specs.Arguments.{seen, Gives};
ghost use Rattle.wf_fn_time.specs.Times.{moment_of, pattern_or_default, pattern_of, printed_value, print_time_row, moment_and_pattern, moment_at};

use crate::clock::clock_at;
use crate::pattern::{DEFAULT_PATTERN, Pattern};
use crate::printing::printed;
use crate::reading::read_time;
use crate::ticks::Ticks;
use std::alloc::Global;
use wf_val::{EvalFault, Fun, Text, Val, Vals, bounded, optional_text_at, text_at};

/// A moment printed by a pattern, by default that of round trips: `BadText` of the function for a pattern that is refused.
pub fn print_time(
    alloc: Global,
    moment: Ticks,
    pattern: Option<&Text>,
    function: Fun,
) -> Result<Val, EvalFault>
    ensures { Gives (seen result) (print_time_row moment (option_map (λ t. t.now) pattern.entry) function) }
{
    let pattern = pattern_of(alloc, function, pattern)?;
    printed_value(alloc, moment, &pattern)
}

/// The moment of a timestamp, else `BadText`.
pub fn moment_of(function: Fun, text: &Text) -> Result<Ticks, EvalFault>
    ensures { result ≡ moment_of function text.now }
{
    match read_time(text.as_str()) {
        Some(moment) => Ok(moment),
        None => Err(EvalFault::BadText { function }),
    }
}

/// The pattern that a text writes, by default that of round trips, else `BadText`.
pub fn pattern_of(
    alloc: Global,
    function: Fun,
    pattern: Option<&Text>,
) -> Result<Pattern, EvalFault>
    ensures { Gives result (pattern_of function (option_map (λ t. t.now) pattern.entry)) }
{
    match Pattern::of(alloc, pattern_or_default(pattern))? {
        Some(pattern) => Ok(pattern),
        None => Err(EvalFault::BadText { function }),
    }
}

// The text of a pattern, by default that of round trips.
fn pattern_or_default<'a>(pattern: Option<&'a Text>) -> &'a str
    ensures { result.now ≡ pattern_or_default (option_map (λ t. t.now) pattern.entry) }
{
    match pattern {
        Some(pattern) => pattern.as_str(),
        None => DEFAULT_PATTERN,
    }
}

/// A moment printed.
pub fn printed_value(alloc: Global, moment: Ticks, pattern: &Pattern) -> Result<Val, EvalFault>
    ensures { Gives (seen result) (printed_value moment pattern.now) }
{
    let text = printed(alloc, &clock_at(moment), pattern.parts())?;
    bounded(Val::Text(Text::from_string(text)))
}

/// The moment that is the first argument, and the pattern that may be the second.
pub fn moment_and_pattern(
    alloc: Global,
    function: Fun,
    args: &Vals,
) -> Result<(Ticks, Pattern), EvalFault>
    ensures { Gives result (moment_and_pattern function args.now) }
{
    let text = text_at(function, args, 0)?;
    let pattern = optional_text_at(function, args, 1)?;
    let moment = moment_of(function, text)?;
    let pattern = pattern_of(alloc, function, pattern)?;
    Ok((moment, pattern))
}

/// The moment that is the first argument.
pub fn moment_at(function: Fun, args: &Vals) -> Result<Ticks, EvalFault>
    ensures { result ≡ moment_at function args.now }
{
    moment_of(function, text_at(function, args, 0)?)
}
