//! Moments moved.
ghost use Rattle.std.specs.Prelude.{◌≡◌, ◌≤◌, length, option_map};
ghost use Rattle.wf_val.specs.Arguments.{seen, Gives};
ghost use Rattle.wf_fn_time.specs.Moving.{add_row, add_days_row, add_hours_row, add_minutes_row, add_seconds_row};
ghost use Rattle.wf_fn_time.specs.Moving.{moved_row, add_to_time_row, subtract_from_time_row, shifted_by};
ghost use Rattle.wf_fn_time.specs.Times.{or_range};

use crate::shift::{Shift, TimeUnit};
use crate::ticks::Ticks;
use crate::times::{moment_of, pattern_of, printed_value};
use std::alloc::Global;
use wf_val::{EvalFault, Fun, Text, Val, Vals, number_at, optional_text_at, text_at};

/// `addDays`: a moment so many days later, or earlier for a number below 0. `Range` outside the years 1 to 9999.
pub fn f_add_days(alloc: Global, args: &Vals) -> Result<Val, EvalFault>
    requires at_least { 2 ≤ length args.now }
    requires at_most { length args.now ≤ 3 }
    ensures { Gives (seen result) (add_days_row args.now) }
{
    added(alloc, Fun::AddDays, TimeUnit::Day, args)
}

/// `addHours`: as `addDays`, by hours.
pub fn f_add_hours(alloc: Global, args: &Vals) -> Result<Val, EvalFault>
    requires at_least { 2 ≤ length args.now }
    requires at_most { length args.now ≤ 3 }
    ensures { Gives (seen result) (add_hours_row args.now) }
{
    added(alloc, Fun::AddHours, TimeUnit::Hour, args)
}

/// `addMinutes`: as `addDays`, by minutes.
pub fn f_add_minutes(alloc: Global, args: &Vals) -> Result<Val, EvalFault>
    requires at_least { 2 ≤ length args.now }
    requires at_most { length args.now ≤ 3 }
    ensures { Gives (seen result) (add_minutes_row args.now) }
{
    added(alloc, Fun::AddMinutes, TimeUnit::Minute, args)
}

/// `addSeconds`: as `addDays`, by seconds.
pub fn f_add_seconds(alloc: Global, args: &Vals) -> Result<Val, EvalFault>
    requires at_least { 2 ≤ length args.now }
    requires at_most { length args.now ≤ 3 }
    ensures { Gives (seen result) (add_seconds_row args.now) }
{
    added(alloc, Fun::AddSeconds, TimeUnit::Second, args)
}

/// `addToTime`: a moment so many units later. `Range` where the third argument names no unit, and outside the years 1 to
/// 9999.
pub fn f_add_to_time(alloc: Global, args: &Vals) -> Result<Val, EvalFault>
    requires at_least { 3 ≤ length args.now }
    requires at_most { length args.now ≤ 4 }
    ensures { Gives (seen result) (add_to_time_row args.now) }
{
    let function = Fun::AddToTime;
    let text = text_at(function, args, 0)?;
    let shift = Shift::of(number_at(function, args, 1)?);
    let unit = text_at(function, args, 2)?;
    let pattern = optional_text_at(function, args, 3)?;
    let moment = moment_of(function, text)?;
    let unit = TimeUnit::of(unit.as_str());
    moved_time(alloc, function, moment, pattern, shift, unit)
}

/// `subtractFromTime`: as `addToTime`, the other way.
pub fn f_subtract_from_time(alloc: Global, args: &Vals) -> Result<Val, EvalFault>
    requires at_least { 3 ≤ length args.now }
    requires at_most { length args.now ≤ 4 }
    ensures { Gives (seen result) (subtract_from_time_row args.now) }
{
    let function = Fun::SubtractFromTime;
    let text = text_at(function, args, 0)?;
    let shift = Shift::of(number_at(function, args, 1)?).opposite();
    let unit = text_at(function, args, 2)?;
    let pattern = optional_text_at(function, args, 3)?;
    let moment = moment_of(function, text)?;
    let unit = TimeUnit::of(unit.as_str());
    moved_time(alloc, function, moment, pattern, shift, unit)
}

/// A moment moved by so many of a unit, and printed by a pattern, by default that of round trips. `BadText` of the
/// function for a pattern that is refused; then `Range` where there is no unit, and outside the years 1 to 9999.
pub fn moved_time(
    alloc: Global,
    function: Fun,
    moment: Ticks,
    pattern: Option<&Text>,
    shift: Shift,
    unit: Option<TimeUnit>,
) -> Result<Val, EvalFault>
    ensures { Gives (seen result) (moved_row function moment (option_map (λ t. t.now) pattern.entry) shift unit) }
{
    let pattern = pattern_of(alloc, function, pattern)?;
    let moved = moved(function, moment, shift, unit)?;
    printed_value(alloc, moved, &pattern)
}

// A moment moved, else `Range`.
fn moved(
    function: Fun,
    moment: Ticks,
    shift: Shift,
    unit: Option<TimeUnit>,
) -> Result<Ticks, EvalFault>
    ensures { result ≡ or_range function (shifted_by unit shift moment) }
{
    let Some(unit) = unit else {
        return Err(EvalFault::Range { function });
    };
    match unit.shifted(shift, moment) {
        Some(moment) => Ok(moment),
        None => Err(EvalFault::Range { function }),
    }
}

// A moment moved by a number of a unit.
fn added(alloc: Global, function: Fun, unit: TimeUnit, args: &Vals) -> Result<Val, EvalFault>
    ensures { Gives (seen result) (add_row function unit args.now) }
{
    let text = text_at(function, args, 0)?;
    let shift = Shift::of(number_at(function, args, 1)?);
    let pattern = optional_text_at(function, args, 2)?;
    let moment = moment_of(function, text)?;
    moved_time(alloc, function, moment, pattern, shift, Some(unit))
}
