//! Functions of the run's moment.
ghost use Rattle.std.specs.Prelude.{◌≡◌, option_map};
ghost use Rattle.wf_val.specs.Arguments.{Gives, seen};
ghost use Rattle.wf_functions.specs.Timed.{timed_row, utc_now_row, get_future_time_row, get_past_time_row, moment_in};

use std::alloc::Global;
use wf_fn_time::{Shift, Ticks, TimeUnit, moved_time, print_time};
use wf_val::{EvalFault, Fun, Val, Vals, number_at, optional_text_at, text_at, wrong_type};

/// What a function of the moment gives of these arguments; whether that fits isn't tested.
pub fn timed_row(alloc: Global, function: Fun, moment: i64, args: &Vals) -> Result<Val, EvalFault>
    ensures { Gives (seen result) (timed_row function moment args.now) }
{
    if !function.takes(args.len()) {
        return Err(wrong_type(function, args.len()));
    }
    match function {
        Fun::UtcNow => utc_now(alloc, moment, args),
        Fun::GetFutureTime => get_future_time(alloc, moment, args),
        _ => get_past_time(alloc, moment, args),
    }
}

// The moment, printed.
fn utc_now(alloc: Global, moment: i64, args: &Vals) -> Result<Val, EvalFault>
    ensures { Gives (seen result) (utc_now_row moment args.now) }
{
    let pattern = optional_text_at(Fun::UtcNow, args, 0)?;
    let moment = moment_in(Fun::UtcNow, moment)?;
    print_time(alloc, moment, pattern, Fun::UtcNow)
}

// The moment so many units later.
fn get_future_time(alloc: Global, moment: i64, args: &Vals) -> Result<Val, EvalFault>
    ensures { Gives (seen result) (get_future_time_row moment args.now) }
{
    let function = Fun::GetFutureTime;
    let shift = Shift::of(number_at(function, args, 0)?);
    let unit = text_at(function, args, 1)?;
    let pattern = optional_text_at(function, args, 2)?;
    let moment = moment_in(function, moment)?;
    let unit = TimeUnit::of(unit.as_str());
    moved_time(alloc, function, moment, pattern, shift, unit)
}

// The moment so many units earlier.
fn get_past_time(alloc: Global, moment: i64, args: &Vals) -> Result<Val, EvalFault>
    ensures { Gives (seen result) (get_past_time_row moment args.now) }
{
    let function = Fun::GetPastTime;
    let shift = Shift::of(number_at(function, args, 0)?).opposite();
    let unit = text_at(function, args, 1)?;
    let pattern = optional_text_at(function, args, 2)?;
    let moment = moment_in(function, moment)?;
    let unit = TimeUnit::of(unit.as_str());
    moved_time(alloc, function, moment, pattern, shift, unit)
}

// A look's moment, in the years 1 to 9999.
fn moment_in(function: Fun, moment: i64) -> Result<Ticks, EvalFault>
    ensures { result ≡ moment_in function moment }
{
    if moment < 0 {
        return Err(EvalFault::Range { function });
    }
    match Ticks::of(moment as u64) {
        Some(moment) => Ok(moment),
        None => Err(EvalFault::Range { function }),
    }
}
