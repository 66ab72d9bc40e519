//! The calls of the functions on time.
ghost use Rattle.std.specs.Prelude.{◌≡◌, ◌≤◌, length};

use std::alloc::Global;
use wf_fn_time::{
    f_add_days, f_add_hours, f_add_minutes, f_add_seconds, f_add_to_time, f_date_difference,
    f_day_of_month, f_day_of_week, f_day_of_year, f_format_date_time, f_start_of_day,
    f_start_of_hour, f_start_of_month, f_subtract_from_time, f_ticks,
};
use wf_val::{EvalFault, Fun, Val, Vals};

// What a function of these gives, where it takes so many arguments.
pub(crate) fn given(alloc: Global, function: Fun, args: &Vals) -> Option<Result<Val, EvalFault>> {
    match args.len() {
        1 => of_one(alloc, function, args),
        2 => of_two(alloc, function, args),
        3 => of_three(alloc, function, args),
        4 => of_four(alloc, function, args),
        _ => None,
    }
}

fn of_one(alloc: Global, function: Fun, args: &Vals) -> Option<Result<Val, EvalFault>>
    requires { length args.now ≡ 1 }
{
    match function {
        Fun::DayOfMonth => Some(f_day_of_month(args)),
        Fun::DayOfYear => Some(f_day_of_year(args)),
        Fun::DayOfWeek => Some(f_day_of_week(args)),
        Fun::Ticks => Some(f_ticks(args)),
        _ => of_printed(alloc, function, args),
    }
}

fn of_two(alloc: Global, function: Fun, args: &Vals) -> Option<Result<Val, EvalFault>>
    requires { length args.now ≡ 2 }
{
    match function {
        Fun::DateDifference => Some(f_date_difference(alloc, args)),
        Fun::AddDays | Fun::AddHours | Fun::AddMinutes | Fun::AddSeconds => {
            of_moved(alloc, function, args)
        }
        _ => of_printed(alloc, function, args),
    }
}

fn of_three(alloc: Global, function: Fun, args: &Vals) -> Option<Result<Val, EvalFault>>
    requires { length args.now ≡ 3 }
{
    match function {
        Fun::AddToTime | Fun::SubtractFromTime => of_units(alloc, function, args),
        _ => of_moved(alloc, function, args),
    }
}

fn of_four(alloc: Global, function: Fun, args: &Vals) -> Option<Result<Val, EvalFault>>
    requires { length args.now ≡ 4 }
{
    of_units(alloc, function, args)
}

fn of_printed(alloc: Global, function: Fun, args: &Vals) -> Option<Result<Val, EvalFault>>
    requires at_least { 1 ≤ length args.now }
    requires at_most { length args.now ≤ 2 }
{
    match function {
        Fun::FormatDateTime => Some(f_format_date_time(alloc, args)),
        Fun::StartOfDay => Some(f_start_of_day(alloc, args)),
        Fun::StartOfHour => Some(f_start_of_hour(alloc, args)),
        Fun::StartOfMonth => Some(f_start_of_month(alloc, args)),
        _ => None,
    }
}

fn of_moved(alloc: Global, function: Fun, args: &Vals) -> Option<Result<Val, EvalFault>>
    requires at_least { 2 ≤ length args.now }
    requires at_most { length args.now ≤ 3 }
{
    match function {
        Fun::AddDays => Some(f_add_days(alloc, args)),
        Fun::AddHours => Some(f_add_hours(alloc, args)),
        Fun::AddMinutes => Some(f_add_minutes(alloc, args)),
        Fun::AddSeconds => Some(f_add_seconds(alloc, args)),
        _ => None,
    }
}

fn of_units(alloc: Global, function: Fun, args: &Vals) -> Option<Result<Val, EvalFault>>
    requires at_least { 3 ≤ length args.now }
    requires at_most { length args.now ≤ 4 }
{
    match function {
        Fun::AddToTime => Some(f_add_to_time(alloc, args)),
        Fun::SubtractFromTime => Some(f_subtract_from_time(alloc, args)),
        _ => None,
    }
}
