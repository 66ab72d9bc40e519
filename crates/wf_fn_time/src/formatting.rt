//! A moment printed, and cut back to the start of a unit.
ghost use Rattle.std.specs.Prelude.{◌≡◌, ◌≤◌, length};
ghost use Rattle.wf_val.specs.Arguments.{seen, Gives};
ghost use Rattle.wf_fn_time.specs.Formatting.{format_date_time_row, start_of_day_row, start_of_hour_row, start_of_month_row, month_start};

use crate::calendar::{day_at, day_number};
use crate::ticks::Ticks;
use crate::times::{moment_and_pattern, printed_value};
use std::alloc::Global;
use wf_val::{EvalFault, Fun, Val, Vals};

/// `formatDateTime`: a moment printed.
pub fn f_format_date_time(alloc: Global, args: &Vals) -> Result<Val, EvalFault>
    requires at_least { 1 ≤ length args.now }
    requires at_most { length args.now ≤ 2 }
    ensures { Gives (seen result) (format_date_time_row args.now) }
{
    let (moment, pattern) = moment_and_pattern(alloc, Fun::FormatDateTime, args)?;
    printed_value(alloc, moment, &pattern)
}

/// `startOfDay`: the start of the day in UTC.
pub fn f_start_of_day(alloc: Global, args: &Vals) -> Result<Val, EvalFault>
    requires at_least { 1 ≤ length args.now }
    requires at_most { length args.now ≤ 2 }
    ensures { Gives (seen result) (start_of_day_row args.now) }
{
    let (moment, pattern) = moment_and_pattern(alloc, Fun::StartOfDay, args)?;
    printed_value(alloc, moment.cut(864_000_000_000), &pattern)
}

/// `startOfHour`: the start of the hour in UTC.
pub fn f_start_of_hour(alloc: Global, args: &Vals) -> Result<Val, EvalFault>
    requires at_least { 1 ≤ length args.now }
    requires at_most { length args.now ≤ 2 }
    ensures { Gives (seen result) (start_of_hour_row args.now) }
{
    let (moment, pattern) = moment_and_pattern(alloc, Fun::StartOfHour, args)?;
    printed_value(alloc, moment.cut(36_000_000_000), &pattern)
}

/// `startOfMonth`: the start of the first day of the month in UTC.
pub fn f_start_of_month(alloc: Global, args: &Vals) -> Result<Val, EvalFault>
    requires at_least { 1 ≤ length args.now }
    requires at_most { length args.now ≤ 2 }
    ensures { Gives (seen result) (start_of_month_row args.now) }
{
    let (moment, pattern) = moment_and_pattern(alloc, Fun::StartOfMonth, args)?;
    printed_value(alloc, month_start(moment), &pattern)
}

// The start of the month of a moment.
fn month_start(moment: Ticks) -> Ticks
    ensures { result ≡ month_start moment }
{
    let day = day_at(moment.get() / 864_000_000_000);
    Ticks::on_day(day_number(day.year, day.month, 1), 0)
}
