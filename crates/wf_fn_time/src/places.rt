//! Where a moment stands.
ghost use Rattle.std.specs.Prelude.{◌≡◌, length};
ghost use Rattle.wf_val.specs.Arguments.{seen};
ghost use Rattle.wf_fn_time.specs.Places.{day_of_month_row, day_of_year_row, day_of_week_row, ticks_row};

use crate::calendar::{day_at, day_of_year};
use crate::times::moment_at;
use wf_val::{EvalFault, Fun, Val, Vals};

/// `dayOfMonth`: the day of the month, from 1.
pub fn f_day_of_month(args: &Vals) -> Result<Val, EvalFault>
    requires { length args.now ≡ 1 }
    ensures { seen result ≡ day_of_month_row args.now }
{
    let moment = moment_at(Fun::DayOfMonth, args)?;
    let day = day_at(moment.get() / 864_000_000_000).day;
    Ok(Val::Int(i64::from(day)))
}

/// `dayOfYear`: the day of the year, from 1.
pub fn f_day_of_year(args: &Vals) -> Result<Val, EvalFault>
    requires { length args.now ≡ 1 }
    ensures { seen result ≡ day_of_year_row args.now }
{
    let moment = moment_at(Fun::DayOfYear, args)?;
    let day = day_of_year(moment.get() / 864_000_000_000);
    Ok(Val::Int(i64::from(day)))
}

/// `dayOfWeek`: the day of the week, Sunday being 0.
pub fn f_day_of_week(args: &Vals) -> Result<Val, EvalFault>
    requires { length args.now ≡ 1 }
    ensures { seen result ≡ day_of_week_row args.now }
{
    let moment = moment_at(Fun::DayOfWeek, args)?;
    let day = (moment.get() / 864_000_000_000 + 1) % 7;
    Ok(Val::Int(day as i64))
}

/// `ticks`: ticks of 100 ns since 0001-01-01T00:00:00 in UTC.
pub fn f_ticks(args: &Vals) -> Result<Val, EvalFault>
    requires { length args.now ≡ 1 }
    ensures { seen result ≡ ticks_row args.now }
{
    let moment = moment_at(Fun::Ticks, args)?;
    Ok(Val::Int(moment.get() as i64))
}
