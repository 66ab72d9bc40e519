//! What moments, days and moves are, said in another way. Each call tells a caller so, and does nothing.
ghost use Rattle.std.specs.Prelude.{◌≡◌, ◌≤◌, ◌==◌, ℕ, ℤ, suc, if◌then◌else◌};
ghost use Rattle.jiff_core.specs.declared.civil.date.Date.{Date};
ghost use Rattle.wf_fn_time.specs.Calendar.{weekday};
ghost use Rattle.wf_fn_time.specs.Laws.{IsSum, IsUndone, IsLibraryDay, IsReadBack, HasItsTicks};
ghost use Rattle.wf_fn_time.specs.Moments.{last_tick};
ghost use Rattle.wf_fn_time.specs.declared.shift.Shift.{Shift};

use crate::calendar::day_at;
use crate::ticks::Ticks;

/// A moment moved by a number of units is the sum of its ticks and theirs, and there is none where that isn't in the years
/// 1 to 9999. Moved on and back again it is where it was.
pub fn moves_are_sums()
    ensures sum { (unit t : ℕ) (n : ℤ) → t ≤ last_tick → IsSum unit n t }
    ensures undone { (unit t u : ℕ) (s : Shift) → t ≤ last_tick → IsUndone unit s t u }
{}

/// The day of so many days after 1 January of the year 1 is that of the proleptic Gregorian calendar of `jiff_core`, and
/// each day of the week follows the one of the day before.
pub fn days_are_those_of_the_calendar()
    ensures day { (d : Date) (n : ℕ) → IsLibraryDay d n }
    ensures weekday { (n : ℕ) → weekday (suc n) ≡ (if weekday n == 6 then 0 else suc (weekday n)) }
{}

/// What is printed of a moment where no pattern is given is a timestamp of just this moment, whose `ticks` are the
/// moment's.
pub fn printed_moments_are_read(moment: Ticks)
    ensures read { IsReadBack moment }
    ensures ticks { HasItsTicks moment }
{
    let _day = day_at(moment.get() / 864_000_000_000);
}
