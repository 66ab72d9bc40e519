//! Functions of the expression language on time (Workflow Definition Language, reference of the functions in
//! expressions, date and time functions): timestamps read, moved, cut back, compared, and printed by patterns.
//!
//! A timestamp is `yyyy-MM-dd` and perhaps a time of the day with an offset from UTC (`read_time`); a moment is a `Ticks`,
//! which keeps to the years 1 to 9999 by its type. A pattern is one of .NET's for dates and times, without those parts
//! that need a culture or a zone (`print_time`); moments are printed in UTC and in English.
//!
//! Each function is one public call, `f_` and its name in snake case, from the values of its arguments to its value
//! or to the fault that says why it has none. What it gives is its row in `specs/`, unless memory ran out: the types of
//! the arguments are judged from left to right, and the leftmost wrong one is the fault; then the timestamp and the
//! pattern (`BadText`), then the unit and the years (`Range`), and last `TooBig`.
//!
//! The days are those of `jiff_core`'s calendar. `specs/Calendar.antt` says them without it, as so many times the day
//! after 1 January of the year 1, and the two are proved to be the same.
//!
//! Laws stand beside the rows, and say in another way what they mean: `printed_moments_are_read`, `moves_are_sums` and
//! `days_are_those_of_the_calendar`.
//!
//! This crate reads no clock: the moment of a run is handed in. How many arguments a function takes is judged before a
//! call; each call asks for a count of its row.
#![tactic(auto)]

mod calendar;
mod clock;
mod difference;
mod formatting;
mod laws;
mod moving;
mod names;
mod pattern;
mod places;
mod printing;
mod reading;
mod shift;
mod ticks;
mod times;

pub use difference::f_date_difference;
pub use formatting::{f_format_date_time, f_start_of_day, f_start_of_hour, f_start_of_month};
pub use laws::{days_are_those_of_the_calendar, moves_are_sums, printed_moments_are_read};
pub use moving::{
    f_add_days, f_add_hours, f_add_minutes, f_add_seconds, f_add_to_time, f_subtract_from_time,
    moved_time,
};
pub use places::{f_day_of_month, f_day_of_week, f_day_of_year, f_ticks};
pub use reading::read_time;
pub use shift::{Shift, TimeUnit};
pub use ticks::Ticks;
pub use times::print_time;
