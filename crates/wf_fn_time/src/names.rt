//! English names of months and days of the week.
ghost use Rattle.std.specs.Prelude.{◌≡◌};
ghost use Rattle.wf_fn_time.specs.Names.{month_name, month_abbreviation, weekday_name, weekday_abbreviation};

/// The name of a month, counted from 1.
pub fn month_name(month: u8) -> &'static str
    ensures { result.now ≡ month_name month }
{
    match month {
        1 => "January",
        2 => "February",
        3 => "March",
        4 => "April",
        5 => "May",
        6 => "June",
        7 => "July",
        8 => "August",
        9 => "September",
        10 => "October",
        11 => "November",
        _ => "December",
    }
}

/// Its first three letters.
pub fn month_abbreviation(month: u8) -> &'static str
    ensures { result.now ≡ month_abbreviation month }
{
    match month {
        1 => "Jan",
        2 => "Feb",
        3 => "Mar",
        4 => "Apr",
        5 => "May",
        6 => "Jun",
        7 => "Jul",
        8 => "Aug",
        9 => "Sep",
        10 => "Oct",
        11 => "Nov",
        _ => "Dec",
    }
}

/// The name of a day of the week, Sunday being 0.
pub fn weekday_name(weekday: u8) -> &'static str
    ensures { result.now ≡ weekday_name weekday }
{
    match weekday {
        0 => "Sunday",
        1 => "Monday",
        2 => "Tuesday",
        3 => "Wednesday",
        4 => "Thursday",
        5 => "Friday",
        _ => "Saturday",
    }
}

/// Its first three letters.
pub fn weekday_abbreviation(weekday: u8) -> &'static str
    ensures { result.now ≡ weekday_abbreviation weekday }
{
    match weekday {
        0 => "Sun",
        1 => "Mon",
        2 => "Tue",
        3 => "Wed",
        4 => "Thu",
        5 => "Fri",
        _ => "Sat",
    }
}
