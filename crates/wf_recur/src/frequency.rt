//! The unit in which a recurrence counts.
ghost use Rattle.std.specs.Prelude.{◌≡◌};
ghost use Rattle.wf_recur.specs.Frequency.{frequency_of};

/// The unit in which a recurrence counts.
#[derive(Clone, Copy, PartialEq, Eq, Debug)]
pub enum Frequency {
    Second,
    Minute,
    Hour,
    Day,
    Week,
    Month,
}

impl Frequency {
    /// The frequency of this name, in any case of its ASCII letters.
    pub fn of(name: &str) -> Option<Frequency>
        ensures { result ≡ frequency_of name.now }
    {
        if name.eq_ignore_ascii_case("Second") {
            Some(Frequency::Second)
        } else if name.eq_ignore_ascii_case("Minute") {
            Some(Frequency::Minute)
        } else if name.eq_ignore_ascii_case("Hour") {
            Some(Frequency::Hour)
        } else if name.eq_ignore_ascii_case("Day") {
            Some(Frequency::Day)
        } else if name.eq_ignore_ascii_case("Week") {
            Some(Frequency::Week)
        } else if name.eq_ignore_ascii_case("Month") {
            Some(Frequency::Month)
        } else {
            None
        }
    }
}
