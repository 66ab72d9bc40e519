//! The digits of a whole number as they are read.
ghost use Rattle.std.specs.Prelude.{◌≡◌, ◌<◌, ◌+◌, ◌*◌, ◌-◌, Option, Some, None, nat_lt, if◌then◌else◌, false, true};
ghost use Rattle.wf_expr.specs.Reading.{signed, limit};

use std::marker::Model;

/// The sign and the digits of a whole number so far, in the range of 64 bits with a sign; seen as whether there is a
/// minus, and the number that the digits make.
#[derive(Drop)]
pub(crate) struct Digits {
    negative: bool,
    magnitude: u64,
}

impl Model for Digits {
    ghost use Rattle.std.specs.Prelude.{ℕ, Bool, ◌<◌};
    ghost use Rattle.wf_expr.specs.Reading.{limit};

    ghost Value = { Bool × ℕ };

    ghost view = { λ a. (a.negative, a.magnitude) };

    ghost invariant = { λ a. a.magnitude < limit a.negative };
}

impl Digits {
    /// A number whose first digit is `c`, which is a digit.
    pub(crate) fn first(negative: bool, c: char) -> Digits
        ensures { result ≡ (negative, c - 48) }
    {
        Digits {
            negative,
            magnitude: digit_value(c),
        }
    }

    /// The number with the digit `c` behind the others, where that is in the range.
    pub(crate) fn then(self, c: char) -> Option<Digits>
        ensures { result ≡ (if nat_lt (10 * self.1 + (c - 48)) (limit self.0) then Some (self.0, 10 * self.1 + (c - 48)) else None) }
    {
        let magnitude = self
            .magnitude
            .saturating_mul(10)
            .saturating_add(digit_value(c));
        if magnitude < limit_of(self.negative) {
            Some(Digits {
                negative: self.negative,
                magnitude,
            })
        } else {
            None
        }
    }

    pub(crate) fn value(self) -> i64
        ensures { result ≡ signed self.0 self.1 }
    {
        if !self.negative {
            self.magnitude as i64
        } else if self.magnitude == 0 {
            0
        } else {
            -((self.magnitude - 1) as i64) - 1
        }
    }
}

fn digit_value(c: char) -> u64
    ensures { result ≡ c - 48 }
{
    (c as u64).saturating_sub(48)
}

fn limit_of(negative: bool) -> u64
    ensures { result ≡ limit negative }
{
    if negative { (1 << 63) + 1 } else { 1 << 63 }
}
