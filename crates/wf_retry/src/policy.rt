//! Which outcomes of an attempt are tried again, how often, and which policy a value is.
ghost use Rattle.std.specs.Prelude.{◌≡◌, option_map};
ghost use Rattle.wf_retry.specs.Again.{again, is_retried, retries};
ghost use Rattle.wf_retry.specs.Reading.{are_intervals, is_interval, is_interval_or_absent, number_in, policy_by, policy_by_count, policy_of};
ghost use Rattle.wf_val.specs.Seen.{tree};

use crate::duration::is_duration;
use wf_val::Val;

/// How often a request is sent again.
#[derive(Clone, Copy, PartialEq, Eq, Debug)]
pub enum Policy {
    /// Four times: the policy of type `default`, and of an action that has none.
    Standard,
    /// Not at all: the policy of type `none`.
    Never,
    /// At most so many times, 1 to 90 where the policy was read: `fixed` and `exponential`, whose intervals have no effect.
    Count(u32),
}

/// What an attempt came to.
#[derive(Clone, Copy, PartialEq, Eq, Debug)]
pub enum Outcome {
    /// The status code of an answer.
    Code(u32),
    NoConnection,
    /// No answer came in time. This is final: no policy tries again.
    TimedOut,
}

/// Why a value is no policy. Of several reasons the first in this order is named.
#[derive(Clone, Copy, PartialEq, Eq, Debug)]
pub enum PolicyFault {
    /// It is no object, or its `type` is none of the four.
    BadType,
    /// Its count, which isn't from 1 to 90; 0 where it has none that is a whole number.
    Count { n: i64 },
    /// Its `interval` is absent, or one of its three intervals is no duration.
    Interval,
}

impl Policy {
    /// How often an attempt may be repeated.
    pub fn retries(&self) -> u32
        ensures { result ≡ retries self.now }
    {
        match self {
            Policy::Standard => 4,
            Policy::Never => 0,
            Policy::Count(n) => *n,
        }
    }

    /// Whether another attempt follows after so many, counted from 1, of which the last had this outcome.
    pub fn again(&self, tries: u32, outcome: Outcome) -> bool
        ensures { result ≡ again self.now tries outcome }
    {
        tries <= self.retries() && outcome.is_retried()
    }

    fn by_count(n: i64, has_intervals: bool) -> Result<Policy, PolicyFault>
        ensures { result ≡ policy_by_count n has_intervals }
    {
        if 1 <= n && n <= 90 {
            if has_intervals {
                Ok(Policy::Count(n as u32))
            } else {
                Err(PolicyFault::Interval)
            }
        } else {
            Err(PolicyFault::Count { n })
        }
    }

    fn by_type(name: &str, value: &Val) -> Result<Policy, PolicyFault>
        ensures { result ≡ policy_by name.now (tree value.now) }
    {
        if name.eq_ignore_ascii_case("default") {
            Ok(Policy::Standard)
        } else if name.eq_ignore_ascii_case("none") {
            Ok(Policy::Never)
        } else if name.eq_ignore_ascii_case("fixed") || name.eq_ignore_ascii_case("exponential") {
            Policy::by_count(number_in(value.member("count")), are_intervals(value))
        } else {
            Err(PolicyFault::BadType)
        }
    }

    /// The policy that a value is. Its `type` is compared without the case of ASCII letters, and a member that is null is
    /// there and wrong. Of a policy `default` or `none` nothing but the type is looked at.
    pub fn read(value: &Val) -> Result<Policy, PolicyFault>
        ensures { result ≡ policy_of (tree value.now) }
    {
        match value.member("type") {
            Some(Val::Text(name)) => Policy::by_type(name.as_str(), value),
            _ => Err(PolicyFault::BadType),
        }
    }
}

impl Outcome {
    fn is_retried(self) -> bool
        ensures { result ≡ is_retried self }
    {
        match self {
            Outcome::Code(code) => code == 408 || code == 429 || (500 <= code && code <= 599),
            Outcome::NoConnection => true,
            Outcome::TimedOut => false,
        }
    }
}

fn is_interval(value: Option<&Val>) -> bool
    ensures { result ≡ is_interval (option_map (λ v. tree v.now) value.entry) }
{
    match value {
        Some(Val::Text(text)) => is_duration(text.as_str()),
        _ => false,
    }
}

fn is_interval_or_absent(value: Option<&Val>) -> bool
    ensures { result ≡ is_interval_or_absent (option_map (λ v. tree v.now) value.entry) }
{
    match value {
        None => true,
        Some(value) => is_interval(Some(value)),
    }
}

fn are_intervals(value: &Val) -> bool
    ensures { result ≡ are_intervals (tree value.now) }
{
    is_interval(value.member("interval"))
        && is_interval_or_absent(value.member("minimumInterval"))
        && is_interval_or_absent(value.member("maximumInterval"))
}

fn number_in(value: Option<&Val>) -> i64
    ensures { result ≡ number_in (option_map (λ v. tree v.now) value.entry) }
{
    match value {
        Some(Val::Int(n)) => *n,
        _ => 0,
    }
}
