//! How many arguments a function takes.
ghost use Rattle.std.specs.Prelude.{◌≡◌, None, Some};
ghost use Rattle.wf_val.specs.Arity.{takes, is_between};

use crate::function::Fun;

impl Fun {
    /// Whether a call of the function may have so many arguments. What no expression can call takes none.
    pub fn takes(self, count: u64) -> bool
        ensures { result ≡ takes self count }
    {
        match self {
            Fun::Action
            | Fun::Item
            | Fun::Trigger
            | Fun::TriggerOutputs
            | Fun::TriggerBody
            | Fun::Workflow => between(0, 0, count),
            Fun::UtcNow | Fun::Guid => between(0, 1, count),
            Fun::CreateArray => from(0, count),
            Fun::ToLower
            | Fun::ToUpper
            | Fun::Trim
            | Fun::Length
            | Fun::Empty
            | Fun::First
            | Fun::Last
            | Fun::Array
            | Fun::Reverse
            | Fun::Not
            | Fun::Int
            | Fun::Bool
            | Fun::IsInt
            | Fun::DayOfMonth => between(1, 1, count),
            Fun::DayOfYear
            | Fun::DayOfWeek
            | Fun::Ticks
            | Fun::UriComponent
            | Fun::EncodeUriComponent
            | Fun::UriComponentToString
            | Fun::DecodeUriComponent
            | Fun::UriScheme
            | Fun::UriHost
            | Fun::UriPath
            | Fun::UriQuery
            | Fun::UriPathAndQuery
            | Fun::UriPort
            | Fun::Base64 => between(1, 1, count),
            Fun::Base64ToString
            | Fun::DecodeBase64
            | Fun::DataUri
            | Fun::DataUriToString
            | Fun::String
            | Fun::Json
            | Fun::Actions
            | Fun::Outputs
            | Fun::Body
            | Fun::Result
            | Fun::Items
            | Fun::IterationIndexes
            | Fun::Parameters
            | Fun::Variables => between(1, 1, count),
            Fun::Sort
            | Fun::FormatDateTime
            | Fun::StartOfDay
            | Fun::StartOfHour
            | Fun::StartOfMonth => between(1, 2, count),
            Fun::Concat | Fun::Min | Fun::Max | Fun::And | Fun::Or | Fun::Coalesce => from(
                1, count,
            ),
            Fun::Split
            | Fun::StartsWith
            | Fun::EndsWith
            | Fun::IndexOf
            | Fun::LastIndexOf
            | Fun::Contains
            | Fun::Take
            | Fun::Skip
            | Fun::Join
            | Fun::Range
            | Fun::Chunk
            | Fun::RemoveProperty
            | Fun::Add
            | Fun::Sub => between(2, 2, count),
            Fun::Mul
            | Fun::Div
            | Fun::Mod
            | Fun::Equals
            | Fun::Greater
            | Fun::GreaterOrEquals
            | Fun::Less
            | Fun::LessOrEquals
            | Fun::DateDifference
            | Fun::Rand => between(2, 2, count),
            Fun::Substring
            | Fun::Slice
            | Fun::AddDays
            | Fun::AddHours
            | Fun::AddMinutes
            | Fun::AddSeconds
            | Fun::GetFutureTime
            | Fun::GetPastTime => between(2, 3, count),
            Fun::Union | Fun::Intersection => from(2, count),
            Fun::Replace | Fun::AddProperty | Fun::SetProperty | Fun::If => between(3, 3, count),
            Fun::AddToTime | Fun::SubtractFromTime => between(3, 4, count),
            Fun::Condition
            | Fun::Index
            | Fun::From
            | Fun::JoinWith
            | Fun::Foreach
            | Fun::Switch
            | Fun::Query
            | Fun::ParseJson
            | Fun::Variable
            | Fun::Terminate => false,
        }
    }
}

fn between(least: u64, most: u64, count: u64) -> bool
    ensures { result ≡ is_between least (Some most) count }
{
    least <= count && count <= most
}

fn from(least: u64, count: u64) -> bool
    ensures { result ≡ is_between least None count }
{
    least <= count
}
