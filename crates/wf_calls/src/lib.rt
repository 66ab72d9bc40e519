//! Which function a call in an expression is of.
//!
//! `wf_val` says which function a name is that of, and finds it by going over all functions. A definition may have a million calls, and each
//! of them is looked up more than once. So it is done here by the length of the name first: of one length there are at most fourteen names.
//! The answer is the same.
#![tactic(auto)]

ghost use Rattle.std.specs.Prelude.{◌≡◌};
ghost use Rattle.std.specs.List.{find};
ghost use Rattle.std.specs.Str.{str_eq_ignore_ascii_case};
ghost use Rattle.wf_calls.specs.Lengths.{of_length};
ghost use Rattle.wf_val.specs.Function.{function_name, function_of};

use wf_val::{Fun, Text};

// The functions whose names have so many bytes, the ones that are called most first.
fn of_length(length: usize) -> &'static [Fun]
    ensures { result.now ≡ of_length length }
{
    if length == 2 {
        &[Fun::If, Fun::Or]
    } else if length == 3 {
        &[
            Fun::Add,
            Fun::Sub,
            Fun::Mul,
            Fun::Div,
            Fun::Mod,
            Fun::Min,
            Fun::Max,
            Fun::Not,
            Fun::Int,
            Fun::And,
        ]
    } else if length == 4 {
        &[
            Fun::Body,
            Fun::Item,
            Fun::Json,
            Fun::Last,
            Fun::Less,
            Fun::Sort,
            Fun::Take,
            Fun::Skip,
            Fun::Join,
            Fun::Trim,
            Fun::Bool,
            Fun::Guid,
            Fun::Rand,
        ]
    } else if length == 5 {
        &[
            Fun::Items,
            Fun::First,
            Fun::Empty,
            Fun::Split,
            Fun::Range,
            Fun::Array,
            Fun::Union,
            Fun::Slice,
            Fun::Chunk,
            Fun::IsInt,
            Fun::Ticks,
        ]
    } else if length == 6 {
        &[
            Fun::String,
            Fun::Concat,
            Fun::Equals,
            Fun::Length,
            Fun::Result,
            Fun::Action,
            Fun::UtcNow,
            Fun::Base64,
        ]
    } else if length == 7 {
        &[
            Fun::Outputs,
            Fun::Actions,
            Fun::Trigger,
            Fun::ToLower,
            Fun::ToUpper,
            Fun::Replace,
            Fun::IndexOf,
            Fun::Greater,
            Fun::Reverse,
            Fun::AddDays,
            Fun::UriHost,
            Fun::UriPath,
            Fun::UriPort,
            Fun::DataUri,
        ]
    } else if length == 8 {
        &[
            Fun::Coalesce,
            Fun::Contains,
            Fun::Workflow,
            Fun::EndsWith,
            Fun::AddHours,
            Fun::UriQuery,
        ]
    } else if length == 9 {
        &[
            Fun::Variables,
            Fun::Substring,
            Fun::AddToTime,
            Fun::DayOfYear,
            Fun::DayOfWeek,
            Fun::UriScheme,
        ]
    } else if length == 10 {
        &[
            Fun::Parameters,
            Fun::StartsWith,
            Fun::AddMinutes,
            Fun::AddSeconds,
            Fun::StartOfDay,
            Fun::DayOfMonth,
        ]
    } else if length == 11 {
        &[
            Fun::TriggerBody,
            Fun::CreateArray,
            Fun::LastIndexOf,
            Fun::AddProperty,
            Fun::SetProperty,
            Fun::StartOfHour,
            Fun::GetPastTime,
        ]
    } else if length == 12 {
        &[
            Fun::Intersection,
            Fun::LessOrEquals,
            Fun::StartOfMonth,
            Fun::UriComponent,
            Fun::DecodeBase64,
        ]
    } else if length == 13 {
        &[Fun::GetFutureTime]
    } else if length == 14 {
        &[
            Fun::FormatDateTime,
            Fun::TriggerOutputs,
            Fun::RemoveProperty,
            Fun::DateDifference,
            Fun::Base64ToString,
        ]
    } else if length == 15 {
        &[
            Fun::GreaterOrEquals,
            Fun::UriPathAndQuery,
            Fun::DataUriToString,
        ]
    } else if length == 16 {
        &[Fun::IterationIndexes, Fun::SubtractFromTime]
    } else if length == 18 {
        &[Fun::EncodeUriComponent, Fun::DecodeUriComponent]
    } else if length == 20 {
        &[Fun::UriComponentToString]
    } else {
        &[]
    }
}

// The first of these functions that has the name.
fn first_named(functions: &[Fun], name: &str) -> Option<Fun>
    ensures { result ≡ find (λ f. str_eq_ignore_ascii_case name.now (function_name f)) functions.now }
{
    functions
        .iter()
        .copied()
        .find(|function| name.eq_ignore_ascii_case(function.name()))
}

/// The function that an expression calls by the name; the case of ASCII letters doesn't count. It is `Fun::of`, in less time.
pub fn function_named(name: &Text) -> Option<Fun>
    ensures { result ≡ function_of name.now }
{
    let called = name.as_str();
    first_named(of_length(called.len()), called)
}
