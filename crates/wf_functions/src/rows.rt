//! Functions of values alone.
ghost use Rattle.std.specs.Prelude.{◌≡◌, length, map, IfOk};
ghost use Rattle.wf_val.specs.Arguments.{Gives, seen};
ghost use Rattle.wf_val.specs.Seen.{tree};
ghost use Rattle.wf_functions.specs.Rows.{strict_row, string_row, json_row, as_text, texts_in, items_row};

use std::alloc::{AllocError, Global};
use wf_fn_list::{
    f_add_property, f_array, f_chunk, f_contains, f_create_array, f_empty, f_first, f_join, f_last,
    f_length, f_range, f_remove_property, f_reverse, f_set_property, f_skip, f_take,
};
use wf_fn_math::{
    f_add, f_bool, f_div, f_equals, f_greater, f_greater_or_equals, f_int, f_is_int, f_less,
    f_less_or_equals, f_max, f_min, f_mod, f_mul, f_not, f_sub,
};
use wf_fn_sets::{f_intersection, f_sort, f_union};
use wf_fn_text::{
    f_concat, f_ends_with, f_index_of, f_last_index_of, f_replace, f_slice, f_split, f_starts_with,
    f_substring, f_to_lower, f_to_upper, f_trim,
};
use wf_fn_time::{
    f_add_days, f_add_hours, f_add_minutes, f_add_seconds, f_add_to_time, f_date_difference,
    f_day_of_month, f_day_of_week, f_day_of_year, f_format_date_time, f_start_of_day,
    f_start_of_hour, f_start_of_month, f_subtract_from_time, f_ticks,
};
use wf_fn_uri::{
    f_base64, f_base64_to_string, f_data_uri, f_data_uri_to_string, f_decode_base64,
    f_decode_uri_component, f_encode_uri_component, f_uri_component, f_uri_component_to_string,
    f_uri_host, f_uri_path, f_uri_path_and_query, f_uri_port, f_uri_query, f_uri_scheme,
};
use wf_json::JsonFault;
use wf_val::{EvalFault, Fields, Fun, Text, Val, Vals, wrong_type};

/// What a function of values gives of these; whether that fits isn't tested.
pub fn strict_row(alloc: Global, function: Fun, args: &Vals) -> Result<Val, EvalFault>
    ensures { Gives (seen result) (strict_row function args.now) }
{
    if !function.takes(args.len()) {
        return Err(wrong_type(function, args.len()));
    }
    match function {
        Fun::Concat => f_concat(alloc, args),
        Fun::Substring => f_substring(alloc, args),
        Fun::Replace => f_replace(alloc, args),
        Fun::Split => f_split(alloc, args),
        Fun::ToLower => f_to_lower(alloc, args),
        Fun::ToUpper => f_to_upper(alloc, args),
        Fun::Trim => f_trim(alloc, args),
        Fun::StartsWith => f_starts_with(alloc, args),
        Fun::EndsWith => f_ends_with(alloc, args),
        Fun::IndexOf => f_index_of(alloc, args),
        Fun::LastIndexOf => f_last_index_of(alloc, args),
        Fun::Slice => f_slice(alloc, args),
        Fun::Length => f_length(args),
        Fun::Empty => f_empty(args),
        Fun::Contains => f_contains(args),
        Fun::First => f_first(alloc, args),
        Fun::Last => f_last(alloc, args),
        Fun::Take => f_take(alloc, args),
        Fun::Skip => f_skip(alloc, args),
        Fun::Join => join(alloc, args),
        Fun::Union => f_union(alloc, args),
        Fun::Intersection => f_intersection(alloc, args),
        Fun::CreateArray => f_create_array(alloc, args),
        Fun::Array => f_array(alloc, args),
        Fun::Range => f_range(alloc, args),
        Fun::Chunk => f_chunk(alloc, args),
        Fun::Sort => f_sort(alloc, args),
        Fun::Reverse => f_reverse(alloc, args),
        Fun::AddProperty => f_add_property(alloc, args),
        Fun::SetProperty => f_set_property(alloc, args),
        Fun::RemoveProperty => f_remove_property(alloc, args),
        Fun::Add => f_add(args),
        Fun::Sub => f_sub(args),
        Fun::Mul => f_mul(args),
        Fun::Div => f_div(args),
        Fun::Mod => f_mod(args),
        Fun::Min => f_min(args),
        Fun::Max => f_max(args),
        Fun::Equals => f_equals(args),
        Fun::Greater => f_greater(args),
        Fun::GreaterOrEquals => f_greater_or_equals(args),
        Fun::Less => f_less(args),
        Fun::LessOrEquals => f_less_or_equals(args),
        Fun::Not => f_not(args),
        Fun::Int => f_int(args),
        Fun::Bool => f_bool(args),
        Fun::IsInt => f_is_int(args),
        Fun::AddDays => f_add_days(alloc, args),
        Fun::AddHours => f_add_hours(alloc, args),
        Fun::AddMinutes => f_add_minutes(alloc, args),
        Fun::AddSeconds => f_add_seconds(alloc, args),
        Fun::AddToTime => f_add_to_time(alloc, args),
        Fun::SubtractFromTime => f_subtract_from_time(alloc, args),
        Fun::FormatDateTime => f_format_date_time(alloc, args),
        Fun::StartOfDay => f_start_of_day(alloc, args),
        Fun::StartOfHour => f_start_of_hour(alloc, args),
        Fun::StartOfMonth => f_start_of_month(alloc, args),
        Fun::DayOfMonth => f_day_of_month(args),
        Fun::DayOfYear => f_day_of_year(args),
        Fun::DayOfWeek => f_day_of_week(args),
        Fun::Ticks => f_ticks(args),
        Fun::DateDifference => f_date_difference(alloc, args),
        Fun::UriComponent => f_uri_component(alloc, args),
        Fun::EncodeUriComponent => f_encode_uri_component(alloc, args),
        Fun::UriComponentToString => f_uri_component_to_string(alloc, args),
        Fun::DecodeUriComponent => f_decode_uri_component(alloc, args),
        Fun::UriScheme => f_uri_scheme(alloc, args),
        Fun::UriHost => f_uri_host(alloc, args),
        Fun::UriPath => f_uri_path(alloc, args),
        Fun::UriQuery => f_uri_query(alloc, args),
        Fun::UriPathAndQuery => f_uri_path_and_query(alloc, args),
        Fun::UriPort => f_uri_port(alloc, args),
        Fun::Base64 => f_base64(alloc, args),
        Fun::Base64ToString => f_base64_to_string(alloc, args),
        Fun::DecodeBase64 => f_decode_base64(alloc, args),
        Fun::DataUri => f_data_uri(alloc, args),
        Fun::DataUriToString => f_data_uri_to_string(alloc, args),
        Fun::String => string(alloc, args),
        Fun::Json => json(alloc, args),
        _ => Err(EvalFault::NoValue {
            name: Text::of(alloc, function.name())?,
        }),
    }
}

// A value as text.
fn string(alloc: Global, args: &Vals) -> Result<Val, EvalFault>
    ensures { Gives (seen result) (string_row args.now) }
{
    match args.as_slice() {
        [value, ..] => Ok(Val::Text(wf_json::text(alloc, value)?)),
        [] => Err(wrong_type(Fun::String, 0)),
    }
}

// The value that a text is the JSON of.
fn json(alloc: Global, args: &Vals) -> Result<Val, EvalFault>
    ensures { Gives (seen result) (json_row args.now) }
{
    match args.as_slice() {
        [Val::Text(text), ..] => match wf_json::read(alloc, text.as_str().as_bytes()) {
            Ok(value) => Ok(value),
            Err(JsonFault::Memory) => Err(EvalFault::Memory),
            Err(_) => Err(EvalFault::BadText {
                function: Fun::Json,
            }),
        },
        [Val::Null, ..] => Ok(Val::Obj(Fields::new(alloc))),
        [value, ..] => Ok(value.copy(alloc)?),
        [] => Err(wrong_type(Fun::Json, 0)),
    }
}

// `join`, whose items are turned into texts first.
fn join(alloc: Global, args: &Vals) -> Result<Val, EvalFault>
    requires { length args.now ≡ 2 }
    ensures { Gives (seen result) (items_row args.now) }
{
    let texts = with_texts(alloc, args.as_slice())?;
    f_join(alloc, &texts)
}

// The arguments, each list with its items as texts.
fn with_texts(alloc: Global, args: &[Val]) -> Result<Vals, AllocError>
    ensures { IfOk result (λ ts. ts ≡ map texts_in (map tree args.now)) }
{
    let mut texts = Vals::new(alloc);
    for arg in args {
        texts.push(texts_in(alloc, arg)?)?;
    }
    Ok(texts)
}

#[tactic(auto, using(wf_val::proofs::ValueTreeLemmas::listed))]
fn texts_in(alloc: Global, value: &Val) -> Result<Val, AllocError>
    ensures { IfOk result (λ v. tree v ≡ texts_in (tree value.now)) }
{
    match value {
        Val::List(items) => Ok(Val::List(texts_of(alloc, items.as_slice())?)),
        _ => value.copy(alloc),
    }
}

fn texts_of(alloc: Global, items: &[Val]) -> Result<Vals, AllocError>
    ensures { IfOk result (λ ts. ts ≡ map as_text (map tree items.now)) }
{
    let mut texts = Vals::new(alloc);
    for item in items {
        texts.push(Val::Text(wf_json::text(alloc, item)?))?;
    }
    Ok(texts)
}
