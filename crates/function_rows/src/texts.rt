//! The calls of the functions on texts.
ghost use Rattle.std.specs.Prelude.{◌≡◌, ◌<◌, ◌≤◌, length};

use std::alloc::Global;
use wf_fn_text::{
    f_concat, f_ends_with, f_index_of, f_last_index_of, f_replace, f_slice, f_split, f_starts_with,
    f_substring, f_to_lower, f_to_upper, f_trim,
};
use wf_val::{EvalFault, Fun, Val, Vals};

// What a function of these gives, where it takes so many arguments.
pub(crate) fn given(alloc: Global, function: Fun, args: &Vals) -> Option<Result<Val, EvalFault>> {
    match args.len() {
        0 => None,
        1 => of_one(alloc, function, args),
        2 => of_two(alloc, function, args),
        3 => of_three(alloc, function, args),
        _ => of_more(alloc, function, args),
    }
}

fn of_one(alloc: Global, function: Fun, args: &Vals) -> Option<Result<Val, EvalFault>>
    requires { length args.now ≡ 1 }
{
    match function {
        Fun::ToLower => Some(f_to_lower(alloc, args)),
        Fun::ToUpper => Some(f_to_upper(alloc, args)),
        Fun::Trim => Some(f_trim(alloc, args)),
        _ => of_more(alloc, function, args),
    }
}

fn of_two(alloc: Global, function: Fun, args: &Vals) -> Option<Result<Val, EvalFault>>
    requires { length args.now ≡ 2 }
{
    match function {
        Fun::Split => Some(f_split(alloc, args)),
        Fun::StartsWith => Some(f_starts_with(alloc, args)),
        Fun::EndsWith => Some(f_ends_with(alloc, args)),
        Fun::IndexOf => Some(f_index_of(alloc, args)),
        Fun::LastIndexOf => Some(f_last_index_of(alloc, args)),
        _ => of_two_or_three(alloc, function, args),
    }
}

fn of_three(alloc: Global, function: Fun, args: &Vals) -> Option<Result<Val, EvalFault>>
    requires { length args.now ≡ 3 }
{
    match function {
        Fun::Replace => Some(f_replace(alloc, args)),
        _ => of_two_or_three(alloc, function, args),
    }
}

fn of_two_or_three(alloc: Global, function: Fun, args: &Vals) -> Option<Result<Val, EvalFault>>
    requires at_least { 2 ≤ length args.now }
    requires at_most { length args.now ≤ 3 }
{
    match function {
        Fun::Substring => Some(f_substring(alloc, args)),
        Fun::Slice => Some(f_slice(alloc, args)),
        _ => of_more(alloc, function, args),
    }
}

fn of_more(alloc: Global, function: Fun, args: &Vals) -> Option<Result<Val, EvalFault>>
    requires { 0 < length args.now }
{
    match function {
        Fun::Concat => Some(f_concat(alloc, args)),
        _ => None,
    }
}
