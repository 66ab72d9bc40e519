//! The calls of the functions on lists and objects.
ghost use Rattle.std.specs.Prelude.{◌≡◌, ◌≤◌, length};

use std::alloc::Global;
use wf_fn_list::{
    f_add_property, f_array, f_chunk, f_contains, f_create_array, f_empty, f_first, f_join, f_last,
    f_length, f_range, f_remove_property, f_reverse, f_set_property, f_skip, f_take,
};
use wf_fn_sets::{f_intersection, f_sort, f_union};
use wf_val::{EvalFault, Fun, Val, Vals};

// What a function of these gives, where it takes so many arguments.
pub(crate) fn given(alloc: Global, function: Fun, args: &Vals) -> Option<Result<Val, EvalFault>> {
    match args.len() {
        0 => of_any(alloc, function, args),
        1 => of_one(alloc, function, args),
        2 => of_two(alloc, function, args),
        3 => of_three(alloc, function, args),
        _ => of_more(alloc, function, args),
    }
}

fn of_one(alloc: Global, function: Fun, args: &Vals) -> Option<Result<Val, EvalFault>>
    requires { length args.now ≡ 1 }
{
    match function {
        Fun::Length => Some(f_length(args)),
        Fun::Empty => Some(f_empty(args)),
        Fun::First => Some(f_first(alloc, args)),
        Fun::Last => Some(f_last(alloc, args)),
        Fun::Array => Some(f_array(alloc, args)),
        Fun::Reverse => Some(f_reverse(alloc, args)),
        Fun::Sort => Some(f_sort(alloc, args)),
        _ => of_any(alloc, function, args),
    }
}

fn of_two(alloc: Global, function: Fun, args: &Vals) -> Option<Result<Val, EvalFault>>
    requires { length args.now ≡ 2 }
{
    match function {
        Fun::Contains => Some(f_contains(args)),
        Fun::Take => Some(f_take(alloc, args)),
        Fun::Skip => Some(f_skip(alloc, args)),
        Fun::Join => Some(f_join(alloc, args)),
        Fun::Range => Some(f_range(alloc, args)),
        Fun::Chunk => Some(f_chunk(alloc, args)),
        Fun::Sort => Some(f_sort(alloc, args)),
        Fun::RemoveProperty => Some(f_remove_property(alloc, args)),
        _ => of_more(alloc, function, args),
    }
}

fn of_three(alloc: Global, function: Fun, args: &Vals) -> Option<Result<Val, EvalFault>>
    requires { length args.now ≡ 3 }
{
    match function {
        Fun::AddProperty => Some(f_add_property(alloc, args)),
        Fun::SetProperty => Some(f_set_property(alloc, args)),
        _ => of_more(alloc, function, args),
    }
}

fn of_more(alloc: Global, function: Fun, args: &Vals) -> Option<Result<Val, EvalFault>>
    requires { 2 ≤ length args.now }
{
    match function {
        Fun::Union => Some(f_union(alloc, args)),
        Fun::Intersection => Some(f_intersection(alloc, args)),
        _ => of_any(alloc, function, args),
    }
}

fn of_any(alloc: Global, function: Fun, args: &Vals) -> Option<Result<Val, EvalFault>> {
    match function {
        Fun::CreateArray => Some(f_create_array(alloc, args)),
        _ => None,
    }
}
