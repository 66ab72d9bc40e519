//! The calls of the functions on numbers, with comparison and conversion.
ghost use Rattle.std.specs.Prelude.{◌≡◌, ◌<◌, length};

use wf_fn_math::{
    f_add, f_bool, f_div, f_equals, f_greater, f_greater_or_equals, f_int, f_is_int, f_less,
    f_less_or_equals, f_max, f_min, f_mod, f_mul, f_not, f_sub,
};
use wf_val::{EvalFault, Fun, Val, Vals};

// What a function of these gives, where it takes so many arguments.
pub(crate) fn given(function: Fun, args: &Vals) -> Option<Result<Val, EvalFault>> {
    match args.len() {
        0 => None,
        1 => of_one(function, args),
        2 => of_two(function, args),
        _ => of_more(function, args),
    }
}

fn of_one(function: Fun, args: &Vals) -> Option<Result<Val, EvalFault>>
    requires { length args.now ≡ 1 }
{
    match function {
        Fun::Not => Some(f_not(args)),
        Fun::Int => Some(f_int(args)),
        Fun::Bool => Some(f_bool(args)),
        Fun::IsInt => Some(f_is_int(args)),
        _ => of_more(function, args),
    }
}

fn of_two(function: Fun, args: &Vals) -> Option<Result<Val, EvalFault>>
    requires { length args.now ≡ 2 }
{
    match function {
        Fun::Add => Some(f_add(args)),
        Fun::Sub => Some(f_sub(args)),
        Fun::Mul => Some(f_mul(args)),
        Fun::Div => Some(f_div(args)),
        Fun::Mod => Some(f_mod(args)),
        Fun::Equals => Some(f_equals(args)),
        Fun::Greater => Some(f_greater(args)),
        Fun::GreaterOrEquals => Some(f_greater_or_equals(args)),
        Fun::Less => Some(f_less(args)),
        Fun::LessOrEquals => Some(f_less_or_equals(args)),
        _ => of_more(function, args),
    }
}

fn of_more(function: Fun, args: &Vals) -> Option<Result<Val, EvalFault>>
    requires { 0 < length args.now }
{
    match function {
        Fun::Min => Some(f_min(args)),
        Fun::Max => Some(f_max(args)),
        _ => None,
    }
}
