//! Comparison and logic.
ghost use Rattle.std.specs.Prelude.{◌≡◌, ◌↔◌, length, Some, IsTrue, slice_get};
ghost use Rattle.wf_val.specs.Arguments.{seen};
ghost use Rattle.wf_fn_math.specs.Comparison.{are_equal, beside, compared, equals_row, greater_row, greater_or_equals_row, less_row};
ghost use Rattle.wf_fn_math.specs.Comparison.{less_or_equals_row, not_row};
ghost use Rattle.wf_val.specs.Seen.{tree};
ghost use Rattle.wf_val.specs.ValueTree.{ValueTree};

use std::cmp::Ordering;
use wf_val::{EvalFault, Fun, Val, Vals, number_at, text_at, truth_at, wrong_type};

/// `equals`: whether two values are the same. A Boolean beside a number counts as 1 or 0; inside lists and
/// objects types have to agree.
pub fn f_equals(args: &Vals) -> Result<Val, EvalFault>
    requires { length args.now ≡ 2 }
    ensures { seen result ≡ equals_row args.now }
{
    match (args.at(0), args.at(1)) {
        (Some(one), Some(other)) => Ok(Val::Bool(are_equal(one, other))),
        (Some(_), None) => Err(wrong_type(Fun::Equals, 1)),
        (None, _) => Err(wrong_type(Fun::Equals, 0)),
    }
}

// Whether two values are the same, a Boolean beside a number counted as 1 or 0.
fn are_equal(one: &Val, other: &Val) -> bool
    ensures { result ≡ are_equal (tree one.now) (tree other.now) }
{
    match (one, other) {
        (Val::Bool(truth), Val::Int(number)) => *truth as i64 == *number,
        (Val::Int(number), Val::Bool(truth)) => *number == *truth as i64,
        _ => one.order(other).is_eq(),
    }
}

/// Two values are equal exactly where each, as it counts beside the other, is the same value. Tells a caller so, and does
/// nothing.
pub fn equal_values_are_the_same()
    ensures { (a b : ValueTree) → IsTrue (are_equal a b) ↔ (beside a b ≡ beside b a) }
{}

/// `greater`: whether the first of two numbers, or of two texts by their bytes, is above the second.
pub fn f_greater(args: &Vals) -> Result<Val, EvalFault>
    requires { length args.now ≡ 2 }
    ensures { seen result ≡ greater_row args.now }
{
    Ok(Val::Bool(compared(Fun::Greater, args)?.is_gt()))
}

/// `greaterOrEquals`: whether the first of two numbers, or of two texts by their bytes, isn't below the second.
pub fn f_greater_or_equals(args: &Vals) -> Result<Val, EvalFault>
    requires { length args.now ≡ 2 }
    ensures { seen result ≡ greater_or_equals_row args.now }
{
    Ok(Val::Bool(compared(Fun::GreaterOrEquals, args)?.is_ge()))
}

/// `less`: whether the first of two numbers, or of two texts by their bytes, is below the second.
pub fn f_less(args: &Vals) -> Result<Val, EvalFault>
    requires { length args.now ≡ 2 }
    ensures { seen result ≡ less_row args.now }
{
    Ok(Val::Bool(compared(Fun::Less, args)?.is_lt()))
}

/// `lessOrEquals`: whether the first of two numbers, or of two texts by their bytes, isn't above the second.
pub fn f_less_or_equals(args: &Vals) -> Result<Val, EvalFault>
    requires { length args.now ≡ 2 }
    ensures { seen result ≡ less_or_equals_row args.now }
{
    Ok(Val::Bool(compared(Fun::LessOrEquals, args)?.is_le()))
}

// How the first argument stands to the second; it says whether numbers are compared, or texts.
fn compared(function: Fun, args: &Vals) -> Result<Ordering, EvalFault>
    ensures { result ≡ compared function (slice_get args.now 0) (slice_get args.now 1) }
{
    match args.at(0) {
        Some(Val::Int(one)) => Ok(one.cmp(&number_at(function, args, 1)?)),
        Some(Val::Text(one)) => Ok(one.order(text_at(function, args, 1)?)),
        _ => Err(wrong_type(function, 0)),
    }
}

/// `not`: the other Boolean.
pub fn f_not(args: &Vals) -> Result<Val, EvalFault>
    requires { length args.now ≡ 1 }
    ensures { seen result ≡ not_row args.now }
{
    Ok(Val::Bool(!truth_at(Fun::Not, args, 0)?))
}
