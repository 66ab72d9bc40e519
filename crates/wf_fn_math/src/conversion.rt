//! Conversion to numbers and Booleans.
ghost use Rattle.std.specs.Prelude.{◌≡◌, length};
ghost use Rattle.wf_val.specs.Arguments.{seen};
ghost use Rattle.wf_fn_math.specs.Conversion.{whole_number, int_row, bool_row, is_int_row, named_truth};

use wf_val::{EvalFault, Fun, Text, Val, Vals, text_at, wrong_type};

/// `int`: a number is itself, and a text the number that it writes, as digits behind a minus or nothing; leading zeros
/// and `-0` are fine. `BadText` for another text and past i64.
pub fn f_int(args: &Vals) -> Result<Val, EvalFault>
    requires { length args.now ≡ 1 }
    ensures { seen result ≡ int_row args.now }
{
    match args.at(0) {
        Some(Val::Int(number)) => Ok(Val::Int(*number)),
        Some(Val::Text(text)) => match whole_number(text) {
            Some(number) => Ok(Val::Int(number)),
            None => Err(EvalFault::BadText { function: Fun::Int }),
        },
        _ => Err(wrong_type(Fun::Int, 0)),
    }
}

/// `bool`: 0 is false and every other number true; a text is `true` or `false`, in any case of its letters, else
/// `BadText`.
pub fn f_bool(args: &Vals) -> Result<Val, EvalFault>
    requires { length args.now ≡ 1 }
    ensures { seen result ≡ bool_row args.now }
{
    match args.at(0) {
        Some(Val::Bool(truth)) => Ok(Val::Bool(*truth)),
        Some(Val::Int(number)) => Ok(Val::Bool(*number != 0)),
        Some(Val::Text(text)) => named_truth(text),
        _ => Err(wrong_type(Fun::Bool, 0)),
    }
}

/// `isInt`: whether `int` would give a number for the text.
pub fn f_is_int(args: &Vals) -> Result<Val, EvalFault>
    requires { length args.now ≡ 1 }
    ensures { seen result ≡ is_int_row args.now }
{
    let text = text_at(Fun::IsInt, args, 0)?;
    Ok(Val::Bool(whole_number(text).is_some()))
}

// The number of 64 bits that a text writes. `parse` alone would take a leading plus.
fn whole_number(text: &Text) -> Option<i64>
    ensures { result ≡ whole_number text.now }
{
    let written = text.as_str();
    if written.starts_with('+') {
        return None;
    }
    written.parse::<i64>().ok()
}

// The Boolean that a text names.
fn named_truth(text: &Text) -> Result<Val, EvalFault>
    ensures { seen result ≡ named_truth text.now }
{
    let name = text.as_str();
    if name.eq_ignore_ascii_case("true") {
        Ok(Val::Bool(true))
    } else if name.eq_ignore_ascii_case("false") {
        Ok(Val::Bool(false))
    } else {
        Err(EvalFault::BadText {
            function: Fun::Bool,
        })
    }
}
