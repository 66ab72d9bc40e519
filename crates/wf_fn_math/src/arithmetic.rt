//! Arithmetic on whole numbers of 64 bits.
ghost use Rattle.std.specs.Prelude.{◌≡◌, length};
ghost use Rattle.wf_val.specs.Arguments.{seen};
ghost use Rattle.wf_fn_math.specs.Arithmetic.{add_row, sub_row, mul_row, div_row, mod_row};

use wf_val::{EvalFault, Fun, Val, Vals, number_at};

/// `add`: the sum of two numbers; `Range` past i64.
pub fn f_add(args: &Vals) -> Result<Val, EvalFault>
    requires { length args.now ≡ 2 }
    ensures { seen result ≡ add_row args.now }
{
    let one = number_at(Fun::Add, args, 0)?;
    let other = number_at(Fun::Add, args, 1)?;
    match one.checked_add(other) {
        Some(sum) => Ok(Val::Int(sum)),
        None => Err(EvalFault::Range { function: Fun::Add }),
    }
}

/// `sub`: the first number less the second; `Range` past i64.
pub fn f_sub(args: &Vals) -> Result<Val, EvalFault>
    requires { length args.now ≡ 2 }
    ensures { seen result ≡ sub_row args.now }
{
    let one = number_at(Fun::Sub, args, 0)?;
    let other = number_at(Fun::Sub, args, 1)?;
    match one.checked_sub(other) {
        Some(difference) => Ok(Val::Int(difference)),
        None => Err(EvalFault::Range { function: Fun::Sub }),
    }
}

/// `mul`: the product of two numbers; `Range` past i64.
pub fn f_mul(args: &Vals) -> Result<Val, EvalFault>
    requires { length args.now ≡ 2 }
    ensures { seen result ≡ mul_row args.now }
{
    let one = number_at(Fun::Mul, args, 0)?;
    let other = number_at(Fun::Mul, args, 1)?;
    match one.checked_mul(other) {
        Some(product) => Ok(Val::Int(product)),
        None => Err(EvalFault::Range { function: Fun::Mul }),
    }
}

/// `div`: the quotient, cut towards 0; `Range` for a divisor 0 and past i64.
pub fn f_div(args: &Vals) -> Result<Val, EvalFault>
    requires { length args.now ≡ 2 }
    ensures { seen result ≡ div_row args.now }
{
    let dividend = number_at(Fun::Div, args, 0)?;
    let divisor = number_at(Fun::Div, args, 1)?;
    match dividend.checked_div(divisor) {
        Some(quotient) => Ok(Val::Int(quotient)),
        None => Err(EvalFault::Range { function: Fun::Div }),
    }
}

/// `mod`: what `div` leaves, with the sign of the dividend; 0 for a divisor -1, and `Range` for a divisor 0.
pub fn f_mod(args: &Vals) -> Result<Val, EvalFault>
    requires { length args.now ≡ 2 }
    ensures { seen result ≡ mod_row args.now }
{
    let dividend = number_at(Fun::Mod, args, 0)?;
    let divisor = number_at(Fun::Mod, args, 1)?;
    if divisor == 0 {
        return Err(EvalFault::Range { function: Fun::Mod });
    }
    Ok(Val::Int(dividend.wrapping_rem(divisor)))
}
