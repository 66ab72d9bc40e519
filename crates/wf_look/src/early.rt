//! Where a function stops that goes no further than the first argument that decides.
ghost use Rattle.std.specs.Prelude.{◌≡◌, option_map};
ghost use Rattle.wf_val.specs.Arguments.{seen};
ghost use Rattle.wf_val.specs.Seen.{tree};
ghost use Rattle.wf_look.specs.Early.{at_end, stop_at};

use wf_val::{EvalFault, Fun, Val, wrong_type};

/// The answer of the function, where it stops at the argument that has this one; the argument's place is counted from 0.
pub fn stop(
    function: Fun,
    place: u64,
    answer: Result<Val, EvalFault>,
) -> Option<Result<Val, EvalFault>>
    ensures { option_map seen result ≡ stop_at function place (seen answer) }
{
    match (function, answer) {
        (_, Err(fault)) => Some(Err(fault)),
        (Fun::And, Ok(Val::Bool(true))) => None,
        (Fun::And, Ok(Val::Bool(false))) => Some(Ok(Val::Bool(false))),
        (Fun::Or, Ok(Val::Bool(true))) => Some(Ok(Val::Bool(true))),
        (Fun::Or, Ok(Val::Bool(false))) => None,
        (Fun::Coalesce, Ok(Val::Null)) => None,
        (Fun::Coalesce, Ok(value)) => Some(Ok(value)),
        _ => Some(Err(wrong_type(function, place))),
    }
}

/// Its value where no argument stops it.
pub fn at_end(function: Fun) -> Val
    ensures { tree result ≡ at_end function }
{
    match function {
        Fun::And => Val::Bool(true),
        Fun::Or => Val::Bool(false),
        _ => Val::Null,
    }
}
