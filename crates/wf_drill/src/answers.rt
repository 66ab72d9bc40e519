//! The inputs of a drill's run.
ghost use Rattle.std.specs.Prelude.{◌≡◌, ◌<◌, ◌≤◌, [], ◌∷◌, ◌++◌, IfOk};
ghost use Rattle.wf_drill.specs.Calls.{answer, answers, answers_to, last_status};
ghost use Rattle.wf_drill.specs.Drill.{drill_inputs};
ghost use Rattle.wf_val.specs.Seen.{tree};

use crate::calls::call_name;
use crate::members::{with, with_text};
use std::alloc::{AllocError, Global};
use wf_val::{Fields, Val, Vals};

// What an attempt of a call gets.
fn answer(alloc: Global, k: u32, attempt: u32, status: u32) -> Result<Val, AllocError>
    requires { k < 1000 }
    ensures { IfOk result (λ v. tree v ≡ answer k attempt status) }
{
    let name = Val::Text(call_name(alloc, k)?);
    let fields = with(alloc, Fields::new(alloc), "action", name)?;
    let fields = with(alloc, fields, "attempt", Val::Int(attempt as i64))?;
    let fields = with(alloc, fields, "status", Val::Int(status as i64))?;
    Ok(Val::Obj(fields))
}

// What the last attempt of a call gets.
fn last_status(k: u32) -> u32
    ensures { result ≡ last_status k }
{
    if k % 5 == 4 { 404 } else { 200 }
}

// Values, and behind them the answer to an attempt of a call.
fn with_answer(
    alloc: Global,
    values: Vals,
    k: u32,
    attempt: u32,
    status: u32,
) -> Result<Vals, AllocError>
    requires { k < 1000 }
    ensures { IfOk result (λ more. more ≡ values ++ answer k attempt status ∷ []) }
{
    let mut more = values;
    more.push(answer(alloc, k, attempt, status)?)?;
    Ok(more)
}

// And behind them all answers to a call.
#[tactic(auto, using(std::proofs::Common::append_assoc))]
fn with_answers(alloc: Global, values: Vals, k: u32) -> Result<Vals, AllocError>
    requires { k < 1000 }
    ensures { IfOk result (λ more. more ≡ values ++ answers_to k) }
{
    let status = last_status(k);
    if k % 3 == 0 {
        let values = with_answer(alloc, values, k, 1, 500)?;
        with_answer(alloc, values, k, 2, status)
    } else {
        with_answer(alloc, values, k, 1, status)
    }
}

// The answers to the first calls.
fn answers(alloc: Global, count: u32) -> Result<Vals, AllocError>
    requires { count ≤ 1000 }
    ensures { IfOk result (λ values. values ≡ answers count) }
{
    let mut values = Vals::new(alloc);
    for k in 0..count {
        values = with_answers(alloc, values, k)?;
    }
    Ok(values)
}

/// The inputs of the run of the drill of this size.
pub(crate) fn inputs(alloc: Global, n: u32) -> Result<Val, AllocError>
    requires { n ≤ 400 }
    ensures { IfOk result (λ v. tree v ≡ drill_inputs n) }
{
    let answers = Val::List(answers(alloc, n)?);
    let fields = with(alloc, Fields::new(alloc), "answers", answers)?;
    let fields = with_text(alloc, fields, "moment", "2000-01-01T00:00:00Z")?;
    let fields = with_text(alloc, fields, "run", "drill")?;
    Ok(Val::Obj(fields))
}
