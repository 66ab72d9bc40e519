//! The calls of a drill, each by its name.
ghost use Rattle.std.specs.Prelude.{◌≡◌, ◌<◌, ◌≤◌, ◌∷◌, ◌++◌, [], IfOk, codes};
ghost use Rattle.wf_drill.specs.Calls.{call_name, each_call};
ghost use Rattle.wf_val.specs.Get.{name_of};
ghost use Rattle.wf_val.specs.NameOrder.{IsAboveAll};
ghost use Rattle.wf_val.specs.Seen.{tree};

use crate::members::with;
use std::alloc::{AllocError, Global};
use wf_val::{Fields, Text, Val};

/// The name of a call.
#[tactic(auto, using(std::proofs::lemmas::Fmt::decimal_digit))]
pub(crate) fn call_name(alloc: Global, k: u32) -> Result<Text, AllocError>
    requires { k < 1000 }
    ensures { IfOk result (λ name. name ≡ call_name k) }
{
    let hundreds = k / 100;
    let tens = k / 10 % 10;
    let ones = k % 10;
    Ok(Text::from_string(format!(in alloc; "H{hundreds}{tens}{ones}")?))
}

// Members, and behind them a call with a copy of a value.
fn with_call(alloc: Global, fields: Fields, value: &Val, k: u32) -> Result<Fields, AllocError>
    requires few { k < 1000 }
    requires above { IsAboveAll name_of (call_name k) fields }
    ensures { IfOk result (λ more. more ≡ fields ++ (call_name k, tree value.now) ∷ []) }
{
    let name = call_name(alloc, k)?;
    let mut more = fields;
    more.append(name, value.copy(alloc)?)?;
    Ok(more)
}

/// The member of the loop, and behind it one of each of the first calls, with copies of one value.
#[tactic(auto, using(crate::proofs::NameLemmas::above_calls))]
pub(crate) fn with_calls(
    alloc: Global,
    of_loop: Val,
    of_call: &Val,
    count: u32,
) -> Result<Fields, AllocError>
    requires { count ≤ 1000 }
    ensures { IfOk result (λ ms. ms ≡ (codes "F", tree of_loop) ∷ each_call (tree of_call.now) count) }
{
    let mut members = with(alloc, Fields::new(alloc), "F", of_loop)?;
    for k in 0..count {
        members = with_call(alloc, members, of_call, k)?;
    }
    Ok(members)
}
