//! The actions of a drill.
ghost use Rattle.std.specs.Prelude.{◌≡◌, ◌≤◌, [], ◌∷◌, ◌++◌, IfOk, codes};
ghost use Rattle.wf_drill.specs.Calls.{each_call, object_of};
ghost use Rattle.wf_drill.specs.Drill.{actions, after_all, after_seed, call, drill_definition, join, loop_, range_text, request, seed};
ghost use Rattle.wf_drill.specs.Drill.{square, squares};
ghost use Rattle.wf_val.specs.Get.{name_of};
ghost use Rattle.wf_val.specs.NameOrder.{put_named};
ghost use Rattle.wf_val.specs.Seen.{tree};
ghost use Rattle.wf_val.specs.ValueTree.{text};

use crate::calls::with_calls;
use crate::members::{behind, with, with_text};
use std::alloc::{AllocError, Global};
use wf_val::{Fields, Text, Val, Vals};

// The statuses after which an action runs.
fn succeeded(alloc: Global) -> Result<Vals, AllocError>
    ensures { IfOk result (λ v. v ≡ text (codes "Succeeded") ∷ []) }
{
    let mut statuses = Vals::new(alloc);
    statuses.push(Val::Text(Text::of(alloc, "Succeeded")?))?;
    Ok(statuses)
}

fn succeeded_or_failed(alloc: Global) -> Result<Vals, AllocError>
    ensures { IfOk result (λ v. v ≡ text (codes "Succeeded") ∷ text (codes "Failed") ∷ []) }
{
    let mut statuses = succeeded(alloc)?;
    statuses.push(Val::Text(Text::of(alloc, "Failed")?))?;
    Ok(statuses)
}

// What comes after `Seed`.
fn after_seed(alloc: Global) -> Result<Val, AllocError>
    ensures { IfOk result (λ v. tree v ≡ after_seed) }
{
    let statuses = Val::List(succeeded(alloc)?);
    Ok(Val::Obj(with(alloc, Fields::new(alloc), "Seed", statuses)?))
}

// The type of an action, beside its other members.
fn typed(alloc: Global, fields: Fields, kind: &str) -> Result<Val, AllocError>
    ensures { IfOk result (λ v. tree v ≡ object_of (put_named name_of (codes "type", text kind.now) fields)) }
{
    Ok(Val::Obj(with_text(alloc, fields, "type", kind)?))
}

fn seed(alloc: Global, n: u32) -> Result<Val, AllocError>
    ensures { IfOk result (λ v. tree v ≡ seed n) }
{
    let fields = with(alloc, Fields::new(alloc), "inputs", Val::Int(n as i64))?;
    typed(alloc, fields, "Compose")
}

fn request(alloc: Global) -> Result<Val, AllocError>
    ensures { IfOk result (λ v. tree v ≡ request) }
{
    let fields = with_text(alloc, Fields::new(alloc), "method", "GET")?;
    let fields = with_text(alloc, fields, "uri", "https://contoso.com")?;
    Ok(Val::Obj(fields))
}

fn call(alloc: Global) -> Result<Val, AllocError>
    ensures { IfOk result (λ v. tree v ≡ call) }
{
    let fields = with(alloc, Fields::new(alloc), "inputs", request(alloc)?)?;
    let fields = with(alloc, fields, "runAfter", after_seed(alloc)?)?;
    typed(alloc, fields, "Http")
}

fn square(alloc: Global) -> Result<Val, AllocError>
    ensures { IfOk result (λ v. tree v ≡ square) }
{
    let fields = with_text(alloc, Fields::new(alloc), "inputs", "@mul(item(),item())")?;
    typed(alloc, fields, "Compose")
}

// What stands in the loop.
fn squares(alloc: Global) -> Result<Val, AllocError>
    ensures { IfOk result (λ v. tree v ≡ squares) }
{
    Ok(Val::Obj(with(alloc, Fields::new(alloc), "C", square(alloc)?)?))
}

fn range_text(alloc: Global, n: u32) -> Result<Val, AllocError>
    ensures { IfOk result (λ v. tree v ≡ text (range_text n)) }
{
    let range = format!(in alloc; "@range(0,{n})")?;
    Ok(Val::Text(Text::from_string(range)))
}

fn loop_(alloc: Global, n: u32) -> Result<Val, AllocError>
    ensures { IfOk result (λ v. tree v ≡ loop_ n) }
{
    let fields = with(alloc, Fields::new(alloc), "actions", squares(alloc)?)?;
    let fields = with(alloc, fields, "foreach", range_text(alloc, n)?)?;
    let fields = with(alloc, fields, "runAfter", after_seed(alloc)?)?;
    typed(alloc, fields, "Foreach")
}

fn after_all(alloc: Global, n: u32) -> Result<Val, AllocError>
    requires { n ≤ 400 }
    ensures { IfOk result (λ v. tree v ≡ after_all n) }
{
    let ended = Val::List(succeeded_or_failed(alloc)?);
    let statuses = Val::List(succeeded(alloc)?);
    Ok(Val::Obj(with_calls(alloc, statuses, &ended, n)?))
}

fn join(alloc: Global, n: u32) -> Result<Val, AllocError>
    requires { n ≤ 400 }
    ensures { IfOk result (λ v. tree v ≡ join n) }
{
    let fields = with_text(alloc, Fields::new(alloc), "inputs", "@length(outputs('C'))")?;
    let fields = with(alloc, fields, "runAfter", after_all(alloc, n)?)?;
    typed(alloc, fields, "Compose")
}

// The loop and the calls.
fn with_loop(alloc: Global, n: u32) -> Result<Fields, AllocError>
    requires { n ≤ 400 }
    ensures { IfOk result (λ ms. ms ≡ (codes "F", loop_ n) ∷ each_call call n) }
{
    let call = call(alloc)?;
    let of_loop = loop_(alloc, n)?;
    with_calls(alloc, of_loop, &call, n)
}

// And behind them what joins them.
#[tactic(auto, using(crate::proofs::NameLemmas::join_above))]
fn with_join(alloc: Global, n: u32) -> Result<Fields, AllocError>
    requires { n ≤ 400 }
    ensures { IfOk result (λ ms. ms ≡ ((codes "F", loop_ n) ∷ each_call call n) ++ (codes "J", join n) ∷ []) }
{
    let fields = with_loop(alloc, n)?;
    behind(alloc, fields, "J", join(alloc, n)?)
}

#[tactic(auto, using(crate::proofs::NameLemmas::seed_above, std::proofs::Common::append_assoc))]
fn actions(alloc: Global, n: u32) -> Result<Fields, AllocError>
    requires { n ≤ 400 }
    ensures { IfOk result (λ ms. ms ≡ actions n) }
{
    let fields = with_join(alloc, n)?;
    behind(alloc, fields, "Seed", seed(alloc, n)?)
}

/// The definition of the drill of this size.
pub(crate) fn definition(alloc: Global, n: u32) -> Result<Val, AllocError>
    requires { n ≤ 400 }
    ensures { IfOk result (λ v. tree v ≡ drill_definition n) }
{
    let actions = Val::Obj(actions(alloc, n)?);
    Ok(Val::Obj(with(alloc, Fields::new(alloc), "actions", actions)?))
}
