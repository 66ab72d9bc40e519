//! The value of an expression.
ghost use Rattle.std.specs.Prelude.{◌≡◌, true, [], Ok};
ghost use Rattle.wf_val.specs.Arguments.{seen};
ghost use Rattle.wf_val.specs.Function.{function_of};
ghost use Rattle.wf_val.specs.Seen.{tree};
ghost use Rattle.wf_template.specs.ChainSeen.{start_tree};
ghost use Rattle.wf_template.specs.ExprSeen.{expr_tree};
ghost use Rattle.wf_look.specs.Meets.{Meets};
ghost use Rattle.wf_look.specs.Outcomes.{all_after, strictly};
ghost use Rattle.wf_folds.specs.Pairing.{is_pairing};
ghost use Rattle.wf_look.specs.Rows.{fitted, strict_row, joined_row};
ghost use Rattle.wf_val.specs.declared.function.Fun.{Fun};
ghost use Rattle.wf_look.specs.Args.{args_tree};
ghost use Rattle.wf_eval_expr.specs.Seen.{accessed_run};
ghost use Rattle.wf_eval_expr.specs.Value.{value, runs, called, called_by, if_run, early, drawn_run, truth_in};
ghost use Rattle.wf_eval_expr.specs.Ways.{way_of};

use crate::way::{Way, way_of};
use std::alloc::Global;
use wf_calls::function_named;
use wf_folds::{Paired, United};
use wf_look::{
    Collected, Look, Measured, as_text, at_end, drawn_by, index_of, member_of, named_by, stop,
    strict_row, timed_row, told_row,
};
use wf_template::{Access, Expr, Start, chain_of};
use wf_val::{EvalFault, Fun, Text, Val, Vals, bounded, wrong_type};

/// The value of an expression in a look: its value, or the first fault from left to right. After a fault the look has
/// drawn the words that the definition counts up to it, and after want of memory at most as many as for the whole.
/// Accesses are gone through by a loop, however many they are.
#[cycle(eval)]
pub fn eval_expr<L: Look>(alloc: Global, e: &Expr, look: &mut L) -> Result<Val, EvalFault>
    ensures value { Meets (seen result) (value (L.told look.old) (expr_tree e.now) (L.drawn look.old)) (L.drawn look.new) }
    ensures same { L.told look.new ≡ L.told look.old }
    ensures held { L.held look.new ≡ L.held look.old }
{
    let chain = chain_of(alloc, e)?;
    let mut accesses = chain.accesses;
    let mut value = eval_start(alloc, chain.start, look)?;
    while let Some(access) = accesses.pop() {
        value = eval_access(alloc, value, access, look)?;
    }
    Ok(value)
}

// What accesses stand on.
#[cycle(eval)]
fn eval_start<'a, L: Look>(alloc: Global, start: Start<'a>, look: &mut L) -> Result<Val, EvalFault>
    ensures value { Meets (seen result) (value (L.told look.old) (start_tree start.entry) (L.drawn look.old)) (L.drawn look.new) }
    ensures same { L.told look.new ≡ L.told look.old }
    ensures held { L.held look.new ≡ L.held look.old }
{
    match start {
        Start::Lit(value) => bounded(value.copy(alloc)?),
        Start::Call { name, args } => eval_call(alloc, name, args.as_slice(), look),
    }
}

// An access, of the value that it stands on.
#[cycle(eval)]
#[tactic(auto, using(crate::proofs::Meeting::meets))]
fn eval_access<'a, L: Look>(
    alloc: Global,
    value: Val,
    access: Access<'a>,
    look: &mut L,
) -> Result<Val, EvalFault>
    ensures value { Meets (seen result)
        (accessed_run (L.told look.old) access.entry (Ok (tree value), L.drawn look.old))
        (L.drawn look.new) }
    ensures same { L.told look.new ≡ L.told look.old }
    ensures held { L.held look.new ≡ L.held look.old }
{
    match access {
        Access::Member { name, soft } => member_of(alloc, value, name, soft),
        Access::Index { key, soft } => {
            let key = eval_expr(alloc, key, look)?;
            index_of(alloc, value, &key, soft)
        }
    }
}

// A call by the name as it was written.
#[cycle(eval)]
fn eval_call<L: Look>(
    alloc: Global,
    name: &Text,
    args: &[Expr],
    look: &mut L,
) -> Result<Val, EvalFault>
    ensures value { let l = L.told look.old in
        let es = args_tree args.now in
        Meets (seen result)
        (called_by l name.now es (runs l es) (function_of name.now) (L.drawn look.old))
        (L.drawn look.new) }
    ensures same { L.told look.new ≡ L.told look.old }
    ensures held { L.held look.new ≡ L.held look.old }
{
    match function_named(name) {
        Some(function) => eval_known(alloc, function, args, look),
        None => {
            let _values = eval_all(alloc, args, look)?;
            Err(EvalFault::NoValue {
                name: name.copy(alloc)?,
            })
        }
    }
}

#[cycle(eval)]
#[tactic(auto, using(crate::proofs::Meeting::meets))]
fn eval_known<L: Look>(
    alloc: Global,
    function: Fun,
    args: &[Expr],
    look: &mut L,
) -> Result<Val, EvalFault>
    ensures value { let l = L.told look.old in
        let es = args_tree args.now in
        Meets (seen result)
        (called l function es (runs l es) (way_of function) (L.drawn look.old))
        (L.drawn look.new) }
    ensures same { L.told look.new ≡ L.told look.old }
    ensures held { L.held look.new ≡ L.held look.old }
{
    match way_of(function) {
        Way::Chosen => eval_if(alloc, args, look),
        Way::Early => eval_early(alloc, function, args, look),
        Way::Joined => eval_joined(alloc, args, look),
        Way::Collected => eval_collected(alloc, args, look),
        Way::Paired => eval_paired(alloc, function, args, look),
        Way::United => eval_united(alloc, args, look),
        Way::Named => fitted(named_by(alloc, look, function, args)),
        Way::Told => fitted(told_row(alloc, look, function)),
        Way::Timed => {
            let values = eval_all(alloc, args, look)?;
            fitted(timed_row(alloc, function, look.moment(), &values))
        }
        Way::Drawn => eval_drawn(alloc, function, args, look),
        Way::Strict => {
            let values = eval_all(alloc, args, look)?;
            fitted(strict_row(alloc, function, &values))
        }
    }
}

// A value, where it fits.
fn fitted(answer: Result<Val, EvalFault>) -> Result<Val, EvalFault>
    ensures { seen result ≡ fitted (seen answer) }
{
    match answer {
        Ok(value) => bounded(value),
        Err(fault) => Err(fault),
    }
}

// The values of all, from left to right.
#[cycle(eval)]
fn eval_all<L: Look>(alloc: Global, args: &[Expr], look: &mut L) -> Result<Vals, EvalFault>
    ensures values { Meets result
        (all_after (runs (L.told look.old) (args_tree args.now)) [] (L.drawn look.old))
        (L.drawn look.new) }
    ensures same { L.told look.new ≡ L.told look.old }
    ensures held { L.held look.new ≡ L.held look.old }
{
    let mut values = Vals::new(alloc);
    for arg in args {
        values.push(eval_expr(alloc, arg, look)?)?;
    }
    Ok(values)
}

// What is made of the next word, which is drawn once the values of all pass.
#[cycle(eval)]
fn eval_drawn<L: Look>(
    alloc: Global,
    function: Fun,
    args: &[Expr],
    look: &mut L,
) -> Result<Val, EvalFault>
    ensures value { let l = L.told look.old in
        Meets (seen result)
        (drawn_run l function (runs l (args_tree args.now)) (L.drawn look.old))
        (L.drawn look.new) }
    ensures same { L.told look.new ≡ L.told look.old }
    ensures held { L.held look.new ≡ L.held look.old }
{
    let values = eval_all(alloc, args, look)?;
    drawn_by(alloc, function, &values, look)
}

// The texts of all in a row, which is `concat`. No value is kept once its text is there, and no more text than fits.
#[cycle(eval)]
fn eval_joined<L: Look>(alloc: Global, args: &[Expr], look: &mut L) -> Result<Val, EvalFault>
    ensures value { Meets (seen result)
        (strictly joined_row (runs (L.told look.old) (args_tree args.now)) (L.drawn look.old))
        (L.drawn look.new) }
    ensures same { L.told look.new ≡ L.told look.old }
    ensures held { L.held look.new ≡ L.held look.old }
{
    if args.is_empty() {
        return Err(wrong_type(Fun::Concat, 0));
    }
    let mut text = Measured::new(alloc);
    for arg in args {
        let value = eval_expr(alloc, arg, look)?;
        let part = as_text(alloc, value)?;
        text.push(part.as_str())?;
    }
    text.answer()
}

// The values of all as a list, which is `createArray`. No more of them are kept than fit.
#[cycle(eval)]
fn eval_collected<L: Look>(alloc: Global, args: &[Expr], look: &mut L) -> Result<Val, EvalFault>
    ensures value { Meets (seen result)
        (strictly (λ ts. fitted (strict_row Fun.CreateArray ts)) (runs (L.told look.old) (args_tree args.now)) (L.drawn look.old))
        (L.drawn look.new) }
    ensures same { L.told look.new ≡ L.told look.old }
    ensures held { L.held look.new ≡ L.held look.old }
{
    let mut items = Collected::new(alloc);
    for arg in args {
        items.push(eval_expr(alloc, arg, look)?)?;
    }
    items.answer()
}

// A function that takes each argument with what those before it come to. Of these no more is kept than that.
#[cycle(eval)]
fn eval_paired<L: Look>(
    alloc: Global,
    function: Fun,
    args: &[Expr],
    look: &mut L,
) -> Result<Val, EvalFault>
    requires { is_pairing function ≡ true }
    ensures value { Meets (seen result)
        (strictly (λ ts. fitted (strict_row function ts)) (runs (L.told look.old) (args_tree args.now)) (L.drawn look.old))
        (L.drawn look.new) }
    ensures same { L.told look.new ≡ L.told look.old }
    ensures held { L.held look.new ≡ L.held look.old }
{
    let mut paired = Paired::new(function);
    for arg in args {
        let value = eval_expr(alloc, arg, look)?;
        paired = paired.with(alloc, value)?;
    }
    fitted(paired.answer(alloc))
}

// The union of the values of all. Of these each distinct item is kept, or the last member of each name.
#[cycle(eval)]
fn eval_united<L: Look>(alloc: Global, args: &[Expr], look: &mut L) -> Result<Val, EvalFault>
    ensures value { Meets (seen result)
        (strictly (λ ts. fitted (strict_row Fun.Union ts)) (runs (L.told look.old) (args_tree args.now)) (L.drawn look.old))
        (L.drawn look.new) }
    ensures same { L.told look.new ≡ L.told look.old }
    ensures held { L.held look.new ≡ L.held look.old }
{
    let mut united = United::new();
    for arg in args {
        let value = eval_expr(alloc, arg, look)?;
        united = united.with(alloc, value)?;
    }
    fitted(united.answer(alloc))
}

// The truth that a value is; none where it is no Boolean.
#[tactic(auto, using(wf_val::proofs::ValueTreeLemmas::listed))]
fn truth_in(value: Val) -> Option<bool>
    ensures { result ≡ truth_in (tree value) }
{
    match value {
        Val::Bool(truth) => Some(truth),
        _ => None,
    }
}

// Only the chosen arm.
#[cycle(eval)]
fn eval_if<L: Look>(alloc: Global, args: &[Expr], look: &mut L) -> Result<Val, EvalFault>
    ensures value { Meets (seen result)
        (if_run (runs (L.told look.old) (args_tree args.now)) (L.drawn look.old))
        (L.drawn look.new) }
    ensures same { L.told look.new ≡ L.told look.old }
    ensures held { L.held look.new ≡ L.held look.old }
{
    match args {
        [test, first, second, ..] => match truth_in(eval_expr(alloc, test, look)?) {
            Some(true) => eval_expr(alloc, first, look),
            Some(false) => eval_expr(alloc, second, look),
            None => Err(wrong_type(Fun::If, 0)),
        },
        _ => Err(wrong_type(Fun::If, args.len() as u64)),
    }
}

// A function that stops at the first argument that decides.
#[cycle(eval)]
fn eval_early<L: Look>(
    alloc: Global,
    function: Fun,
    args: &[Expr],
    look: &mut L,
) -> Result<Val, EvalFault>
    ensures value { Meets (seen result)
        (early function (runs (L.told look.old) (args_tree args.now)) 0 (L.drawn look.old))
        (L.drawn look.new) }
    ensures same { L.told look.new ≡ L.told look.old }
    ensures held { L.held look.new ≡ L.held look.old }
{
    let mut place = 0;
    for arg in args {
        let answer = eval_expr(alloc, arg, look);
        if let Some(end) = stop(function, place, answer) {
            return end;
        }
        place += 1;
    }
    Ok(at_end(function))
}
