//! Whether a condition holds.
ghost use Rattle.std.specs.Prelude.{◌≡◌, map};
ghost use Rattle.wf_val.specs.Arguments.{Gives, given};
ghost use Rattle.wf_val.specs.Seen.{tree};
ghost use Rattle.wf_template.specs.CondSeen.{cond_tree};
ghost use Rattle.wf_template.specs.CondTree.{cond_trees, compare_by};
ghost use Rattle.wf_template.specs.DataSeen.{data_tree};
ghost use Rattle.wf_eval_expr.specs.Meets.{Meets, truth_seen};
ghost use Rattle.wf_eval_expr.specs.Rows.{strict_row as row_in};
ghost use Rattle.wf_eval.specs.Truth.{compared, truth, truth_of, truths_of};
ghost use Rattle.wf_eval_expr.specs.Value.{early};

use crate::template::eval;
use crate::tree::eval_tree;
use std::alloc::Global;
use wf_eval_expr::{Look, strict_row};
use wf_template::{Cond, Tree};
use wf_val::{EvalFault, Fun, Val, Vals, wrong_type};

/// Whether a condition holds in a look; `and` and `or` go from left to right up to the first that decides. Words are
/// drawn as `eval` draws them.
#[cycle(eval_cond)]
pub fn eval_cond<L: Look>(alloc: Global, c: &Cond, look: &mut L) -> Result<bool, EvalFault>
    ensures truth { Meets (truth_seen result) (truth_of (L.told look.old) (cond_tree c.now) (L.drawn look.old)) (L.drawn look.new) }
    ensures same { L.told look.new ≡ L.told look.old }
    ensures held { L.held look.new ≡ L.held look.old }
{
    match c {
        Cond::Text(template) => match eval(alloc, template, look)? {
            Val::Bool(holds) => Ok(holds),
            _ => Err(wrong_type(Fun::Condition, 0)),
        },
        Cond::And(conditions) => all_hold(alloc, conditions.as_slice(), look),
        Cond::Or(conditions) => any_holds(alloc, conditions.as_slice(), look),
        Cond::Not(condition) => {
            let holds = eval_cond(alloc, condition, look)?;
            Ok(!holds)
        }
        Cond::Compare { fun, left, right } => compare(alloc, *fun, left, right, look),
    }
}

#[cycle(eval_cond)]
fn all_hold<L: Look>(alloc: Global, conditions: &[Cond], look: &mut L) -> Result<bool, EvalFault>
    ensures truth { Meets (truth_seen result)
        (early Fun.And (truths_of (L.told look.old) (cond_trees (map cond_tree conditions.now))) 0 (L.drawn look.old))
        (L.drawn look.new) }
    ensures same { L.told look.new ≡ L.told look.old }
    ensures held { L.held look.new ≡ L.held look.old }
{
    for condition in conditions {
        let holds = eval_cond(alloc, condition, look)?;
        if !holds {
            return Ok(false);
        }
    }
    Ok(true)
}

#[cycle(eval_cond)]
fn any_holds<L: Look>(alloc: Global, conditions: &[Cond], look: &mut L) -> Result<bool, EvalFault>
    ensures truth { Meets (truth_seen result)
        (early Fun.Or (truths_of (L.told look.old) (cond_trees (map cond_tree conditions.now))) 0 (L.drawn look.old))
        (L.drawn look.new) }
    ensures same { L.told look.new ≡ L.told look.old }
    ensures held { L.held look.new ≡ L.held look.old }
{
    for condition in conditions {
        let holds = eval_cond(alloc, condition, look)?;
        if holds {
            return Ok(true);
        }
    }
    Ok(false)
}

// A comparison of two values, the left one first.
#[tactic(auto, using(wf_eval_expr::proofs::Meeting::meets))]
fn compare<L: Look>(
    alloc: Global,
    function: Fun,
    left: &Tree,
    right: &Tree,
    look: &mut L,
) -> Result<bool, EvalFault>
    ensures truth { let c = compare_by function (data_tree left.now) (data_tree right.now) in
        Meets (truth_seen result) (truth_of (L.told look.old) c (L.drawn look.old)) (L.drawn look.new) }
    ensures same { L.told look.new ≡ L.told look.old }
    ensures held { L.held look.new ≡ L.held look.old }
{
    let one = eval_tree(alloc, left, look)?;
    let other = eval_tree(alloc, right, look)?;
    compared(alloc, function, one, other)
}

fn compared(alloc: Global, function: Fun, one: Val, other: Val) -> Result<bool, EvalFault>
    ensures { Gives (truth_seen result) (compared function (tree one) (tree other)) }
{
    let mut values = Vals::new(alloc);
    values.push(one)?;
    values.push(other)?;
    judged(alloc, function, &values)
}

// What the function gives of these values has to be a Boolean.
fn judged(alloc: Global, function: Fun, values: &Vals) -> Result<bool, EvalFault>
    ensures { Gives (truth_seen result) (given (row_in function values.now) truth) }
{
    match strict_row(alloc, function, values) {
        Ok(Val::Bool(holds)) => Ok(holds),
        Ok(_) => Err(wrong_type(Fun::Condition, 0)),
        Err(fault) => Err(fault),
    }
}
