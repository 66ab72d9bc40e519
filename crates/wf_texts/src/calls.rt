//! Which calls an expression may have.
ghost use Rattle.std.specs.Prelude.{◌≡◌, map};
ghost use Rattle.wf_template.specs.ExprSeen.{expr_tree};
ghost use Rattle.wf_template.specs.ExprTree.{expr_trees};
ghost use Rattle.wf_texts.specs.Calls.{has_count, has_name, is_name, is_naming, is_sound_call, is_text};

use wf_calls::function_named;
use wf_template::Expr;
use wf_val::{Fun, Text, Val};

fn is_naming(function: Fun) -> bool
    ensures { result ≡ is_naming function }
{
    match function {
        Fun::Actions | Fun::Outputs | Fun::Body | Fun::Result => true,
        Fun::Items | Fun::IterationIndexes | Fun::Parameters | Fun::Variables => true,
        _ => false,
    }
}

fn is_text(expression: &Expr) -> bool
    ensures { result ≡ is_text (expr_tree expression.now) }
{
    matches!(expression, Expr::Lit(Val::Text(_)))
}

fn is_name(args: &[Expr]) -> bool
    ensures { result ≡ is_name (expr_trees (map expr_tree args.now)) }
{
    match args {
        [] => false,
        [arg] => is_text(arg),
        [_, _, ..] => false,
    }
}

// Whether the function takes so many arguments.
#[tactic(auto, using(crate::proofs::CallLemmas::arguments))]
fn has_count(function: Fun, args: &[Expr]) -> bool
    ensures { result ≡ has_count function (expr_trees (map expr_tree args.now)) }
{
    function.takes(args.len() as u64)
}

// Whether the function is told its name, if it is told one, as it stands.
fn has_name(function: Fun, args: &[Expr]) -> bool
    ensures { result ≡ has_name function (expr_trees (map expr_tree args.now)) }
{
    !is_naming(function) || is_name(args)
}

/// Whether there is such a function, and the arguments suit it.
pub(crate) fn is_sound_call(name: &Text, args: &[Expr]) -> bool
    ensures { result ≡ is_sound_call name.now (expr_trees (map expr_tree args.now)) }
{
    match function_named(name) {
        Some(function) => has_count(function, args) && has_name(function, args),
        None => false,
    }
}
