//! What expressions ask for. Each function adds to what was found before.
ghost use Rattle.std.specs.Prelude.{◌≡◌, ◌++◌, IfOk};
ghost use Rattle.wf_template.specs.ChainSeen.{start_tree};
ghost use Rattle.wf_template.specs.ExprSeen.{expr_tree};
ghost use Rattle.wf_eval.specs.Args.{args_tree};
ghost use Rattle.wf_uses.specs.Uses.{all_uses, used_by_name, uses};
ghost use Rattle.wf_refs.specs.Seen.{access_uses};
ghost use Rattle.wf_uses.specs.Seen.{found_uses};
ghost use Rattle.wf_val.specs.Function.{function_of};

use std::alloc::{AllocError, Global};
use wf_template::{Access, Expr, Start, chain_of};
use wf_uses::{Found, found_by_name, with};
use wf_val::Text;

/// What the expression asks for. Accesses are gone through by a loop, however many they are.
#[cycle(expressions)]
pub(crate) fn in_expression<'a>(
    alloc: Global,
    found: Vec<Found<'a>>,
    expression: &'a Expr,
) -> Result<Vec<Found<'a>>, AllocError>
    ensures { IfOk result (λ all. found_uses all.items ≡ found_uses found.entry.items ++ uses (expr_tree expression.now)) }
{
    let chain = chain_of(alloc, expression)?;
    let mut accesses = chain.accesses;
    let mut all = in_start(alloc, found, chain.start)?;
    while let Some(access) = accesses.pop() {
        all = in_access(alloc, all, access)?;
    }
    Ok(all)
}

// What accesses stand on.
#[cycle(expressions)]
fn in_start<'a>(
    alloc: Global,
    found: Vec<Found<'a>>,
    start: Start<'a>,
) -> Result<Vec<Found<'a>>, AllocError>
    ensures { IfOk result (λ all. found_uses all.items ≡ found_uses found.entry.items ++ uses (start_tree start.entry)) }
{
    match start {
        Start::Lit(_) => Ok(found),
        Start::Call { name, args } => in_call(alloc, found, name, args.as_slice()),
    }
}

#[cycle(expressions)]
fn in_access<'a>(
    alloc: Global,
    found: Vec<Found<'a>>,
    access: Access<'a>,
) -> Result<Vec<Found<'a>>, AllocError>
    ensures { IfOk result (λ all. found_uses all.items ≡ found_uses found.entry.items ++ access_uses access.entry) }
{
    match access {
        Access::Member { name: _, soft: _ } => Ok(found),
        Access::Index { key, soft: _ } => in_expression(alloc, found, key),
    }
}

// A call, and then its arguments.
#[cycle(expressions)]
fn in_call<'a>(
    alloc: Global,
    found: Vec<Found<'a>>,
    name: &Text,
    args: &'a [Expr],
) -> Result<Vec<Found<'a>>, AllocError>
    ensures { IfOk result (λ all. let es = args_tree args.now in
        found_uses all.items ≡ found_uses found.entry.items ++ (used_by_name es (function_of name.now) ++ all_uses es)) }
{
    let all = with(found, found_by_name(name, args))?;
    in_all(alloc, all, args)
}

#[cycle(expressions)]
fn in_all<'a>(
    alloc: Global,
    found: Vec<Found<'a>>,
    args: &'a [Expr],
) -> Result<Vec<Found<'a>>, AllocError>
    ensures { IfOk result (λ all. found_uses all.items ≡ found_uses found.entry.items ++ all_uses (args_tree args.now)) }
{
    let mut all = found;
    for arg in args {
        all = in_expression(alloc, all, arg)?;
    }
    Ok(all)
}
