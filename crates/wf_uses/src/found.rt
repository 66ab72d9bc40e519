//! Uses as they are found.
ghost use Rattle.std.specs.Prelude.{◌≡◌, ◌++◌, IfOk, map, option_map, option_to_list};
ghost use Rattle.std.specs.List.{list_any};
ghost use Rattle.wf_eval_expr.specs.Args.{args_tree, literal_name};
ghost use Rattle.wf_eval_expr.specs.Uses.{named_use, used_by, used_by_name};
ghost use Rattle.wf_eval_expr.specs.Ways.{way_of};
ghost use Rattle.wf_uses.specs.Named.{asks_for, name_by, names_by};
ghost use Rattle.wf_uses.specs.Seen.{found_use, found_uses};
ghost use Rattle.wf_val.specs.Function.{function_of};

use crate::named::{Asked, Named};
use std::alloc::{AllocError, Global};
use wf_eval_expr::function_named;
use wf_template::Expr;
use wf_val::{Fun, Text, Val};

/// What a call asks for beside its arguments.
#[derive(Clone, Copy)]
pub enum Found<'a> {
    /// What a function has under this name.
    Name { function: Fun, name: &'a Text },
    /// What a function without a name is told.
    Told(Fun),
    Moment,
    Word,
}

// A naming function's first argument, where that is a text as it stands.
fn named<'a>(function: Fun, args: &'a [Expr]) -> Option<Found<'a>>
    ensures { option_to_list (option_map found_use result) ≡ named_use function (literal_name (args_tree args.now)) }
{
    match args.first() {
        Some(Expr::Lit(Val::Text(name))) => Some(Found::Name { function, name }),
        _ => None,
    }
}

fn found_by<'a>(function: Fun, args: &'a [Expr]) -> Option<Found<'a>>
    ensures { option_to_list (option_map found_use result) ≡ used_by (args_tree args.now) function (way_of function) }
{
    match function {
        Fun::Actions
        | Fun::Outputs
        | Fun::Body
        | Fun::Result
        | Fun::Items
        | Fun::IterationIndexes
        | Fun::Parameters
        | Fun::Variables => named(function, args),
        Fun::Action
        | Fun::Item
        | Fun::Trigger
        | Fun::TriggerOutputs
        | Fun::TriggerBody
        | Fun::Workflow => Some(Found::Told(function)),
        Fun::UtcNow | Fun::GetFutureTime | Fun::GetPastTime => Some(Found::Moment),
        Fun::Guid | Fun::Rand => Some(Found::Word),
        _ => None,
    }
}

/// What a call by this name asks for beside its arguments; a name that is no function's asks for nothing.
pub fn found_by_name<'a>(name: &Text, args: &'a [Expr]) -> Option<Found<'a>>
    ensures { option_to_list (option_map found_use result) ≡ used_by_name (args_tree args.now) (function_of name.now) }
{
    match function_named(name) {
        Some(function) => found_by(function, args),
        None => None,
    }
}

/// What was found, and one more where there is one.
pub fn with<'a>(
    mut found: Vec<Found<'a>>,
    one: Option<Found<'a>>,
) -> Result<Vec<Found<'a>>, AllocError>
    ensures { IfOk result (λ all. found_uses all.items ≡ found_uses found.entry.items ++ option_to_list (option_map found_use one.entry)) }
{
    match one {
        Some(one) => {
            found.push(one)?;
            Ok(found)
        }
        None => Ok(found),
    }
}

/// The names of one kind, in the order in which they were found.
pub(crate) fn names_by<'a>(
    alloc: Global,
    named: Named,
    found: &[Found<'a>],
) -> Result<Vec<&'a Text>, AllocError>
    ensures { IfOk result (λ names. map (λ n. n.now) names.items ≡ names_by named (found_uses found.now)) }
{
    let mut names = Vec::new(alloc);
    for one in found {
        if let Some(name) = one.name_by(named) {
            names.push(name)?;
        }
    }
    Ok(names)
}

/// Whether something found asks for this.
pub(crate) fn asks_for<'a>(asked: Asked, found: &[Found<'a>]) -> bool
    ensures { result ≡ list_any (asks_for asked) (found_uses found.now) }
{
    for one in found {
        if one.asks_for(asked) {
            return true;
        }
    }
    false
}

impl<'a> Found<'a> {
    // The name, where it is of that kind.
    fn name_by(&self, named: Named) -> Option<&'a Text>
        ensures { option_to_list (option_map (λ n. n.now) result) ≡ name_by named (found_use self.now) }
    {
        match self {
            Found::Name { function, name } => {
                if named.is_by(*function) {
                    Some(*name)
                } else {
                    None
                }
            }
            _ => None,
        }
    }

    fn asks_for(&self, asked: Asked) -> bool
        ensures { result ≡ asks_for asked (found_use self.now) }
    {
        match asked {
            Asked::Item => matches!(self, Found::Told(Fun::Item)),
            Asked::Own => matches!(self, Found::Told(Fun::Action)),
            Asked::Run => matches!(self, Found::Told(Fun::Workflow)),
            Asked::Words => matches!(self, Found::Word),
            Asked::Moment => matches!(self, Found::Moment),
        }
    }
}
