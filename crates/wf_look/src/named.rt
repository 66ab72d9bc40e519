//! Functions that ask the look.
ghost use Rattle.std.specs.Prelude.{◌≡◌, [], ◌∷◌, IfOk, codes, map, option_map};
ghost use Rattle.wf_val.specs.Arguments.{Gives, seen};
ghost use Rattle.wf_val.specs.Seen.{tree};
ghost use Rattle.wf_val.specs.ValueTree.{text};
ghost use Rattle.wf_look.specs.Args.{args_tree, literal_name};
ghost use Rattle.wf_look.specs.Looked.{or_null, or_no_value, outputs_in, body_in, part_in, over_view, named_row, named_by, told_row, workflow_value};

use crate::look::Look;
use std::alloc::{AllocError, Global};
use wf_template::Expr;
use wf_val::{EvalFault, Fields, Fun, Text, Val, Vals, wrong_type};

// What was found under a name, or that the look has no such thing.
fn or_no_value(alloc: Global, name: &str, found: Option<Val>) -> Result<Val, EvalFault>
    ensures { Gives (seen result) (or_no_value name.now (option_map tree found)) }
{
    match found {
        Some(value) => Ok(value),
        None => Err(EvalFault::NoValue {
            name: Text::of(alloc, name)?,
        }),
    }
}

fn copied(alloc: Global, found: Option<&Val>) -> Result<Option<Val>, AllocError>
    ensures { IfOk result (λ v. option_map tree v ≡ option_map (λ v. tree v.now) found.entry) }
{
    match found {
        Some(value) => Ok(Some(value.copy(alloc)?)),
        None => Ok(None),
    }
}

// What was found, or null.
fn or_null(alloc: Global, found: Option<&Val>) -> Result<Val, AllocError>
    ensures { IfOk result (λ v. tree v ≡ or_null (option_map (λ v. tree v.now) found.entry)) }
{
    match found {
        Some(value) => value.copy(alloc),
        None => Ok(Val::Null),
    }
}

fn outputs_in(alloc: Global, view: &Val) -> Result<Val, AllocError>
    ensures { IfOk result (λ v. tree v ≡ outputs_in (tree view.now)) }
{
    or_null(alloc, view.member("outputs"))
}

fn body_in(alloc: Global, view: &Val) -> Result<Val, AllocError>
    ensures { IfOk result (λ v. tree v ≡ body_in (tree view.now)) }
{
    match view.member("outputs") {
        Some(outputs) => or_null(alloc, outputs.member("body")),
        None => Ok(Val::Null),
    }
}

// The outputs of one view, or their body.
fn part_in(alloc: Global, function: Fun, view: &Val) -> Result<Val, AllocError>
    ensures { IfOk result (λ v. tree v ≡ part_in function (tree view.now)) }
{
    match function {
        Fun::Outputs => outputs_in(alloc, view),
        _ => body_in(alloc, view),
    }
}

// The same of each view of a list.
fn over_views(alloc: Global, function: Fun, views: &[Val]) -> Result<Vals, AllocError>
    ensures { IfOk result (λ vs. vs ≡ map (part_in function) (map tree views.now)) }
{
    let mut parts = Vals::new(alloc);
    for view in views {
        parts.push(part_in(alloc, function, view)?)?;
    }
    Ok(parts)
}

#[tactic(auto, using(wf_val::proofs::ValueTreeLemmas::listed))]
fn over_view(alloc: Global, function: Fun, view: &Val) -> Result<Val, AllocError>
    ensures { IfOk result (λ v. tree v ≡ over_view (part_in function) (tree view.now)) }
{
    match view {
        Val::List(views) => Ok(Val::List(over_views(alloc, function, views.as_slice())?)),
        _ => part_in(alloc, function, view),
    }
}

fn over_found(alloc: Global, function: Fun, found: Option<Val>) -> Result<Option<Val>, AllocError>
    ensures { IfOk result (λ v. option_map tree v ≡ option_map (over_view (part_in function)) (option_map tree found)) }
{
    match found {
        Some(view) => Ok(Some(over_view(alloc, function, &view)?)),
        None => Ok(None),
    }
}

// What a naming function gives under a name.
fn named_row<L: Look>(alloc: Global, look: &L, function: Fun, name: &Text) -> Result<Val, EvalFault>
    ensures { Gives (seen result) (named_row (L.told look.now) function name.now) }
{
    let found = match function {
        Fun::Actions => look.view(alloc, name)?,
        Fun::Outputs => over_found(alloc, Fun::Outputs, look.view(alloc, name)?)?,
        Fun::Body => over_found(alloc, Fun::Body, look.view(alloc, name)?)?,
        Fun::Result => look.result(alloc, name)?,
        Fun::Items => copied(alloc, look.item_of(name))?,
        Fun::IterationIndexes => match look.index_of(name) {
            Some(index) => Some(Val::Int(index.min(i64::MAX as u64) as i64)),
            None => None,
        },
        Fun::Parameters => copied(alloc, look.parameter(name))?,
        Fun::Variables => copied(alloc, look.variable(name))?,
        _ => None,
    };
    or_no_value(alloc, name.as_str(), found)
}

/// What a naming function gives, by its first argument, which has to be a literal text.
pub fn named_by<L: Look>(
    alloc: Global,
    look: &L,
    function: Fun,
    args: &[Expr],
) -> Result<Val, EvalFault>
    ensures { Gives (seen result) (named_by (L.told look.now) function (literal_name (args_tree args.now))) }
{
    match args.first() {
        Some(Expr::Lit(Val::Text(name))) => named_row(alloc, look, function, name),
        _ => Err(wrong_type(function, 0)),
    }
}

// Members with a name alone.
fn with_name(alloc: Global, name: Text) -> Result<Fields, AllocError>
    ensures { IfOk result (λ ms. ms ≡ (codes "name", text name) ∷ []) }
{
    let mut fields = Fields::new(alloc);
    fields.put(Text::of(alloc, "name")?, Val::Text(name))?;
    Ok(fields)
}

fn workflow_value(alloc: Global, run: &Text) -> Result<Val, AllocError>
    ensures { IfOk result (λ v. tree v ≡ workflow_value run.now) }
{
    let inner = with_name(alloc, run.copy(alloc)?)?;
    let mut outer = with_name(alloc, Text::of(alloc, "workflow")?)?;
    outer.put(Text::of(alloc, "run")?, Val::Obj(inner))?;
    Ok(Val::Obj(outer))
}

/// What a function of the look alone gives.
pub fn told_row<L: Look>(alloc: Global, look: &L, function: Fun) -> Result<Val, EvalFault>
    ensures { Gives (seen result) (told_row (L.told look.now) function) }
{
    let found = match function {
        Fun::Action => copied(alloc, look.own())?,
        Fun::Item => copied(alloc, look.item())?,
        Fun::Trigger => Some(look.trigger().copy(alloc)?),
        Fun::TriggerOutputs => Some(outputs_in(alloc, look.trigger())?),
        Fun::TriggerBody => Some(body_in(alloc, look.trigger())?),
        Fun::Workflow => Some(workflow_value(alloc, look.run_name())?),
        _ => None,
    };
    or_no_value(alloc, function.name(), found)
}
