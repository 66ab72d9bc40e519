//! The conditions of If and Until.
ghost use Rattle.std.specs.Prelude.{◌≡◌, IfOk, option_map};
ghost use Rattle.wf_val.specs.Seen.{tree, member};
ghost use Rattle.wf_val.specs.ValueTree.{trees, members};
ghost use Rattle.wf_template.specs.CondSeen.{cond_tree, conds_seen};
ghost use Rattle.wf_leaves.specs.Conditions.{compared, condition_at, condition_by, condition_named, condition_of, conditions_in, conditions_of, no_condition, only};

use crate::texts::{data_in, template_of};
use std::alloc::{AllocError, Global};
use wf_kinds::comparison_named;
use wf_template::{Cond, Conds, Template};
use wf_val::{Fields, Fun, Text, Val, Vals};

// What a value of another form is read as.
fn no_condition(alloc: Global) -> Result<Cond, AllocError>
    ensures { IfOk result (λ c. cond_tree c ≡ no_condition) }
{
    Ok(Cond::Text(Template::Plain(Text::of(alloc, "")?)))
}

fn compared(alloc: Global, function: Option<Fun>, value: &Val) -> Result<Cond, AllocError>
    ensures { IfOk result (λ c. cond_tree c ≡ compared function (tree value.now)) }
{
    match function {
        None => no_condition(alloc),
        Some(fun) => Ok(Cond::Compare {
            fun,
            left: data_in(alloc, value.item(0))?,
            right: data_in(alloc, value.item(1))?,
        }),
    }
}

// The one member of an object that has just one.
#[tactic(auto, using(crate::proofs::ConditionLemmas::only_one, crate::proofs::ConditionLemmas::only_other))]
fn only<'a>(fields: &'a Fields) -> Option<&'a (Text, Val)>
    ensures { option_map (λ m. member m.now) result ≡ only fields.now }
{
    if fields.len() == 1 {
        fields.at(0)
    } else {
        None
    }
}

#[cycle(condition)]
fn condition_of(alloc: Global, value: &Val) -> Result<Cond, AllocError>
    ensures { IfOk result (λ c. cond_tree c ≡ condition_of (tree value.now)) }
{
    match value {
        Val::Text(text) => Ok(Cond::Text(template_of(alloc, text)?)),
        Val::Obj(fields) => condition_by(alloc, fields),
        _ => no_condition(alloc),
    }
}

#[cycle(condition)]
fn condition_by(alloc: Global, fields: &Fields) -> Result<Cond, AllocError>
    ensures { IfOk result (λ c. cond_tree c ≡ condition_by (members fields.now)) }
{
    match only(fields) {
        Some((name, value)) => condition_named(alloc, name.as_str(), value),
        None => no_condition(alloc),
    }
}

#[cycle(condition)]
fn condition_named(alloc: Global, name: &str, value: &Val) -> Result<Cond, AllocError>
    ensures { IfOk result (λ c. cond_tree c ≡ condition_named name.now (conditions_in (tree value.now)) (condition_of (tree value.now)) (tree value.now)) }
{
    if name == "and" {
        Ok(Cond::And(conditions_in(alloc, value)?))
    } else if name == "or" {
        Ok(Cond::Or(conditions_in(alloc, value)?))
    } else if name == "not" {
        let condition = condition_of(alloc, value)?;
        Ok(Cond::Not(Box::new(alloc, condition)?))
    } else {
        compared(alloc, comparison_named(name), value)
    }
}

#[cycle(condition)]
fn conditions_in(alloc: Global, value: &Val) -> Result<Conds, AllocError>
    ensures { IfOk result (λ cs. conds_seen cs ≡ conditions_in (tree value.now)) }
{
    match value {
        Val::List(items) => conditions_of(alloc, items),
        _ => Ok(Conds::new(alloc)),
    }
}

#[cycle(condition)]
fn conditions_of(alloc: Global, items: &Vals) -> Result<Conds, AllocError>
    ensures { IfOk result (λ cs. conds_seen cs ≡ conditions_of (trees items.now)) }
{
    let mut found = Conds::new(alloc);
    for item in items.as_slice() {
        found.push(condition_of(alloc, item)?)?;
    }
    Ok(found)
}

/// The condition that a member is.
pub fn condition_at(alloc: Global, value: Option<&Val>) -> Result<Cond, AllocError>
    ensures { IfOk result (λ c. cond_tree c ≡ condition_at (option_map (λ v. tree v.now) value.entry)) }
{
    match value {
        Some(value) => condition_of(alloc, value),
        None => no_condition(alloc),
    }
}
