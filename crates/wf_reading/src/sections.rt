//! The sections of a definition beside its actions.
ghost use Rattle.std.specs.Prelude.{◌≡◌, [], IfOk, map, option_map};
ghost use Rattle.wf_val.specs.Seen.{tree, member};
ghost use Rattle.wf_template.specs.TemplateSeen.{template_tree};
ghost use Rattle.wf_def.specs.DefSeen.{output_tree, param_tree, trigger_tree};
ghost use Rattle.wf_reading.specs.Sections.{condition_template, given_by, given_in, output_of, parameter_of, parameter_sort, template_if, templates_in, trigger_of, values_in};

use std::alloc::{AllocError, Global};
use wf_def::{Output, Outputs, Param, Params, Sort, Templates, Trigger, Triggers};
use wf_leaves::{data_in, str_in, template_at, template_of};
use wf_template::Template;
use wf_val::{Fields, Text, Val, Vals};

fn parameter_sort(name: &str) -> Sort
    ensures { result ≡ parameter_sort name.now }
{
    if name.eq_ignore_ascii_case("int") {
        Sort::Int
    } else if name.eq_ignore_ascii_case("string") || name.eq_ignore_ascii_case("securestring") {
        Sort::Text
    } else if name.eq_ignore_ascii_case("bool") {
        Sort::Bool
    } else if name.eq_ignore_ascii_case("array") {
        Sort::List
    } else {
        Sort::Obj
    }
}

fn value_if(alloc: Global, value: Option<&Val>) -> Result<Option<Val>, AllocError>
    ensures { IfOk result (λ v. option_map tree v ≡ option_map (λ v. tree v.now) value.entry) }
{
    match value {
        Some(value) => Ok(Some(value.copy(alloc)?)),
        None => Ok(None),
    }
}

#[tactic(auto, using(wf_val::proofs::ValueTreeLemmas::listed))]
fn values_in(alloc: Global, value: Option<&Val>) -> Result<Option<Vals>, AllocError>
    ensures { IfOk result (λ v. v ≡ values_in (option_map (λ v. tree v.now) value.entry)) }
{
    match value {
        Some(Val::List(items)) => Ok(Some(items.copy(alloc)?)),
        _ => Ok(None),
    }
}

fn parameter_of(alloc: Global, name: &Text, value: &Val) -> Result<Param, AllocError>
    ensures { IfOk result (λ p. param_tree p ≡ parameter_of (name.now, tree value.now)) }
{
    Ok(Param {
        name: name.copy(alloc)?,
        sort: parameter_sort(str_in(value.member("type"))),
        default: value_if(alloc, value.member("defaultValue"))?,
        allowed: values_in(alloc, value.member("allowedValues"))?,
    })
}

/// The parameters that the members of `parameters` declare.
pub(crate) fn parameters_of(alloc: Global, members: &[(Text, Val)]) -> Result<Params, AllocError>
    ensures { IfOk result (λ ps. map param_tree ps ≡ map parameter_of (map member members.now)) }
{
    let mut found = Params::new(alloc);
    for (name, value) in members {
        found.push(parameter_of(alloc, name, value)?)?;
    }
    Ok(found)
}

// The template that a member spells, where it is a text.
fn template_if(alloc: Global, value: Option<&Val>) -> Result<Option<Template>, AllocError>
    ensures { IfOk result (λ t. option_map template_tree t ≡ template_if (option_map (λ v. tree v.now) value.entry)) }
{
    match value {
        Some(Val::Text(text)) => Ok(Some(template_of(alloc, text)?)),
        _ => Ok(None),
    }
}

fn templates_of(alloc: Global, values: &[Val]) -> Result<Templates, AllocError>
    ensures { IfOk result (λ ts. map template_tree ts ≡ map condition_template (map tree values.now)) }
{
    let mut found = Templates::new(alloc);
    for value in values {
        found.push(template_at(alloc, value.member("expression"))?)?;
    }
    Ok(found)
}

#[tactic(auto, using(wf_val::proofs::ValueTreeLemmas::listed))]
fn templates_in(alloc: Global, value: Option<&Val>) -> Result<Templates, AllocError>
    ensures { IfOk result (λ ts. map template_tree ts ≡ templates_in (option_map (λ v. tree v.now) value.entry)) }
{
    match value {
        Some(Val::List(items)) => templates_of(alloc, items.as_slice()),
        _ => Ok(Templates::new(alloc)),
    }
}

fn trigger_of(alloc: Global, name: &Text, value: &Val) -> Result<Trigger, AllocError>
    ensures { IfOk result (λ t. trigger_tree t ≡ trigger_of (name.now, tree value.now)) }
{
    Ok(Trigger {
        name: name.copy(alloc)?,
        split: template_if(alloc, value.member("splitOn"))?,
        conditions: templates_in(alloc, value.member("conditions"))?,
    })
}

/// The triggers that are the members of `triggers`.
pub(crate) fn triggers_of(alloc: Global, members: &[(Text, Val)]) -> Result<Triggers, AllocError>
    ensures { IfOk result (λ ts. map trigger_tree ts ≡ map trigger_of (map member members.now)) }
{
    let mut found = Triggers::new(alloc);
    for (name, value) in members {
        found.push(trigger_of(alloc, name, value)?)?;
    }
    Ok(found)
}

fn output_of(alloc: Global, name: &Text, value: &Val) -> Result<Output, AllocError>
    ensures { IfOk result (λ o. output_tree o ≡ output_of (name.now, tree value.now)) }
{
    Ok(Output {
        name: name.copy(alloc)?,
        value: data_in(alloc, value.member("value"))?,
    })
}

/// The outputs that are the members of `outputs`.
pub(crate) fn outputs_of(alloc: Global, members: &[(Text, Val)]) -> Result<Outputs, AllocError>
    ensures { IfOk result (λ os. map output_tree os ≡ map output_of (map member members.now)) }
{
    let mut found = Outputs::new(alloc);
    for (name, value) in members {
        found.push(output_of(alloc, name, value)?)?;
    }
    Ok(found)
}

// The values with one more, where there is one.
fn given_by(
    alloc: Global,
    name: &Text,
    value: Option<&Val>,
    done: Fields,
) -> Result<Fields, AllocError>
    ensures { IfOk result (λ given. given ≡ given_by name.now (option_map (λ v. tree v.now) value.entry) done) }
{
    let mut given = done;
    match value {
        Some(value) => {
            given.put(name.copy(alloc)?, value.copy(alloc)?)?;
            Ok(given)
        }
        None => Ok(given),
    }
}

/// The values that the members of a wrapper's `parameters` give.
pub(crate) fn given_in(alloc: Global, members: &[(Text, Val)]) -> Result<Fields, AllocError>
    ensures { IfOk result (λ given. given ≡ given_in (map member members.now) []) }
{
    let mut given = Fields::new(alloc);
    for (name, value) in members {
        given = given_by(alloc, name, value.member("value"), given)?;
    }
    Ok(given)
}
