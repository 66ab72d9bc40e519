//! What stands at the sites of actions, outputs and triggers.
ghost use Rattle.std.specs.Prelude.{◌≡◌, ◌∷◌, ◌++◌, IfOk, [], map, option_map};
ghost use Rattle.wf_def.specs.ActionSeen.{action_tree, initial_tree, kind_tree};
ghost use Rattle.wf_def.specs.DefSeen.{output_tree, trigger_tree};
ghost use Rattle.wf_template.specs.DataSeen.{data_tree};
ghost use Rattle.wf_template.specs.TemplateSeen.{template_tree};
ghost use Rattle.wf_uses.specs.UsesTree.{uses_tree};
ghost use Rattle.wf_uses.specs.Seen.{found_uses, uses_seen};
ghost use Rattle.wf_refs.specs.Sites.{initials_uses, inputs_uses, items_uses, split_uses, test_uses, trigger_uses, uses_at_inputs};
ghost use Rattle.wf_refs.specs.Sites.{uses_at_items, uses_at_output, uses_at_test, uses_at_tracked, uses_at_trigger, value_uses, writes_of};

use crate::templates::{in_condition, in_members, in_template, in_templates, in_tree};
use std::alloc::{AllocError, Global};
use wf_def::{Action, Initial, Kind, Output, Trigger};
use wf_template::{Template, Tree};
use wf_uses::{Found, Uses};
use wf_val::Text;

fn in_value<'a>(
    alloc: Global,
    found: Vec<Found<'a>>,
    value: &'a Option<Tree>,
) -> Result<Vec<Found<'a>>, AllocError>
    ensures { IfOk result (λ all. found_uses all.items ≡ found_uses found.entry.items ++ value_uses (option_map data_tree value.now)) }
{
    match value {
        Some(tree) => in_tree(alloc, found, tree),
        None => Ok(found),
    }
}

fn in_initials<'a>(
    alloc: Global,
    found: Vec<Found<'a>>,
    variables: &'a [Initial],
) -> Result<Vec<Found<'a>>, AllocError>
    ensures { IfOk result (λ all. found_uses all.items ≡ found_uses found.entry.items ++ initials_uses (map initial_tree variables.now)) }
{
    let mut all = found;
    for variable in variables {
        all = in_value(alloc, all, &variable.value)?;
    }
    Ok(all)
}

// What the kind asks for, but of each item and in the expression of an Until.
fn in_inputs<'a>(alloc: Global, kind: &'a Kind) -> Result<Vec<Found<'a>>, AllocError>
    ensures { IfOk result (λ all. found_uses all.items ≡ inputs_uses (kind_tree kind.now)) }
{
    let none = Vec::new(alloc);
    match kind {
        Kind::Compose { inputs }
        | Kind::Connector { inputs, policy: _ }
        | Kind::Wait { inputs }
        | Kind::Response { inputs }
        | Kind::Terminate { inputs } => in_tree(alloc, none, inputs),
        Kind::Select { from, select: _ } => in_tree(alloc, none, from),
        Kind::Query { from, filter: _ } => in_tree(alloc, none, from),
        Kind::Join { from, with } => {
            let all = in_tree(alloc, none, from)?;
            in_tree(alloc, all, with)
        }
        Kind::ParseJson { content, schema: _ } => in_tree(alloc, none, content),
        Kind::Initialize { variables } => in_initials(alloc, none, variables.as_slice()),
        Kind::Set { name: _, value } => in_tree(alloc, none, value),
        Kind::Increment { name: _, value } => in_value(alloc, none, value),
        Kind::Decrement { name: _, value } => in_value(alloc, none, value),
        Kind::AppendArray { name: _, value } => in_tree(alloc, none, value),
        Kind::AppendString { name: _, value } => in_tree(alloc, none, value),
        Kind::Scope { graph: _ } => Ok(none),
        Kind::If {
            test,
            yes: _,
            no: _,
        } => in_condition(alloc, none, test),
        Kind::Switch {
            on,
            cases: _,
            default: _,
        } => in_template(alloc, none, on),
        Kind::Foreach {
            list,
            repetitions: _,
            graph: _,
        } => in_tree(alloc, none, list),
        Kind::Until {
            test: _,
            count: _,
            fails: _,
            graph: _,
        } => Ok(none),
    }
}

fn in_items<'a>(alloc: Global, kind: &'a Kind) -> Result<Option<Vec<Found<'a>>>, AllocError>
    ensures { IfOk result (λ all. option_map (λ found. found_uses found.items) all ≡ items_uses (kind_tree kind.now)) }
{
    let none = Vec::new(alloc);
    match kind {
        Kind::Select { from: _, select } => Ok(Some(in_tree(alloc, none, select)?)),
        Kind::Query { from: _, filter } => Ok(Some(in_template(alloc, none, filter)?)),
        _ => Ok(None),
    }
}

fn in_test<'a>(alloc: Global, kind: &'a Kind) -> Result<Option<Vec<Found<'a>>>, AllocError>
    ensures { IfOk result (λ all. option_map (λ found. found_uses found.items) all ≡ test_uses (kind_tree kind.now)) }
{
    match kind {
        Kind::Until {
            test,
            count: _,
            fails: _,
            graph: _,
        } => Ok(Some(in_condition(alloc, Vec::new(alloc), test)?)),
        _ => Ok(None),
    }
}

fn names_of<'a>(alloc: Global, variables: &'a [Initial]) -> Result<Vec<&'a Text>, AllocError>
    ensures { IfOk result (λ names. map (λ n. n.now) names.items ≡ map (λ i. i.name) (map initial_tree variables.now)) }
{
    let mut names = Vec::new(alloc);
    for variable in variables {
        names.push(&variable.name)?;
    }
    Ok(names)
}

fn one<'a>(alloc: Global, name: &'a Text) -> Result<Vec<&'a Text>, AllocError>
    ensures { IfOk result (λ names. map (λ n. n.now) names.items ≡ name.now ∷ []) }
{
    let mut names = Vec::new(alloc);
    names.push(name)?;
    Ok(names)
}

// The variables that the kind initialises or writes.
fn written<'a>(alloc: Global, kind: &'a Kind) -> Result<Vec<&'a Text>, AllocError>
    ensures { IfOk result (λ names. map (λ n. n.now) names.items ≡ writes_of (kind_tree kind.now)) }
{
    match kind {
        Kind::Initialize { variables } => names_of(alloc, variables.as_slice()),
        Kind::Set { name, value: _ }
        | Kind::Increment { name, value: _ }
        | Kind::Decrement { name, value: _ }
        | Kind::AppendArray { name, value: _ }
        | Kind::AppendString { name, value: _ } => one(alloc, name),
        _ => Ok(Vec::new(alloc)),
    }
}

// The uses of a site that may be absent, and that writes nothing.
fn reading_if<'a>(
    alloc: Global,
    found: Option<Vec<Found<'a>>>,
) -> Result<Option<Uses<'a>>, AllocError>
    ensures { IfOk result (λ uses. option_map uses_seen uses
        ≡ option_map (uses_tree []) (option_map (λ all. found_uses all.items) found.entry)) }
{
    match found {
        Some(all) => Ok(Some(Uses::reading(alloc, &all)?)),
        None => Ok(None),
    }
}

/// What is asked for by all of an action's inputs, condition, expression or list but what `at_items` and `at_test` tell.
pub fn at_inputs<'a>(alloc: Global, action: &'a Action) -> Result<Uses<'a>, AllocError>
    ensures { IfOk result (λ uses. uses_seen uses ≡ uses_at_inputs (action_tree action.now)) }
{
    let found = in_inputs(alloc, &action.kind)?;
    Uses::of(alloc, written(alloc, &action.kind)?, &found)
}

/// What a Select asks for as it makes something of an item, or a Query as it tests one; none for other actions.
pub fn at_items<'a>(alloc: Global, action: &'a Action) -> Result<Option<Uses<'a>>, AllocError>
    ensures { IfOk result (λ uses. option_map uses_seen uses ≡ uses_at_items (action_tree action.now)) }
{
    reading_if(alloc, in_items(alloc, &action.kind)?)
}

/// What the expression of an Until asks for; none for other actions.
pub fn at_test<'a>(alloc: Global, action: &'a Action) -> Result<Option<Uses<'a>>, AllocError>
    ensures { IfOk result (λ uses. option_map uses_seen uses ≡ uses_at_test (action_tree action.now)) }
{
    reading_if(alloc, in_test(alloc, &action.kind)?)
}

/// What an action's tracked properties ask for.
pub fn at_tracked<'a>(alloc: Global, action: &'a Action) -> Result<Uses<'a>, AllocError>
    ensures { IfOk result (λ uses. uses_seen uses ≡ uses_at_tracked (action_tree action.now)) }
{
    let found = in_members(alloc, Vec::new(alloc), action.tracked.as_slice())?;
    Uses::reading(alloc, &found)
}

/// What a member of the section `outputs` asks for.
pub fn at_output<'a>(alloc: Global, output: &'a Output) -> Result<Uses<'a>, AllocError>
    ensures { IfOk result (λ uses. uses_seen uses ≡ uses_at_output (output_tree output.now)) }
{
    let found = in_tree(alloc, Vec::new(alloc), &output.value)?;
    Uses::reading(alloc, &found)
}

// What a trigger splits, and then its conditions.
fn in_trigger<'a>(alloc: Global, trigger: &'a Trigger) -> Result<Vec<Found<'a>>, AllocError>
    ensures { IfOk result (λ all. found_uses all.items ≡ trigger_uses (trigger_tree trigger.now)) }
{
    let split = in_split(alloc, &trigger.split)?;
    in_templates(alloc, split, trigger.conditions.as_slice())
}

fn in_split<'a>(alloc: Global, split: &'a Option<Template>) -> Result<Vec<Found<'a>>, AllocError>
    ensures { IfOk result (λ all. found_uses all.items ≡ split_uses (option_map template_tree split.now)) }
{
    match split {
        Some(template) => in_template(alloc, Vec::new(alloc), template),
        None => Ok(Vec::new(alloc)),
    }
}

/// What a trigger asks for by what it splits and by its conditions.
pub fn at_trigger<'a>(alloc: Global, trigger: &'a Trigger) -> Result<Uses<'a>, AllocError>
    ensures { IfOk result (λ uses. uses_seen uses ≡ uses_at_trigger (trigger_tree trigger.now)) }
{
    let found = in_trigger(alloc, trigger)?;
    Uses::reading(alloc, &found)
}
