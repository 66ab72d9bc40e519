//! InitializeVariable: one variable, or several at once.
ghost use Rattle.std.specs.Prelude.{◌≡◌, [], IfOk, OnOk, map};
ghost use Rattle.wf_val.specs.Arguments.{Gives, seen};
ghost use Rattle.wf_val.specs.Seen.{tree};
ghost use Rattle.wf_def.specs.ActionSeen.{initial_tree};
ghost use Rattle.wf_data.specs.Made.{Comes};
ghost use Rattle.wf_data.specs.MadeSeen.{made_seen};
ghost use Rattle.wf_variables.specs.Initials.{body_of, given_item, initial_value, initials_after, kept_item};
ghost use Rattle.wf_variables.specs.Initials.{made_initialize, made_of_items, pushed};
ghost use Rattle.wf_variables.specs.ItemsSeen.{items_tree, items_seen};

use crate::sorts::{empty_of, of_sort, sort_name};
use std::alloc::{AllocError, Global};
use wf_data::{Look, Made, eval_tree, fitting, one_member};
use wf_def::Initial;
use wf_val::{EvalFault, Fields, Text, Val, Vals};

// The items that are kept of the variables so far, and those that are given out.
#[derive(Drop)]
pub(crate) struct Items {
    pub(crate) kept: Vals,
    pub(crate) given: Vals,
}

// The value with which a variable begins.
fn initial_value<L: Look>(alloc: Global, initial: &Initial, look: &mut L) -> Result<Val, EvalFault>
    ensures value { Comes (seen result) (initial_value (L.told look.old) (initial_tree initial.now) (L.drawn look.old)) (L.drawn look.new) }
    ensures same { L.told look.new ≡ L.told look.old }
    ensures held { L.held look.new ≡ L.held look.old }
{
    match &initial.value {
        None => Ok(empty_of(alloc, initial.sort)),
        Some(tree) => {
            let value = eval_tree(alloc, tree, look)?;
            of_sort(initial.sort, value)
        }
    }
}

/// What is given out of a variable: its name and a value.
pub(crate) fn given_item(alloc: Global, name: &Text, value: Val) -> Result<Val, AllocError>
    ensures { IfOk result (λ v. tree v ≡ given_item name.now (tree value)) }
{
    let mut fields = Fields::new(alloc);
    fields.put(Text::of(alloc, "name")?, Val::Text(name.copy(alloc)?))?;
    fields.put(Text::of(alloc, "value")?, value)?;
    Ok(Val::Obj(fields))
}

// What is kept of a variable: its name, its type and its value.
fn kept_item(alloc: Global, initial: &Initial, value: Val) -> Result<Val, AllocError>
    ensures { IfOk result (λ v. tree v ≡ kept_item (initial_tree initial.now) (tree value)) }
{
    let mut fields = Fields::new(alloc);
    fields.put(
        Text::of(alloc, "name")?,
        Val::Text(initial.name.copy(alloc)?),
    )?;
    fields.put(
        Text::of(alloc, "type")?,
        Val::Text(Text::of(alloc, sort_name(initial.sort))?),
    )?;
    fields.put(Text::of(alloc, "value")?, value)?;
    Ok(Val::Obj(fields))
}

// One variable more.
fn push_item(
    alloc: Global,
    items: &mut Items,
    initial: &Initial,
    value: Val,
) -> Result<(), AllocError>
    ensures { OnOk result (items_tree items.new ≡ pushed (initial_tree initial.now) (tree value) (items_tree items.old)) }
{
    let kept = kept_item(alloc, initial, value.copy(alloc)?)?;
    items.kept.push(kept)?;
    items.given.push(given_item(alloc, &initial.name, value)?)?;
    Ok(())
}

// All variables; the value of each is judged before the next is evaluated.
fn initial_items<L: Look>(
    alloc: Global,
    initials: &[Initial],
    look: &mut L,
) -> Result<Items, EvalFault>
    ensures items { Comes (items_seen result)
        (initials_after (L.told look.old) (map initial_tree initials.now) (record { kept = []; given = [] }) (L.drawn look.old))
        (L.drawn look.new) }
    ensures same { L.told look.new ≡ L.told look.old }
    ensures held { L.held look.new ≡ L.held look.old }
{
    let mut items = Items {
        kept: Vals::new(alloc),
        given: Vals::new(alloc),
    };
    for initial in initials {
        let value = initial_value(alloc, initial, look)?;
        push_item(alloc, &mut items, initial, value)?;
    }
    Ok(items)
}

// One is given out by itself, several as their list.
fn body_of(alloc: Global, given: Vals) -> Result<Val, AllocError>
    ensures { IfOk result (λ v. tree v ≡ body_of given) }
{
    match given.as_slice() {
        [one] => one.copy(alloc),
        _ => Ok(Val::List(given)),
    }
}

// What an InitializeVariable keeps.
fn made_of_items(alloc: Global, items: Items) -> Result<Made, EvalFault>
    ensures { Gives (made_seen result) (made_of_items (items_tree items)) }
{
    let inputs = one_member(alloc, "variables", Val::List(items.kept))?;
    let body = body_of(alloc, items.given)?;
    let outputs = one_member(alloc, "body", body)?;
    fitting(inputs, outputs)
}

/// InitializeVariable makes variables in the order of their list; where one has no value of its type, none is made.
pub fn initialize<L: Look>(
    alloc: Global,
    initials: &[Initial],
    look: &mut L,
) -> Result<Made, EvalFault>
    ensures made { Comes (made_seen result)
        (made_initialize (L.told look.old) (map initial_tree initials.now) (L.drawn look.old)) (L.drawn look.new) }
    ensures same { L.told look.new ≡ L.told look.old }
    ensures held { L.held look.new ≡ L.held look.old }
{
    let items = initial_items(alloc, initials, look)?;
    made_of_items(alloc, items)
}
