//! All actions of a definition.
ghost use Rattle.std.specs.Prelude.{◌≡◌, ◌++◌, map, IfOk};
ghost use Rattle.wf_val.specs.Seen.{tree, member};
ghost use Rattle.wf_val.specs.ValueTree.{members};
ghost use Rattle.wf_form.specs.Actions.{actions_among, actions_in, actions_of, in_part, own_action};

use crate::role::{Holder, Role};
use std::alloc::{AllocError, Global};
use wf_val::{Fields, Text, Val};

fn with_own<'a>(
    found: Vec<&'a (Text, Val)>,
    role: Role,
    entry: &'a (Text, Val),
) -> Result<Vec<&'a (Text, Val)>, AllocError>
    ensures { IfOk result (λ all. map (λ m. member m.now) all.items
        ≡ map (λ m. member m.now) found.entry.items ++ own_action role entry.now.0 (tree entry.now.1)) }
{
    let mut found = found;
    if let Role::Action(_) = role {
        found.push(entry)?;
    }
    Ok(found)
}

// Those in a member, itself included, behind those that were found.
#[cycle(collect)]
fn collect<'a>(
    found: Vec<&'a (Text, Val)>,
    role: Role,
    entry: &'a (Text, Val),
) -> Result<Vec<&'a (Text, Val)>, AllocError>
    ensures { IfOk result (λ all. map (λ m. member m.now) all.items
        ≡ map (λ m. member m.now) found.entry.items ++ actions_in role entry.now.0 (tree entry.now.1)) }
{
    let found = with_own(found, role, entry)?;
    match &entry.1 {
        Val::Obj(fields) => collect_among(found, role, Holder::of(&entry.1), fields),
        _ => Ok(found),
    }
}

#[cycle(collect)]
fn collect_among<'a>(
    found: Vec<&'a (Text, Val)>,
    role: Role,
    holder: Holder,
    fields: &'a Fields,
) -> Result<Vec<&'a (Text, Val)>, AllocError>
    ensures { IfOk result (λ all. map (λ m. member m.now) all.items
        ≡ map (λ m. member m.now) found.entry.items ++ actions_among role holder (members fields.now)) }
{
    let mut all = found;
    for entry in fields.as_slice() {
        all = collect_part(all, role.child(holder, entry.0.as_str()), entry)?;
    }
    Ok(all)
}

#[cycle(collect)]
fn collect_part<'a>(
    found: Vec<&'a (Text, Val)>,
    part: Option<Role>,
    entry: &'a (Text, Val),
) -> Result<Vec<&'a (Text, Val)>, AllocError>
    ensures { IfOk result (λ all. map (λ m. member m.now) all.items
        ≡ map (λ m. member m.now) found.entry.items ++ in_part part (λ role. actions_in role entry.now.0 (tree entry.now.1))) }
{
    match part {
        None => Ok(found),
        Some(role) => collect(found, role, entry),
    }
}

/// All actions of a definition, with their names: each before those in it, and else in the byte order of names.
pub fn actions_of<'a>(
    alloc: Global,
    definition: &'a Val,
) -> Result<Vec<&'a (Text, Val)>, AllocError>
    ensures { IfOk result (λ all. map (λ m. member m.now) all.items ≡ actions_of (tree definition.now)) }
{
    let found = Vec::new(alloc);
    match definition {
        Val::Obj(fields) => collect_among(found, Role::Definition, Holder::of(definition), fields),
        _ => Ok(found),
    }
}
