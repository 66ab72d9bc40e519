//! The numbers of variables.
ghost use Rattle.std.specs.Prelude.{◌≡◌, ◌∷◌, ◌++◌, [], ℕ, List, IfOk, map};
ghost use Rattle.wf_def.specs.ActionSeen.{action_tree, initial_tree, kind_tree};
ghost use Rattle.wf_meant.specs.Sites.{writes_of};
ghost use Rattle.wf_catalog.specs.PlacesSeen.{number_in, variable_tree};
ghost use Rattle.wf_catalog.specs.Variables.{first_place, listed, numbered_from, numbers_by, written_names};

use crate::actions::kind_of;
use crate::tables::by_keys;
use crate::walk::Placed;
use std::alloc::{AllocError, Global};
use wf_def::{Initial, Kind};
use wf_lists::{Keyed, Sorted};
use wf_val::Text;

/// A variable, by its name, and its number.
#[derive(Drop)]
pub(crate) struct Variable<'a> {
    pub(crate) name: &'a Text,
    pub(crate) number: u32,
}

impl<'a> Keyed for Variable<'a> {
    type Key = Text;

    ghost key_of = { λ v. v.name.now };

    fn key(&self) -> &Text {
        self.name
    }
}

fn initialized<'a>(alloc: Global, variables: &'a [Initial]) -> Result<Vec<&'a Text>, AllocError>
    ensures { IfOk result (λ names. map (λ n. n.now) names.items ≡ map (λ i. i.name) (map initial_tree variables.now)) }
{
    let mut names = Vec::new(alloc);
    for variable in variables {
        names.push(&variable.name)?;
    }
    Ok(names)
}

fn one<'a>(alloc: Global, name: &'a Text) -> Result<Vec<&'a Text>, AllocError>
    ensures { IfOk result (λ names. map (λ n. n.now) names.items ≡ name.now ∷ []) }
{
    let mut names = Vec::new(alloc);
    names.push(name)?;
    Ok(names)
}

/// The names of the variables that an action writes.
pub(crate) fn writes_of<'a>(alloc: Global, kind: &'a Kind) -> Result<Vec<&'a Text>, AllocError>
    ensures { IfOk result (λ names. map (λ n. n.now) names.items ≡ writes_of (kind_tree kind.now)) }
{
    match kind {
        Kind::Initialize { variables } => initialized(alloc, variables.as_slice()),
        Kind::Set { name, value: _ } => one(alloc, name),
        Kind::Increment { name, value: _ } => one(alloc, name),
        Kind::Decrement { name, value: _ } => one(alloc, name),
        Kind::AppendArray { name, value: _ } => one(alloc, name),
        Kind::AppendString { name, value: _ } => one(alloc, name),
        _ => Ok(Vec::new(alloc)),
    }
}

fn with_names<'a>(found: Vec<&'a Text>, names: &[&'a Text]) -> Result<Vec<&'a Text>, AllocError>
    ensures { IfOk result (λ all. map (λ n. n.now) all.items ≡ map (λ n. n.now) found.entry.items ++ map (λ n. n.now) names.now) }
{
    let mut all = found;
    for name in names {
        all.push(*name)?;
    }
    Ok(all)
}

// The names of the variables that actions write, as often as they are written.
fn written_names<'a>(alloc: Global, actions: &[Placed<'a>]) -> Result<Vec<&'a Text>, AllocError>
    ensures { IfOk result (λ names. map (λ n. n.now) names.items ≡ written_names (map (λ p. action_tree p.action.now) actions.now)) }
{
    let mut names = Vec::new(alloc);
    for placed in actions {
        let written = writes_of(alloc, kind_of(placed.action))?;
        names = with_names(names, &written)?;
    }
    Ok(names)
}

// Each with its place. More than a u32 counts don't come: so much memory there isn't.
fn numbered<'a>(alloc: Global, names: &[&'a Text]) -> Result<Vec<Variable<'a>>, AllocError>
    ensures { IfOk result (λ all. map variable_tree all.items ≡ numbered_from 0 (map (λ n. n.now) names.now)) }
{
    let mut all = Vec::with_capacity(alloc, names.len())?;
    for place in 0..names.len() {
        let Ok(number) = u32::try_from(place) else {
            return Err(AllocError);
        };
        all.push(Variable {
            name: names[place],
            number,
        })?;
    }
    Ok(all)
}

/// The variables that actions write, by their names.
pub(crate) fn variables_of<'a>(
    alloc: Global,
    actions: &[Placed<'a>],
) -> Result<Sorted<Variable<'a>>, AllocError>
    ensures { IfOk result (λ vs. (k : List ℕ)
        → number_in vs k ≡ first_place 0 (written_names (map (λ p. action_tree p.action.now) actions.now)) k) }
{
    let names = written_names(alloc, actions)?;
    let table = by_keys(alloc, numbered(alloc, &names)?)?;
    Ok(table)
}

/// The number of a variable.
pub(crate) fn number_in(variables: &Sorted<Variable<'_>>, name: &Text) -> Option<u32>
    ensures { result ≡ number_in variables.now name.now }
{
    match variables.get(name) {
        Some(variable) => Some(variable.number),
        None => None,
    }
}

fn with_number(found: Vec<u32>, number: Option<u32>) -> Result<Vec<u32>, AllocError>
    ensures { IfOk result (λ all. all.items ≡ found.items ++ listed number) }
{
    let mut all = found;
    match number {
        Some(number) => {
            all.push(number)?;
            Ok(all)
        }
        None => Ok(all),
    }
}

/// The numbers of the variables that an action writes.
pub(crate) fn numbers_of(
    alloc: Global,
    variables: &Sorted<Variable<'_>>,
    kind: &Kind,
) -> Result<Vec<u32>, AllocError>
    ensures { IfOk result (λ ns. ns.items ≡ numbers_by (number_in variables.now) (writes_of (kind_tree kind.now))) }
{
    let names = writes_of(alloc, kind)?;
    let mut numbers = Vec::new(alloc);
    for name in &names {
        numbers = with_number(numbers, number_in(variables, *name))?;
    }
    Ok(numbers)
}
