//! The types of variables.
ghost use Rattle.std.specs.Prelude.{◌≡◌, ◌++◌, ℕ, List, IfOk, map, option_map};
ghost use Rattle.wf_def.specs.ActionSeen.{action_tree, initial_tree, kind_tree};
ghost use Rattle.wf_fits.specs.Sorts.{all_initials, changes, initials_of, sort_by};
ghost use Rattle.wf_fits.specs.SortsSeen.{sort_in, typed_tree};

use crate::walk::Placed;
use std::alloc::{AllocError, Global};
use wf_catalog::{by_keys, kind_of};
use wf_def::{Initial, Kind, Sort};
use wf_lists::{Keyed, Sorted};
use wf_val::Text;

/// What a variable is initialised with, by its name.
#[derive(Drop)]
pub(crate) struct Typed<'a> {
    pub(crate) initial: &'a Initial,
}

impl<'a> Keyed for Typed<'a> {
    type Key = Text;

    ghost key_of = { λ t. t.initial.now.name };

    fn key(&self) -> &Text {
        &self.initial.name
    }
}

fn with_each<'a>(
    found: Vec<Typed<'a>>,
    initials: &'a [Initial],
) -> Result<Vec<Typed<'a>>, AllocError>
    ensures { IfOk result (λ all. map typed_tree all.items ≡ map typed_tree found.entry.items ++ map initial_tree initials.now) }
{
    let mut all = found;
    for initial in initials {
        all.push(Typed { initial })?;
    }
    Ok(all)
}

fn with_initials<'a>(found: Vec<Typed<'a>>, kind: &'a Kind) -> Result<Vec<Typed<'a>>, AllocError>
    ensures { IfOk result (λ all. map typed_tree all.items ≡ map typed_tree found.entry.items ++ initials_of (kind_tree kind.now)) }
{
    match kind {
        Kind::Initialize { variables } => with_each(found, variables.as_slice()),
        _ => Ok(found),
    }
}

fn all_initials<'a>(alloc: Global, actions: &[Placed<'a>]) -> Result<Vec<Typed<'a>>, AllocError>
    ensures { IfOk result (λ all. map typed_tree all.items ≡ all_initials (map (λ p. action_tree p.action.now) actions.now)) }
{
    let mut all = Vec::new(alloc);
    for placed in actions {
        all = with_initials(all, kind_of(placed.action))?;
    }
    Ok(all)
}

/// The variables that actions initialise, by their names.
pub(crate) fn sorts_of<'a>(
    alloc: Global,
    actions: &[Placed<'a>],
) -> Result<Sorted<Typed<'a>>, AllocError>
    ensures { IfOk result (λ ts. (k : List ℕ)
        → sort_in ts k ≡ sort_by (all_initials (map (λ p. action_tree p.action.now) actions.now)) k) }
{
    let table = by_keys(alloc, all_initials(alloc, actions)?)?;
    Ok(table)
}

pub(crate) fn sort_in(sorts: &Sorted<Typed<'_>>, name: &Text) -> Option<Sort>
    ensures { result ≡ sort_in sorts.now name.now }
{
    match sorts.get(name) {
        Some(typed) => Some(typed.initial.sort),
        None => None,
    }
}

/// The variable that an action writes and doesn't initialise.
pub(crate) fn changes(kind: &Kind) -> Option<&Text>
    ensures { option_map (λ n. n.now) result ≡ changes (kind_tree kind.now) }
{
    match kind {
        Kind::Set { name, value: _ } => Some(name),
        Kind::Increment { name, value: _ } => Some(name),
        Kind::Decrement { name, value: _ } => Some(name),
        Kind::AppendArray { name, value: _ } => Some(name),
        Kind::AppendString { name, value: _ } => Some(name),
        _ => None,
    }
}
