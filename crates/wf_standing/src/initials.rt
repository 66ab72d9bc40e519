//! The initialisations of a definition by the names of their variables.
ghost use Rattle.std.specs.List.{list_any};
ghost use Rattle.std.specs.Ordering.{is_lt};
ghost use Rattle.std.specs.Prelude.{◌≡◌, ℕ, List, [], ◌∷◌, ◌++◌, IfOk, OnOk, bytes_eq, cond, count_by, map, nat_eq};
ghost use Rattle.wf_def.specs.ActionSeen.{initial_tree, kind_tree};
ghost use Rattle.wf_standing.specs.Seen.{initialised_found, initialised_tree, standing_tree};
ghost use Rattle.wf_standing.specs.Standing.{number_at, pointer_at};
ghost use Rattle.wf_standing.specs.Whole.{initialised_among, initialised_by, initials_of, is_again};
ghost use Rattle.wf_val.specs.NameOrder.{bytes_cmp};

use crate::standing::Standing;
use std::alloc::{AllocError, Global};
use wf_def::{Initial, Kind, Sort};
use wf_lists::{Keyed, Sorted};
use wf_val::Text;

/// An action that initialises a variable, and the variable's type.
#[derive(Drop)]
pub struct Initialised<'b, 'a> {
    pub standing: &'b Standing<'a>,
    pub sort: Sort,
}

/// A variable, and all that initialises it.
#[derive(Drop)]
pub struct Variable<'b, 'a> {
    pub name: &'a Text,
    pub by: Vec<Initialised<'b, 'a>>,
}

impl<'b, 'a: 'b> Keyed for Variable<'b, 'a> {
    type Key = Text;

    ghost key_of = { λ v. v.name.now };

    fn key(&self) -> &Text {
        self.name
    }
}

/// Variables by their names.
pub(crate) type Variables<'b, 'a> = Sorted<Variable<'b, 'a>>;

// What is kept for the name is taken out.
fn taken<'b, 'a: 'b>(
    alloc: Global,
    variables: &mut Variables<'b, 'a>,
    name: &Text,
) -> Vec<Initialised<'b, 'a>>
    ensures kept { map initialised_tree result.items ≡ initialised_found variables.old name.now }
    ensures rest { (k : List ℕ) → initialised_found variables.new k
        ≡ cond (bytes_eq k name.now) [] (initialised_found variables.old k) }
{
    let _in_order = variables.as_slice();
    match variables.take(name) {
        Some(variable) => variable.by,
        None => Vec::new(alloc),
    }
}

// Keeps one more, behind those of its name.
fn add<'b, 'a: 'b>(
    alloc: Global,
    variables: &mut Variables<'b, 'a>,
    standing: &'b Standing<'a>,
    initial: &'a Initial,
) -> Result<(), AllocError>
    ensures { OnOk result ((k : List ℕ) → initialised_found variables.new k
        ≡ initialised_found variables.old k ++ initialised_by (standing_tree standing.now) (initial_tree initial.now ∷ []) k) }
{
    let mut by = taken(alloc, variables, &initial.name);
    by.push(Initialised {
        standing,
        sort: initial.sort,
    })?;
    variables.put(Variable {
        name: &initial.name,
        by,
    })?;
    Ok(())
}

fn initials_of(kind: &Kind) -> &[Initial]
    ensures { map initial_tree result.now ≡ initials_of (kind_tree kind.now) }
{
    match kind {
        Kind::Initialize { variables } => variables.as_slice(),
        _ => &[],
    }
}

// And all that an action initialises.
fn add_all<'b, 'a: 'b>(
    alloc: Global,
    variables: &mut Variables<'b, 'a>,
    standing: &'b Standing<'a>,
    initials: &'a [Initial],
) -> Result<(), AllocError>
    ensures { OnOk result ((k : List ℕ) → initialised_found variables.new k
        ≡ initialised_found variables.old k ++ initialised_by (standing_tree standing.now) (map initial_tree initials.now) k) }
{
    for initial in initials {
        add(alloc, variables, standing, initial)?;
    }
    Ok(())
}

/// All that these actions initialise.
pub(crate) fn variables_of<'b, 'a: 'b>(
    alloc: Global,
    standings: &'b [Standing<'a>],
) -> Result<Variables<'b, 'a>, AllocError>
    ensures { IfOk result (λ variables. (k : List ℕ) → initialised_found variables k
        ≡ initialised_among (map standing_tree standings.now) k) }
{
    let mut variables = Sorted::new(alloc);
    for standing in standings {
        add_all(
            alloc,
            &mut variables,
            standing,
            initials_of(&standing.action.kind),
        )?;
    }
    Ok(variables)
}

// ---- a variable that is initialised more than once

fn any_lesser(standing: &Standing<'_>, by: &[Initialised<'_, '_>]) -> bool
    ensures { result ≡ list_any
        (λ i. is_lt (bytes_cmp (pointer_at i.standing) (pointer_at (standing_tree standing.now)))) (map initialised_tree by.now) }
{
    for one in by {
        if one
            .standing
            .action
            .pointer
            .order(&standing.action.pointer)
            .is_lt()
        {
            return true;
        }
    }
    false
}

fn count_own(standing: &Standing<'_>, by: &[Initialised<'_, '_>]) -> usize
    ensures { result ≡ count_by
        (λ i. nat_eq (number_at i.standing) (number_at (standing_tree standing.now))) (map initialised_tree by.now) }
{
    let mut count = 0;
    for one in by {
        if one.standing.action.number == standing.action.number {
            count += 1;
        }
    }
    count
}

/// Whether the action initialises the variable once more: another does so at a lesser pointer, or it does so twice itself.
pub fn is_again(standing: &Standing<'_>, by: &[Initialised<'_, '_>]) -> bool
    ensures { result ≡ is_again (standing_tree standing.now) (map initialised_tree by.now) }
{
    any_lesser(standing, by) || count_own(standing, by) > 1
}
