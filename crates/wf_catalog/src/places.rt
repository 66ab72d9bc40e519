//! Where each action of a definition stands.
ghost use Rattle.std.specs.List.{find};
ghost use Rattle.std.specs.Prelude.{◌≡◌, ◌∷◌, ◌++◌, [], ℕ, List, IfOk, map, option_map};
ghost use Rattle.wf_def.specs.ActionSeen.{action_tree};
ghost use Rattle.wf_def.specs.AllActions.{numbered};
ghost use Rattle.wf_meant.specs.Loops.{loops_of};
ghost use Rattle.wf_meant.specs.Points.{action_named, graph_of, has_action_name};
ghost use Rattle.wf_known_laws.specs.ReadSeen.{def_tree};
ghost use Rattle.wf_catalog.specs.PlacesSeen.{entry_at, entry_of, entry_tree, named_in, named_tree, number_in};
ghost use Rattle.wf_catalog.specs.Variables.{variable_number, written};
ghost use Rattle.wf_catalog.specs.Walk.{is_at};
ghost use Rattle.wf_catalog.specs.WalkSeen.{walked};

use crate::actions::kind_of;
use crate::named::Named;
use crate::tables::by_keys;
use crate::variables::{Variable, number_in, numbers_of, variables_of};
use crate::walk::{Placed, all_placed};
use std::alloc::{AllocError, Global};
use std::marker::Model;
use wf_def::Action;
use wf_known_laws::{Def, numbers_stand_once};
use wf_lists::{Keyed, Sorted};
use wf_val::{Name, Text};

/// An action by its number, with the loops round it, and the numbers of the variables that it writes.
#[derive(Drop)]
pub(crate) struct Entry<'a> {
    pub(crate) placed: Placed<'a>,
    pub(crate) written: Vec<u32>,
}

impl<'a> Keyed for Entry<'a> {
    type Key = u32;

    ghost use Rattle.wf_def.specs.declared.graph.Action.{out-Action};

    ghost key_of = { λ e. (out-Action e.placed.action.now).number };

    fn key(&self) -> &u32 {
        &self.placed.action.number
    }
}

/// The actions of a definition, by their numbers and by their names, and its variables. It is seen as the definition.
#[derive(Drop)]
pub struct Places<'a> {
    def: &'a Def,
    by_number: Sorted<Entry<'a>>,
    by_name: Sorted<Named<'a>>,
    variables: Sorted<Variable<'a>>,
}

impl<'a> Model for Places<'a> {
    ghost use Rattle.std.specs.Coded.{codes};
    ghost use Rattle.wf_known_laws.specs.Def as read;
    ghost use Rattle.wf_known_laws.specs.ReadingDef.{Def};
    ghost use Rattle.wf_known_laws.specs.ReadSeen.{def_tree};
    ghost use Rattle.wf_catalog.specs.PlacesSeen.{ArePlaces};

    ghost Value = { Def };

    ghost coded = { Prim.hlevel (codes, read.the_row.coded) };

    ghost view = { λ p. p.def.now };

    ghost invariant = { λ p. ArePlaces (def_tree p.def.now) p.by_number p.by_name p.variables };
}

// The actions, each with its name.
fn all_named<'a>(alloc: Global, actions: &[Placed<'a>]) -> Result<Vec<Named<'a>>, AllocError>
    ensures { IfOk result (λ all. map named_tree all.items ≡ map (λ p. action_tree p.action.now) actions.now) }
{
    let mut all = Vec::with_capacity(alloc, actions.len())?;
    for placed in actions {
        all.push(Named {
            action: placed.action,
        })?;
    }
    Ok(all)
}

fn with_entry<'a>(
    alloc: Global,
    variables: &Sorted<Variable<'a>>,
    placed: &Placed<'a>,
    found: Vec<Entry<'a>>,
) -> Result<Vec<Entry<'a>>, AllocError>
    ensures { IfOk result (λ all. map entry_tree all.items
        ≡ map entry_tree found.entry.items ++ entry_of (number_in variables.now) (walked placed.now) ∷ []) }
{
    let mut all = found;
    let written = numbers_of(alloc, variables, kind_of(placed.action))?;
    let loops = placed.loops.to_vec(alloc)?;
    all.push(Entry {
        placed: Placed {
            action: placed.action,
            loops,
        },
        written,
    })?;
    Ok(all)
}

// The actions, each with the variables that it writes.
fn entries<'a>(
    alloc: Global,
    variables: &Sorted<Variable<'a>>,
    actions: &[Placed<'a>],
) -> Result<Vec<Entry<'a>>, AllocError>
    ensures { IfOk result (λ all. map entry_tree all.items ≡ map (entry_of (number_in variables.now)) (map walked actions.now)) }
{
    let mut all = Vec::with_capacity(alloc, actions.len())?;
    for placed in actions {
        all = with_entry(alloc, variables, placed, all)?;
    }
    Ok(all)
}

fn by_name<'a>(alloc: Global, actions: &[Placed<'a>]) -> Result<Sorted<Named<'a>>, AllocError>
    ensures { IfOk result (λ ns. (k : List ℕ)
        → named_in ns k ≡ find (has_action_name k) (map (λ p. action_tree p.action.now) actions.now)) }
{
    let table = by_keys(alloc, all_named(alloc, actions)?)?;
    Ok(table)
}

fn by_number<'a>(
    alloc: Global,
    variables: &Sorted<Variable<'a>>,
    actions: &[Placed<'a>],
) -> Result<Sorted<Entry<'a>>, AllocError>
    ensures { IfOk result (λ es. (n : ℕ)
        → entry_at es n ≡ option_map (entry_of (number_in variables.now)) (find (is_at n) (map walked actions.now))) }
{
    let table = by_keys(alloc, entries(alloc, variables, actions)?)?;
    Ok(table)
}

impl<'a> Places<'a> {
    /// The places of a definition. It walks its graphs once.
    pub fn of(alloc: Global, def: &'a Def) -> Result<Places<'a>, AllocError>
        ensures { IfOk result (λ p. p ≡ def.now) }
    {
        numbers_stand_once();
        def.always_read();
        let actions = all_placed(alloc, &def.top)?;
        let variables = variables_of(alloc, &actions)?;
        let by_name = by_name(alloc, &actions)?;
        let by_number = by_number(alloc, &variables, &actions)?;
        Ok(Places {
            def,
            by_number,
            by_name,
            variables,
        })
    }

    /// The action of a number.
    pub fn action(&self, number: u32) -> Option<&Action>
        ensures { option_map (λ a. action_tree a.now) result ≡ numbered number (def_tree self.now).top }
    {
        match self.by_number.get(&number) {
            Some(entry) => Some(entry.placed.action),
            None => None,
        }
    }

    /// The action of a name.
    pub fn named(&self, name: &Name) -> Option<&Action>
        ensures { option_map (λ a. action_tree a.now) result ≡ action_named (def_tree self.now) name.now }
    {
        match self.by_name.get(name) {
            Some(found) => Some(found.action),
            None => None,
        }
    }

    /// The numbers of the loops round an action, outermost first.
    pub fn loops(&self, number: u32) -> &[u32]
        ensures { result.now ≡ loops_of (graph_of (def_tree self.now)) number }
    {
        match self.by_number.get(&number) {
            Some(entry) => &entry.placed.loops,
            None => &[],
        }
    }

    /// The number of a variable.
    pub fn variable(&self, name: &Text) -> Option<u32>
        ensures { result ≡ variable_number (def_tree self.now) name.now }
    {
        number_in(&self.variables, name)
    }

    /// The numbers of the variables that an action writes.
    pub fn written(&self, number: u32) -> &[u32]
        ensures { result.now ≡ written (def_tree self.now) number }
    {
        match self.by_number.get(&number) {
            Some(entry) => &entry.written,
            None => &[],
        }
    }
}
