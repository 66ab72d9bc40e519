//! The way to each action of a definition.
ghost use Rattle.std.specs.List.{find};
ghost use Rattle.std.specs.Prelude.{◌≡◌, ℕ, IfOk, Some, map, option_map};
ghost use Rattle.wf_def.specs.ActionSeen.{action_tree};
ghost use Rattle.wf_def.specs.AllActions.{numbered};
ghost use Rattle.wf_fits.specs.Sorts.{sort_at, sort_changed};
ghost use Rattle.wf_fits.specs.Walk.{is_at};
ghost use Rattle.wf_fits.specs.WalkSeen.{step_tree, walked};
ghost use Rattle.wf_fits.specs.WaysSeen.{placed_at};
ghost use Rattle.wf_catalog.specs.Points.{action_named, graph_of};
ghost use Rattle.wf_catalog.specs.ReadSeen.{def_tree};
ghost use Rattle.wf_ways.specs.Way.{way};

use crate::named::by_name;
use crate::sorts::{Typed, changes, sort_in, sorts_of};
use crate::step::Step;
use crate::walk::{Placed, all_placed};
use std::alloc::{AllocError, Global};
use std::marker::Model;
use wf_catalog::{Def, Named, by_keys, kind_of};
use wf_def::{Action, Sort};
use wf_lists::{Keyed, Sorted};
use wf_val::Name;

impl<'a> Keyed for Placed<'a> {
    type Key = u32;

    ghost use Rattle.wf_def.specs.declared.graph.Action.{out-Action};

    ghost key_of = { λ p. (out-Action p.action.now).number };

    fn key(&self) -> &u32 {
        &self.action.number
    }
}

/// The actions of a definition, by their numbers and by their names, each with the way to it. It is seen as the definition.
#[derive(Drop)]
pub struct Ways<'a> {
    def: &'a Def,
    by_number: Sorted<Placed<'a>>,
    by_name: Sorted<Named<'a>>,
    sorts: Sorted<Typed<'a>>,
}

impl<'a> Model for Ways<'a> {
    ghost use Rattle.std.specs.Coded.{codes};
    ghost use Rattle.wf_catalog.specs.Def as read;
    ghost use Rattle.wf_catalog.specs.ReadingDef.{Def};
    ghost use Rattle.wf_catalog.specs.ReadSeen.{def_tree};
    ghost use Rattle.wf_fits.specs.WaysSeen.{AreWays};

    ghost Value = { Def };

    ghost coded = { Prim.hlevel (codes, read.the_row.coded) };

    ghost view = { λ w. w.def.now };

    ghost invariant = { λ w. AreWays (def_tree w.def.now) w.by_number w.by_name w.sorts };
}

fn by_number<'a>(alloc: Global, actions: Vec<Placed<'a>>) -> Result<Sorted<Placed<'a>>, AllocError>
    ensures { IfOk result (λ ps. (n : ℕ) → placed_at ps n ≡ find (is_at n) (map walked actions.entry.items)) }
{
    let table = by_keys(alloc, actions)?;
    Ok(table)
}

impl<'a> Ways<'a> {
    /// The ways of a definition. It walks its graphs once.
    pub fn of(alloc: Global, def: &'a Def) -> Result<Ways<'a>, AllocError>
        ensures { IfOk result (λ w. w ≡ def.now) }
    {
        let actions = all_placed(alloc, &def.top)?;
        let sorts = sorts_of(alloc, &actions)?;
        let by_name = by_name(alloc, &actions)?;
        let by_number = by_number(alloc, actions)?;
        Ok(Ways {
            def,
            by_number,
            by_name,
            sorts,
        })
    }

    /// The action of a number.
    pub fn action(&self, number: u32) -> Option<&Action>
        ensures { option_map (λ a. action_tree a.now) result ≡ numbered number (def_tree self.now).top }
    {
        match self.by_number.get(&number) {
            Some(placed) => Some(placed.action),
            None => None,
        }
    }

    /// The action of a name.
    pub fn named(&self, name: &Name) -> Option<&Action>
        ensures { option_map (λ a. action_tree a.now) result ≡ action_named (def_tree self.now) name.now }
    {
        match self.by_name.get(name) {
            Some(found) => Some(found.action),
            None => None,
        }
    }

    /// The containers round an action, outermost first, and how each is entered; none round a number that no action has.
    pub fn way(&self, number: u32) -> &[Step]
        ensures { map step_tree result.now ≡ way (graph_of (def_tree self.now)) number }
    {
        match self.by_number.get(&number) {
            Some(placed) => &placed.way,
            None => &[],
        }
    }

    /// The type of the variable that an action writes, where it writes one that another initialised.
    pub fn sort(&self, number: u32) -> Option<Sort>
        ensures { result ≡ sort_at (def_tree self.now) number }
    {
        match self.action(number) {
            Some(action) => self.sort_changed(action),
            None => None,
        }
    }

    fn sort_changed(&self, action: &Action) -> Option<Sort>
        ensures { result ≡ sort_changed (def_tree self.now) (Some (action_tree action.now)) }
    {
        match changes(kind_of(action)) {
            Some(name) => sort_in(&self.sorts, name),
            None => None,
        }
    }
}
