//! Tables by the numbers of actions, as they are filled.
ghost use Rattle.std.specs.Prelude.{◌≡◌, ◌<◌, ◌∷◌, ◌++◌, [], OnOk, length, map, slice_get};
ghost use Rattle.wf_plan.specs.PlanSeen.{branches_seen, lists_of, shape_tree};
ghost use Rattle.wf_plan.specs.Walk.{add_at, added, all_own, held, is_free, numbers_in, take_place};

use crate::shape::{Branch, Shape};
use std::alloc::AllocError;
use wf_def::Afters;

fn push_to(list: &mut Vec<u32>, number: u32) -> Result<(), AllocError>
    ensures { OnOk result (list.new.items ≡ list.old.items ++ number ∷ []) }
{
    list.push(number)?;
    Ok(())
}

// Puts a number behind the list at a place.
fn add_in(table: &mut Vec<Vec<u32>>, place: usize, number: u32) -> Result<(), AllocError>
    requires { place < length table.old.items }
    ensures { OnOk result (lists_of table.new.items ≡ add_at (lists_of table.old.items) place number) }
{
    push_to(&mut table[place], number)?;
    Ok(())
}

fn add(table: &mut Vec<Vec<u32>>, place: usize, number: u32) -> Result<(), AllocError>
    ensures { OnOk result (lists_of table.new.items ≡ add_at (lists_of table.old.items) place number) }
{
    if place < table.len() {
        add_in(table, place, number)
    } else {
        Ok(())
    }
}

// Puts the number of an action behind the lists of those that it waits for.
pub fn add_entries(table: &mut Vec<Vec<u32>>, after: &Afters, number: u32) -> Result<(), AllocError>
    ensures { OnOk result (lists_of table.new.items ≡ added (lists_of table.old.items) (map (λ e. e.number) after.now) number) }
{
    for entry in after.as_slice() {
        add(table, entry.number as usize, number)?;
    }
    Ok(())
}

fn is_free<T>(table: &[Option<T>], place: usize) -> bool
    ensures { result ≡ is_free (slice_get table.now place) }
{
    match table.get(place) {
        Some(None) => true,
        _ => false,
    }
}

// Puts an item at a place, where that is free.
#[tactic(auto, using(crate::proofs::TableLemmas::free_within, crate::proofs::TableLemmas::place_taken, crate::proofs::TableLemmas::place_kept))]
pub fn take_place<T: Drop>(table: &mut Vec<Option<T>>, place: usize, item: T)
    ensures { table.new.items ≡ take_place table.old.items place item }
{
    if is_free(table.as_slice(), place) {
        table[place] = Some(item);
    }
}

// Puts the number of a container at each action of one of its graphs.
fn hold(table: &mut Vec<Option<u32>>, numbers: &[u32], holder: u32)
    ensures { table.new.items ≡ held table.old.items numbers.now holder }
{
    for number in numbers {
        take_place(table, *number as usize, holder);
    }
}

fn hold_branches(table: &mut Vec<Option<u32>>, branches: &[Branch], holder: u32)
    ensures { table.new.items ≡ held table.old.items (all_own (branches_seen branches.now)) holder }
{
    for branch in branches {
        hold(table, &branch.own, holder);
    }
}

// And at all actions of its graphs.
pub fn hold_all(table: &mut Vec<Option<u32>>, shape: &Shape, holder: u32)
    ensures { table.new.items ≡ held table.old.items (numbers_in (shape_tree shape.now)) holder }
{
    match shape {
        Shape::Leaf => (),
        Shape::Scope(graph) => hold(table, graph, holder),
        Shape::Choice(branches) => hold_branches(table, branches, holder),
        Shape::Foreach {
            repetitions: _,
            graph,
        } => hold(table, graph, holder),
        Shape::Until { count: _, graph } => hold(table, graph, holder),
    }
}
