//! Where a reference leads.
ghost use Rattle.std.specs.Prelude.{◌≡◌, ◌++◌, ◌≤◌, ℕ, List, IfOk, length, option_map, take};
ghost use Rattle.wf_def.specs.ActionSeen.{action_tree, kind_tree};
ghost use Rattle.wf_catalog.specs.References.{last_of, own_loop, spots_by, spots_in, spots_of};
ghost use Rattle.wf_catalog.specs.ReadSeen.{def_tree};
ghost use Rattle.wf_views.specs.Loops.{beyond, common};
ghost use Rattle.wf_views.specs.Seen.{rows_seen, spots_seen};

use crate::rows::{indexes_then, iterations_of, row_at};
use std::alloc::{AllocError, Global};
use wf_asks::Rows;
use wf_catalog::{Places, kind_of, number_of};
use wf_def::{Action, Kind};
use wf_record::Row;
use wf_val::Indexes;

/// The instances that are meant, inside the indexes that are shared: that at these themselves; those of all iterations of a Foreach that
/// had so many; that of the last iteration of an Until that had so many.
#[derive(Clone, Copy)]
pub(crate) enum Spots {
    One,
    Every(u64),
    Last(u64),
}

/// How many loops stand in both lists.
pub(crate) fn common(round: &[u32], loops: &[u32]) -> usize
    ensures count { result ≡ common round.now loops.now }
    ensures within { result ≤ length round.now }
{
    match round.split_first() {
        None => 0,
        Some((one, inner)) => match loops.split_first() {
            None => 0,
            Some((other, others)) => {
                if *one == *other {
                    1 + common(inner, others)
                } else {
                    0
                }
            }
        },
    }
}

/// So many of the indexes, or all where there are fewer.
pub(crate) fn front(at: &[u64], count: usize) -> &[u64]
    ensures { result.now ≡ take count at.now }
{
    if count < at.len() { &at[..count] } else { at }
}

/// The indexes of the last of so many iterations inside these indexes; none where there was none.
#[tactic(auto, using(crate::proofs::ViewLemmas::last_is))]
pub(crate) fn last_of(alloc: Global, at: &[u64], count: u64) -> Result<Option<Indexes>, AllocError>
    ensures { IfOk result (λ is. is ≡ last_of at.now count) }
{
    if count == 0 {
        Ok(None)
    } else {
        Ok(Some(indexes_then(alloc, at, count - 1)?))
    }
}

/// The loops of the first list alone.
pub(crate) fn beyond<'a>(round: &'a [u32], loops: &[u32]) -> &'a [u32]
    ensures { result.now ≡ beyond round.now loops.now }
{
    &round[common(round, loops)..]
}

/// These loops, and the action itself where it is one.
pub(crate) fn with_own(alloc: Global, left: &[u32], action: &Action) -> Result<Vec<u32>, AllocError>
    ensures { IfOk result (λ all. all.items ≡ left.now ++ own_loop (action_tree action.now)) }
{
    let mut all = left.to_vec(alloc)?;
    match kind_of(action) {
        Kind::Foreach {
            list: _,
            repetitions: _,
            graph: _,
        } => {
            all.push(number_of(action))?;
            Ok(all)
        }
        Kind::Until {
            test: _,
            count: _,
            fails: _,
            graph: _,
        } => {
            all.push(number_of(action))?;
            Ok(all)
        }
        _ => Ok(all),
    }
}

fn spots_of(kind: &Kind, count: u64) -> Option<Spots>
    ensures { (at : List ℕ) → option_map (spots_seen at) result ≡ spots_of (kind_tree kind.now) at count }
{
    match kind {
        Kind::Foreach {
            list: _,
            repetitions: _,
            graph: _,
        } => Some(Spots::Every(count)),
        Kind::Until {
            test: _,
            count: _,
            fails: _,
            graph: _,
        } => Some(Spots::Last(count)),
        _ => None,
    }
}

fn spots_in(action: Option<&Action>, count: u64) -> Option<Spots>
    ensures { (at : List ℕ) → option_map (spots_seen at) result
        ≡ spots_in (option_map (λ a. action_tree a.now) action.entry) at count }
{
    match action {
        Some(action) => spots_of(kind_of(action), count),
        None => None,
    }
}

/// Where these loops are left, inside these indexes.
pub(crate) fn spots_by(
    alloc: Global,
    places: &Places<'_>,
    rows: &Rows<Row>,
    left: &[u32],
    at: &[u64],
) -> Result<Option<Spots>, AllocError>
    ensures { IfOk result (λ s. option_map (spots_seen at.now) s ≡ spots_by (def_tree places.now) at.now left.now (rows_seen rows.now.0)) }
{
    match left {
        [] => Ok(Some(Spots::One)),
        [number] => {
            let row = row_at(alloc, rows, *number, at)?;
            let action = places.action(*number);
            Ok(spots_in(action, iterations_of(action, row)))
        }
        _ => Ok(None),
    }
}
