//! Actions by their names.
ghost use Rattle.std.specs.List.{find};
ghost use Rattle.std.specs.Prelude.{◌≡◌, ℕ, IfOk, List, map};
ghost use Rattle.wf_def.specs.ActionSeen.{action_tree};
ghost use Rattle.wf_fits.specs.NamedSeen.{named_in, named_tree};
ghost use Rattle.wf_catalog.specs.Points.{has_action_name};

use crate::walk::Placed;
use std::alloc::{AllocError, Global};
use wf_catalog::{Named, by_keys};
use wf_lists::Sorted;

fn all_named<'a>(alloc: Global, actions: &[Placed<'a>]) -> Result<Vec<Named<'a>>, AllocError>
    ensures { IfOk result (λ all. map named_tree all.items ≡ map (λ p. action_tree p.action.now) actions.now) }
{
    let mut all = Vec::with_capacity(alloc, actions.len())?;
    for placed in actions {
        all.push(Named {
            action: placed.action,
        })?;
    }
    Ok(all)
}

/// The actions in the order of their names.
pub(crate) fn by_name<'a>(
    alloc: Global,
    actions: &[Placed<'a>],
) -> Result<Sorted<Named<'a>>, AllocError>
    ensures { IfOk result (λ ns. (k : List ℕ)
        → named_in ns k ≡ find (has_action_name k) (map (λ p. action_tree p.action.now) actions.now)) }
{
    let table = by_keys(alloc, all_named(alloc, actions)?)?;
    Ok(table)
}
