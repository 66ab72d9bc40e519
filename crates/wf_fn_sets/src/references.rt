//! Values that are looked at where they stand, so that only those that stay are copied.
ghost use Rattle.std.specs.Prelude.{◌≡◌, ◌++◌, IfOk, OnOk, map};
ghost use Rattle.std.specs.List.{flat_map};
ghost use Rattle.wf_fn_sets.specs.Keys.{key_tree};

use crate::key::Key;
use std::alloc::{AllocError, Global};
use wf_val::Vals;

/// The items of several lists in turn.
pub(crate) fn items_of<'a>(alloc: Global, lists: &[&'a Vals]) -> Result<Vec<Key<'a>>, AllocError>
    ensures { IfOk result (λ v. map key_tree v.items ≡ flat_map (λ l. l.now) lists.now) }
{
    let mut items = Vec::new(alloc);
    for list in lists {
        push_items(&mut items, list)?;
    }
    Ok(items)
}

/// The items of a list behind others.
pub(crate) fn push_items<'a>(items: &mut Vec<Key<'a>>, list: &'a Vals) -> Result<(), AllocError>
    ensures { OnOk result (map key_tree items.new.items ≡ map key_tree items.old.items ++ list.now) }
{
    for item in list.as_slice() {
        items.push(Key::of(item))?;
    }
    Ok(())
}

/// A copy of each value.
pub(crate) fn copies_of(alloc: Global, values: &[Key<'_>]) -> Result<Vals, AllocError>
    ensures { IfOk result (λ v. v ≡ map key_tree values.now) }
{
    let mut copies = Vals::new(alloc);
    for value in values {
        copies.push(value.copy(alloc)?)?;
    }
    Ok(copies)
}
