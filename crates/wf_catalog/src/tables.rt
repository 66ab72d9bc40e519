//! Lists in the order of keys, made of lists in any order.
ghost use Rattle.std.specs.Prelude.{◌≡◌, IfOk};
ghost use Rattle.wf_catalog.specs.Keys.{all_put};

use std::alloc::{AllocError, Global};
use wf_lists::{Keyed, Sorted};

/// The items in the order of their keys; of those that have one key the first is kept.
pub fn by_keys<T: Keyed + Drop>(alloc: Global, items: Vec<T>) -> Result<Sorted<T>, AllocError>
    ensures { IfOk result (λ table. table ≡ all_put T.Key.cmp T.key_of items.items) }
{
    let mut left = items;
    let mut table = Sorted::new(alloc);
    while let Some(item) = left.pop() {
        table.put(item)?;
    }
    Ok(table)
}
