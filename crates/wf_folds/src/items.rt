//! The distinct items of lists, put together as the lists come.
ghost use Rattle.std.specs.Prelude.{◌≡◌, IfOk};
ghost use Rattle.wf_val.specs.Seen.{tree};
ghost use Rattle.wf_folds.specs.Items.{no_items, one_more, items_more};
ghost use Rattle.wf_folds.specs.UnitedSeen.{items_seen};

use std::alloc::{AllocError, Global};
use std::collections::BTreeSet;
use wf_functions::Collected;
use wf_val::{Val, Vals};

/// The distinct items so far in order of first occurrence, as long as they may fit, and all of them in the order of values.
#[derive(Drop)]
pub(crate) struct Items {
    pub(crate) distinct: Collected,
    pub(crate) there: BTreeSet<Val>,
}

impl Items {
    pub(crate) fn new(alloc: Global) -> Items
        ensures { items_seen result ≡ no_items }
    {
        Items {
            distinct: Collected::new(alloc),
            there: BTreeSet::new(alloc),
        }
    }

    /// With the items of a list more.
    pub(crate) fn with_all(self, alloc: Global, list: &Vals) -> Result<Items, AllocError>
        ensures { IfOk result (λ items. items_seen items ≡ items_more list.now (items_seen self)) }
    {
        let mut items = self;
        for item in list.as_slice() {
            items = items.with(alloc, item)?;
        }
        Ok(items)
    }

    fn with(self, alloc: Global, item: &Val) -> Result<Items, AllocError>
        ensures { IfOk result (λ items. items_seen items ≡ one_more (items_seen self) (tree item.now)) }
    {
        let Items {
            mut distinct,
            mut there,
        } = self;
        let is_new = there.insert(item.copy(alloc)?)?;
        if !is_new {
            return Ok(Items { distinct, there });
        }
        distinct.push(item.copy(alloc)?)?;
        Ok(Items { distinct, there })
    }
}
