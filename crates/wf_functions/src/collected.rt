//! A list that is put together and measured.
ghost use Rattle.std.specs.Prelude.{◌≡◌, OnOk};
ghost use Rattle.wf_functions.specs.Collected.{nothing, with_item, collected_answer};
ghost use Rattle.wf_val.specs.Arguments.{seen};
ghost use Rattle.wf_val.specs.Seen.{tree};

use std::alloc::{AllocError, Global};
use std::marker::Model;
use wf_val::{EvalFault, Size, Val, Vals, within};

// How much the items of a list may weigh that fits.
const LIMIT: u64 = (1 << 20) - 1;

/// What is kept of a list that is put together, and how large all of it is. Once it weighs too much no more is kept, but
/// its size is counted on.
#[derive(Drop)]
pub struct Collected {
    kept: Vals,
    size: Size,
}

impl Model for Collected {
    ghost use Rattle.std.specs.Coded.{coded_list, coded×, coded_ℕ};
    ghost use Rattle.wf_val.specs.ValueCode.{coded_value};
    ghost use Rattle.wf_functions.specs.Collected as definition;

    ghost Value = { definition.Collected };

    ghost coded = { coded× (coded_list coded_value) (coded× coded_ℕ coded_ℕ) };

    ghost view = { λ c. (c.kept, (c.size.depth, c.size.weight)) };
}

impl Collected {
    /// The list without items.
    pub fn new(alloc: Global) -> Self
        ensures { result ≡ nothing }
    {
        Collected {
            kept: Vals::new(alloc),
            size: Size {
                depth: 0,
                weight: 0,
            },
        }
    }

    /// Puts an item behind those that are there.
    pub fn push(&mut self, item: Val) -> Result<(), AllocError>
        ensures { OnOk result (self.new ≡ with_item (tree item) self.old) }
    {
        let size = item.size();
        self.size = Size {
            depth: size.depth.max(self.size.depth),
            weight: size.weight.saturating_add(self.size.weight),
        };
        if self.size.weight <= LIMIT {
            self.kept.push(item)?;
        }
        Ok(())
    }

    /// The whole, where it fits.
    pub fn answer(self) -> Result<Val, EvalFault>
        ensures { seen result ≡ collected_answer self }
    {
        let size = self.size.inside();
        within(size.depth, size.weight)?;
        Ok(Val::List(self.kept))
    }
}
