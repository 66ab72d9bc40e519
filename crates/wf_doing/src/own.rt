//! What tracked properties see.
ghost use Rattle.std.specs.Prelude.{[]};
ghost use Rattle.wf_closing.specs.Tracked.{with_own};
ghost use Rattle.wf_sight.specs.SightSeen.{sight_drawn, sight_told};
ghost use Rattle.wf_val.specs.Seen.{tree};

use std::alloc::{AllocError, Global};
use wf_closing::Look;
use wf_sight::Sight;
use wf_val::{Name, Text, Val};

/// What an action sees as it ends, and beside it the view of the row with which it ends.
#[derive(Drop)]
pub(crate) struct Own<'a> {
    pub(crate) sight: Sight<'a>,
    pub(crate) view: Val,
}

impl<'a> Look for Own<'a> {
    ghost told = { λ s. with_own (tree s.view) (sight_told s.sight) };

    ghost drawn = { λ s. sight_drawn s.sight };

    ghost held = { λ s. [] };

    fn parameter(&self, name: &Text) -> Option<&Val> {
        self.sight.parameter(name)
    }

    fn variable(&self, name: &Text) -> Option<&Val> {
        self.sight.variable(name)
    }

    fn trigger(&self) -> &Val {
        self.sight.trigger()
    }

    fn view(&self, alloc: Global, name: &Name) -> Result<Option<Val>, AllocError> {
        self.sight.view(alloc, name)
    }

    fn result(&self, alloc: Global, name: &Name) -> Result<Option<Val>, AllocError> {
        self.sight.result(alloc, name)
    }

    fn item(&self) -> Option<&Val> {
        self.sight.item()
    }

    fn item_of(&self, name: &Name) -> Option<&Val> {
        self.sight.item_of(name)
    }

    fn index_of(&self, name: &Name) -> Option<u64> {
        self.sight.index_of(name)
    }

    fn own(&self) -> Option<&Val> {
        Some(&self.view)
    }

    fn moment(&self) -> i64 {
        self.sight.moment()
    }

    fn run_name(&self) -> &Text {
        self.sight.run_name()
    }

    fn word(&mut self) -> [u8; 32] {
        self.sight.word()
    }
}
