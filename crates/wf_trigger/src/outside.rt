//! What an expression sees that stands in no loop.
ghost use Rattle.std.specs.Prelude.{◌≡◌, IfOk, None, [], option_map};
ghost use Rattle.wf_trigger.specs.Outside.{told_outside};
ghost use Rattle.wf_val.specs.Seen.{tree};

use std::alloc::{AllocError, Global};
use wf_answers::Ticks;
use wf_eval::{Look, word_of};
use wf_val::{Fields, Name, Text, Val};

/// What `actions` gives of the actions that have ended.
pub trait Views {
    ghost use Rattle.std.specs.Prelude.{ℕ, List, Option};
    ghost use Rattle.wf_val.specs.ValueTree.{ValueTree};

    // By their names.
    ghost views: { Self → List ℕ → Option ValueTree };

    /// The view of the action of a name, if it has ended.
    fn view(&self, alloc: Global, name: &Name) -> Result<Option<Val>, AllocError>
        ensures { IfOk result (λ v. option_map tree v ≡ views self.now name.now) };
}

/// No action has ended.
#[derive(Drop)]
pub(crate) struct NoViews;

impl Views for NoViews {
    ghost views = { λ s name. None };

    fn view(&self, _alloc: Global, _name: &Name) -> Result<Option<Val>, AllocError> {
        Ok(None)
    }
}

/// What an expression sees that stands in no loop, where there are no variables: the parameters and the trigger, the views of actions,
/// the moment and the run's name, and words of a seed and a place.
#[derive(Drop)]
pub struct Outside<'a, V: Views> {
    pub parameters: &'a Fields,
    pub trigger: &'a Val,
    pub views: V,
    pub moment: Ticks,
    pub run: &'a Text,
    pub seed: &'a Text,
    pub place: &'a Text,
    /// How many words were drawn.
    pub drawn: u64,
}

impl<'a, V: Views> Look for Outside<'a, V> {
    ghost told = { λ s. told_outside (record {
      parameters = s.parameters.now;
      trigger = tree s.trigger.now;
      views = V.views s.views;
      moment = s.moment;
      run = s.run.now;
      seed = s.seed.now;
      place = s.place.now;
    }) };

    ghost drawn = { λ s. s.drawn };

    ghost held = { λ s. [] };

    fn parameter(&self, name: &Text) -> Option<&Val> {
        self.parameters.get(name)
    }

    fn variable(&self, _name: &Text) -> Option<&Val> {
        None
    }

    fn trigger(&self) -> &Val {
        self.trigger
    }

    fn view(&self, alloc: Global, name: &Name) -> Result<Option<Val>, AllocError> {
        self.views.view(alloc, name)
    }

    fn result(&self, _alloc: Global, _name: &Name) -> Result<Option<Val>, AllocError> {
        Ok(None)
    }

    fn item(&self) -> Option<&Val> {
        None
    }

    fn item_of(&self, _name: &Name) -> Option<&Val> {
        None
    }

    fn index_of(&self, _name: &Name) -> Option<u64> {
        None
    }

    fn own(&self) -> Option<&Val> {
        None
    }

    fn moment(&self) -> i64 {
        self.moment.get() as i64
    }

    fn run_name(&self) -> &Text {
        self.run
    }

    fn word(&mut self) -> [u8; 32] {
        let word = word_of(self.seed, self.place, self.drawn);
        self.drawn = self.drawn.saturating_add(1);
        word
    }
}
