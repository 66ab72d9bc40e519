//! What an expression sees.
ghost use Rattle.std.specs.Prelude.{◌≡◌, ◌∷◌, IfOk, option_map, option_copied, slice_get};
ghost use Rattle.wf_val.specs.Seen.{tree};
ghost use Rattle.wf_functions.specs.Words.{word_of};
ghost use Rattle.wf_look.specs.Told.{Told, over, raised};

use std::alloc::{AllocError, Global};
use wf_val::{Name, Text, Val};

/// What an expression may ask for. Contracts see a look as what it tells and the number of words already drawn from it.
/// Each None says that the look has no such thing.
pub trait Look {
    ghost use Rattle.std.specs.Prelude.{ℕ, List};
    ghost use Rattle.std.specs.Borrow.{GName};

    // All that it tells but its words.
    ghost told: { Self → Told };

    // How many words were drawn.
    ghost drawn: { Self → ℕ };

    // What it borrows.
    ghost held: { Self → List GName };

    /// The value of a parameter of the workflow.
    fn parameter(&self, name: &Text) -> Option<&Val>
        ensures { option_map (λ v. tree v.now) result ≡ (told self.now).parameter name.now };

    /// The value of a variable.
    fn variable(&self, name: &Text) -> Option<&Val>
        ensures { option_map (λ v. tree v.now) result ≡ (told self.now).variable name.now };

    /// The trigger's value: an object with its name and its outputs.
    fn trigger(&self) -> &Val
        ensures { tree result.now ≡ (told self.now).trigger };

    /// The view of an action, which `actions` gives: one row's, or a list of one for each iteration of the loop that the
    /// expression stands behind.
    fn view(&self, alloc: Global, name: &Name) -> Result<Option<Val>, AllocError>
        ensures { IfOk result (λ v. option_map tree v ≡ (told self.now).view name.now) };

    /// What `result` gives of a container: the views of the actions in it.
    fn result(&self, alloc: Global, name: &Name) -> Result<Option<Val>, AllocError>
        ensures { IfOk result (λ v. option_map tree v ≡ (told self.now).result name.now) };

    /// The item of the nearest loop round the expression.
    fn item(&self) -> Option<&Val>
        ensures { option_map (λ v. tree v.now) result ≡ slice_get (told self.now).items 0 };

    /// The item of a loop round the expression, by the loop's name.
    fn item_of(&self, name: &Name) -> Option<&Val>
        ensures { option_map (λ v. tree v.now) result ≡ (told self.now).item_of name.now };

    /// The index of the iteration of a loop round the expression, by the loop's name; from 0.
    fn index_of(&self, name: &Name) -> Option<u64>
        ensures { result ≡ (told self.now).index_of name.now };

    /// The view of the row that is ending.
    fn own(&self) -> Option<&Val>
        ensures { option_map (λ v. tree v.now) result ≡ (told self.now).own };

    /// The moment of the run, in ticks of 100 ns since 0001-01-01T00:00:00.
    fn moment(&self) -> i64
        ensures { result ≡ (told self.now).moment };

    /// The run's name.
    fn run_name(&self) -> &Text
        ensures { result.now ≡ (told self.now).run_name };

    /// The next word; the number drawn rises by one, and stays at the greatest u64.
    fn word(&mut self) -> [u8; 32]
        ensures word { result ≡ word_of (told self.old).seed (told self.old).place (drawn self.old) }
        ensures same { told self.new ≡ told self.old }
        ensures held { held self.new ≡ held self.old }
        ensures raised { drawn self.new ≡ raised (drawn self.old) };
}

/// A look with another item, above those of the look beneath, from which words are drawn.
#[derive(Drop)]
pub struct Over<'a, L: Look> {
    look: &'a mut L,
    item: &'a Val,
}

impl<'a, L: Look> Over<'a, L> {
    /// The look with the item.
    pub fn new(look: &'a mut L, item: &'a Val) -> Over<'a, L>
        ensures same_reference { result.look.ghost_name ≡ look.entry.ghost_name }
        ensures look { result.look.now ≡ look.old }
        ensures item { result.item.now ≡ item.now }
    {
        Over { look, item }
    }
}

impl<'a, L: Look> Look for Over<'a, L> {
    ghost told = { λ s. over (tree s.item.now) (L.told s.look.now) };

    ghost drawn = { λ s. L.drawn s.look.now };

    ghost held = { λ s. s.look.ghost_name ∷ L.held s.look.now };

    fn parameter(&self, name: &Text) -> Option<&Val> {
        self.look.parameter(name)
    }

    fn variable(&self, name: &Text) -> Option<&Val> {
        self.look.variable(name)
    }

    fn trigger(&self) -> &Val {
        self.look.trigger()
    }

    fn view(&self, alloc: Global, name: &Name) -> Result<Option<Val>, AllocError> {
        self.look.view(alloc, name)
    }

    fn result(&self, alloc: Global, name: &Name) -> Result<Option<Val>, AllocError> {
        self.look.result(alloc, name)
    }

    fn item(&self) -> Option<&Val> {
        Some(self.item)
    }

    fn item_of(&self, name: &Name) -> Option<&Val> {
        self.look.item_of(name)
    }

    fn index_of(&self, name: &Name) -> Option<u64> {
        self.look.index_of(name)
    }

    fn own(&self) -> Option<&Val> {
        self.look.own()
    }

    fn moment(&self) -> i64 {
        self.look.moment()
    }

    fn run_name(&self) -> &Text {
        self.look.run_name()
    }

    fn word(&mut self) -> [u8; 32] {
        self.look.word()
    }
}
