//! The numbers of actions, by their names.
ghost use Rattle.std.specs.Prelude.{◌≡◌, ℕ, List, IfOk, map};
ghost use Rattle.wf_reading.specs.Numbers.{number_among};

use std::alloc::AllocError;
use std::marker::Model;
use wf_val::{Name, Text};

/// The names of all actions in byte order, in which a name is found by as many comparisons as their count has binary digits.
#[derive(Drop)]
pub(crate) struct Numbers<'a> {
    sorted: Vec<&'a Name>,
}

impl<'a> Model for Numbers<'a> {
    ghost use Rattle.std.specs.Prelude.{ℕ, List, map};
    ghost use Rattle.std.specs.List.Sorted.{IsSorted};
    ghost use Rattle.wf_val.specs.NameOrder.{bytes_cmp};

    ghost Value = { List (List ℕ) };

    ghost view = { λ a. map (λ n. n.now) a.sorted.items };

    ghost invariant = { λ a. IsSorted (λ one other. bytes_cmp one.now other.now) a.sorted.items };
}

impl<'a> Numbers<'a> {
    /// Of these names, which may stand in any order.
    pub(crate) fn of(names: Vec<&'a Name>) -> Result<Numbers<'a>, AllocError>
        ensures { IfOk result (λ numbers. (k : List ℕ) → number_among numbers k ≡ number_among (map (λ n. n.now) names.entry.items) k) }
    {
        let mut sorted = names;
        sorted.sort()?;
        Ok(Numbers { sorted })
    }

    /// The number of an action.
    pub(crate) fn of_name(&self, name: &Name) -> u32
        ensures { result ≡ number_among self.now name.now }
    {
        let below = self
            .sorted
            .partition_point(|other| other.order(name).is_lt());
        (below as u64).min(u32::MAX as u64) as u32
    }
}
