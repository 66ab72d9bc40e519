//! Items that stand still.
ghost use Rattle.std.specs.Prelude.{◌≡◌, ◌<◌, ◌≤◌, ◌+◌, ◌-◌, ◌++◌, ◌^◌, [], length, None, IfOk, IfErr, OnOk, OnErr, Some, insert, remove, replicate, slice_get, slice_set};
ghost use Rattle.std.specs.List.Sorted.{IsSearchInRange};
ghost use Rattle.wf_lists.specs.KeyOrder.{IsInKeyOrder, IsKeyPlace, IsKeyGap};

use crate::cells::Cells;
use std::alloc::{AllocError, Global};
use std::cmp::Ordering;
use std::marker::Model;
use wf_lists::Keyed;

/// Items, each in a cell of its own, so that an edit moves cells and no item; seen as their list, and for how many more there is room.
#[derive(Drop)]
pub(crate) struct Still<T> {
    // The cells of the items, in order, and the empty ones behind them.
    cells: Cells<T>,
    count: usize,
    // The place of the last edit: a search begins there, since what is asked for next mostly stands beside it.
    last: usize,
}

impl<T> Model for Still<T> {
    ghost use Rattle.std.specs.Prelude.{List, ℕ, ◌≡◌, ◌-◌, length};
    ghost use Rattle.wf_room.specs.Cells.{held, laid};

    ghost Value = { List T × ℕ };

    ghost view = { λ a. (held a.cells, length a.cells - a.count) };

    ghost invariant = { λ a. (a.cells ≡ laid (held a.cells) (length a.cells - a.count)) × (a.count ≡ length (held a.cells)) };
}

impl<T> Still<T> {
    /// No items, and no memory taken yet.
    pub(crate) fn new(alloc: Global) -> Self
        ensures { result.0 ≡ [] }
    {
        Still {
            cells: Cells::new(alloc),
            count: 0,
            last: 0,
        }
    }

    /// Makes room for so many more items.
    pub(crate) fn make_room(&mut self, more: usize) -> Result<(), AllocError>
    where
        T: Drop,
        ensures items { self.new.0 ≡ self.old.0 }
        ensures room { OnOk result (more ≤ self.new.1) }
        ensures kept { self.old.1 ≤ self.new.1 }
    {
        add_cells(&mut self.cells, self.count, more)
    }

    /// How many items there are.
    pub(crate) fn len(&self) -> u64
        ensures count { result ≡ length self.now.0 }
        ensures in_range { result < 2 ^ 63 }
    {
        // Their number is in range, and there are no fewer.
        let _cells = self.cells.len();
        self.count as u64
    }

    /// The item at a place.
    pub(crate) fn at(&self, place: usize) -> &T
        requires { place < length self.now.0 }
        ensures { slice_get self.now.0 place ≡ Some result.now }
    {
        self.cells.cell(place).item()
    }

    /// Puts an item before the one at a place.
    pub(crate) fn insert(&mut self, place: usize, item: T)
    where
        T: Drop,
        requires place { place ≤ length self.old.0 }
        requires room { 0 < self.old.1 }
        ensures items { self.new.0 ≡ insert self.old.0 place item }
        ensures room { self.old.1 ≡ self.new.1 + 1 }
    {
        self.cells.fill(self.count, item);
        self.cells.shift(self.count, place);
        let _cells = self.cells.len();
        self.count += 1;
        self.last = place;
    }

    /// Puts an item in the place of another, and gives that one back.
    pub(crate) fn replace(&mut self, place: usize, item: T) -> T
        requires { place < length self.old.0 }
        ensures before { slice_get self.old.0 place ≡ Some result }
        ensures items { self.new.0 ≡ slice_set self.old.0 place item }
        ensures room { self.new.1 ≡ self.old.1 }
    {
        self.last = place;
        match self.cells.replace(place, Some(item)) {
            Some(before) => before,
            None => unreachable!(),
        }
    }

    /// Takes an item out, and keeps its cell for another.
    pub(crate) fn remove(&mut self, place: usize) -> T
        requires { place < length self.old.0 }
        ensures item { slice_get self.old.0 place ≡ Some result }
        ensures rest { self.new.0 ≡ remove self.old.0 place }
        ensures room { self.new.1 ≡ self.old.1 + 1 }
    {
        // What is taken out is mostly asked for next: it would go behind the item before.
        self.last = place.saturating_sub(1);
        let item = self.cells.replace(place, None);
        self.count -= 1;
        self.cells.shift(place, self.count);
        match item {
            Some(item) => item,
            None => unreachable!(),
        }
    }

    /// Takes all items out, in order, and keeps their cells for others.
    pub(crate) fn take_all(&mut self, alloc: Global) -> Result<Vec<T>, AllocError>
    where
        T: Drop,
        ensures items { IfOk result (λ items. items.items ≡ self.old.0) }
        ensures none { OnOk result (self.new.0 ≡ []) }
        ensures err { OnErr result (self.new.0 ≡ self.old.0) }
    {
        let mut items = Vec::with_capacity(alloc, self.count)?;
        // From the last one on, since then no cell moves.
        while self.count > 0 {
            items.push_reserved(self.remove(self.count - 1));
        }
        items.reverse();
        Ok(items)
    }
}

impl<T: Keyed> Still<T> {
    /// The place of the key among the items, or the place where an item of it would go.
    pub(crate) fn place_of(&self, key: &T::Key) -> Result<usize, usize>
        requires { IsInKeyOrder T.Key.cmp T.key_of self.now.0 }
        ensures in_range { IsSearchInRange result (length self.now.0) }
        ensures place { IfOk result (IsKeyPlace T.Key.cmp T.key_of key.now self.now.0) }
        ensures gap { IfErr result (IsKeyGap T.Key.cmp T.key_of key.now self.now.0) }
    {
        let mut low = 0;
        let mut high = self.count;
        let mut looks: u8 = 0;
        while low < high {
            let place = next_look(looks, self.last, low, high);
            match self.at(place).key().cmp(key) {
                Ordering::Less => low = place + 1,
                Ordering::Greater => high = place,
                Ordering::Equal => return Ok(place),
            }
            looks = looks.saturating_add(1);
        }
        Err(low)
    }
}

// Where a search looks next that is known to end between two places: first at the place of the last edit, then right beside it, then a few
// places further, and then in the middle.
fn next_look(looks: u8, last: usize, low: usize, high: usize) -> usize
    requires { low < high }
    ensures least { low ≤ result }
    ensures most { result < high }
{
    let is_behind = last < low;
    let place = match (looks, is_behind) {
        (0, _) => last,
        (1, true) => low,
        (1, false) => high - 1,
        (2, true) => low.saturating_add(7),
        (2, false) => high.saturating_sub(8),
        _ => low + (high - low) / 2,
    };
    place.max(low).min(high - 1)
}

// Adds empty cells until there are so many behind the full ones.
fn add_cells<T: Drop>(cells: &mut Cells<T>, full: usize, wanted: usize) -> Result<(), AllocError>
    requires { full ≤ length cells.old }
    ensures cells { cells.new ≡ cells.old ++ replicate (length cells.new - length cells.old) None }
    ensures more { length cells.old ≤ length cells.new }
    ensures ok { OnOk result (full + wanted ≤ length cells.new) }
{
    while cells.len() - full < wanted {
        cells.add()?;
    }
    Ok(())
}
