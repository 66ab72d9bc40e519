//! Cells side by side.
ghost use Rattle.std.specs.Prelude.{◌≡◌, ◌<◌, ◌≤◌, ◌++◌, ◌∷◌, [], length, OnOk, OnErr, Some, None, insert, remove, slice_get, slice_set};

use crate::cell::Cell;
use std::alloc::{AllocError, Global};
use std::collections::VecDeque;
use std::marker::Model;

/// Cells in a ring, so that one goes in or out at either end without a move of the others; seen as their list, and for how many more there
/// is room.
#[derive(Drop)]
pub(crate) struct Chunk<T> {
    cells: VecDeque<Cell<T>>,
}

impl<T> Model for Chunk<T> {
    ghost use Rattle.std.specs.Prelude.{List, ℕ, Option, ◌≤◌, ◌-◌, length};
    ghost use Rattle.std.proofs.Common.{deque_capacity};

    ghost Value = { List (Option T) × ℕ };

    ghost view = { λ a. (a.cells.items, deque_capacity a.cells - length a.cells.items) };

    ghost invariant = { λ a. length a.cells.items ≤ deque_capacity a.cells };
}

impl<T> Chunk<T> {
    /// No cells, and no memory taken yet.
    pub(crate) fn new(alloc: Global) -> Self
        ensures { result.0 ≡ [] }
    {
        Chunk {
            cells: VecDeque::new(alloc),
        }
    }

    /// How many cells there are.
    pub(crate) fn len(&self) -> usize
        ensures { result ≡ length self.now.0 }
    {
        self.cells.len()
    }

    /// The cell at a place.
    pub(crate) fn cell(&self, place: usize) -> &Cell<T>
        requires { place < length self.now.0 }
        ensures { slice_get self.now.0 place ≡ Some result.now }
    {
        &self.cells[place]
    }

    /// Puts an item, or none, into the cell at a place, and gives back what stood there.
    pub(crate) fn replace(&mut self, place: usize, content: Option<T>) -> Option<T>
        requires { place < length self.old.0 }
        ensures before { slice_get self.old.0 place ≡ Some result }
        ensures cells { self.new.0 ≡ slice_set self.old.0 place content }
        ensures room { self.new.1 ≡ self.old.1 }
    {
        self.cells[place].replace(content)
    }

    /// Puts an item into the cell at a place; what stood there is dropped.
    pub(crate) fn fill(&mut self, place: usize, item: T)
    where
        T: Drop,
        requires { place < length self.old.0 }
        ensures cells { self.new.0 ≡ slice_set self.old.0 place (Some item) }
        ensures room { self.new.1 ≡ self.old.1 }
    {
        self.cells[place].fill(item);
    }

    /// Adds an empty cell behind the others.
    pub(crate) fn add(&mut self, alloc: Global) -> Result<(), AllocError>
    where
        T: Drop,
        ensures ok { OnOk result (self.new.0 ≡ self.old.0 ++ None ∷ []) }
        ensures err { OnErr result (self.new.0 ≡ self.old.0) }
    {
        let cell = Cell::new(alloc)?;
        self.cells.reserve(1)?;
        self.cells.push_back_reserved(cell);
        Ok(())
    }

    /// Takes the cell at a place out.
    pub(crate) fn remove(&mut self, place: usize) -> Cell<T>
        requires { place < length self.old.0 }
        ensures cell { slice_get self.old.0 place ≡ Some result }
        ensures rest { self.new.0 ≡ remove self.old.0 place }
        ensures room { 0 < self.new.1 }
    {
        match self.cells.remove(place) {
            Some(cell) => cell,
            None => unreachable!(),
        }
    }

    /// Puts a cell before the one at a place.
    pub(crate) fn insert(&mut self, place: usize, cell: Cell<T>)
        requires place { place ≤ length self.old.0 }
        requires room { 0 < self.old.1 }
        ensures { self.new.0 ≡ insert self.old.0 place cell }
    {
        match self.cells.insert(place, cell) {
            Ok(()) => (),
            Err(_) => unreachable!(),
        }
    }

    /// Takes the first cell out.
    pub(crate) fn pop_first(&mut self) -> Cell<T>
        requires { 0 < length self.old.0 }
        ensures cells { self.old.0 ≡ result ∷ self.new.0 }
        ensures room { 0 < self.new.1 }
    {
        match self.cells.pop_front() {
            Some(cell) => cell,
            None => unreachable!(),
        }
    }

    /// Takes the last cell out.
    pub(crate) fn pop_last(&mut self) -> Cell<T>
        requires { 0 < length self.old.0 }
        ensures cells { self.old.0 ≡ self.new.0 ++ result ∷ [] }
        ensures room { 0 < self.new.1 }
    {
        match self.cells.pop_back() {
            Some(cell) => cell,
            None => unreachable!(),
        }
    }

    /// Puts a cell before the others.
    pub(crate) fn push_first(&mut self, cell: Cell<T>)
        requires { 0 < self.old.1 }
        ensures { self.new.0 ≡ cell ∷ self.old.0 }
    {
        self.cells.push_front_reserved(cell);
    }

    /// Puts a cell behind the others.
    pub(crate) fn push_last(&mut self, cell: Cell<T>)
        requires { 0 < self.old.1 }
        ensures { self.new.0 ≡ self.old.0 ++ cell ∷ [] }
    {
        self.cells.push_back_reserved(cell);
    }
}
