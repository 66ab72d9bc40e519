//! A list in order, with room.
ghost use Rattle.std.specs.Prelude.{◌≡◌, ◌<◌, ◌≤◌, ◌+◌, ◌^◌, [], length, IfOk, IfErr, OnOk, OnErr, Some, None, option_map, slice_get};
ghost use Rattle.wf_lists.specs.KeyOrder.{IsInKeyOrder, find_key, put_key, without_key};

use crate::shelf::Shelf;
use std::alloc::{AllocError, Global};
use std::marker::Model;
use wf_lists::Keyed;

// From so many items on no cells are kept when all are taken out.
const MANY: usize = 64;

/// Items in ascending order of their keys, each key once; seen as their list, and for how many more there is room.
#[derive(Drop)]
pub struct Roomy<T: Keyed> {
    items: Shelf<T>,
}

impl<T: Keyed> Model for Roomy<T> {
    ghost use Rattle.std.specs.Prelude.{List, ℕ};
    ghost use Rattle.wf_lists.specs.KeyOrder.{IsInKeyOrder};

    ghost Value = { List T × ℕ };

    ghost view = { λ a. a.items };

    ghost invariant = { λ a. IsInKeyOrder T.Key.cmp T.key_of a.items.0 };
}

impl<T: Keyed> Roomy<T> {
    /// No items, and no memory taken yet.
    pub fn new(alloc: Global) -> Self
        ensures { result.0 ≡ [] }
    {
        Roomy {
            items: Shelf::new(alloc),
        }
    }

    /// Makes room for so many more items.
    pub fn make_room(&mut self, more: usize) -> Result<(), AllocError>
    where
        T: Drop,
        ensures items { self.new.0 ≡ self.old.0 }
        ensures room { OnOk result (more ≤ self.new.1) }
        ensures kept { self.old.1 ≤ self.new.1 }
    {
        self.items.make_room(more)
    }

    /// How many items there are.
    pub fn len(&self) -> u64
        ensures count { result ≡ length self.now.0 }
        ensures in_range { result < 2 ^ 63 }
        ensures in_order { IsInKeyOrder T.Key.cmp T.key_of self.now.0 }
    {
        self.items.len()
    }

    /// The item at a place in the order of keys, counted from 0.
    pub fn at(&self, place: u64) -> &T
        requires { place < length self.now.0 }
        ensures item { slice_get self.now.0 place ≡ Some result.now }
        ensures in_order { IsInKeyOrder T.Key.cmp T.key_of self.now.0 }
    {
        self.items.at(place as usize)
    }

    /// The item of a key, by a binary search.
    pub fn get(&self, key: &T::Key) -> Option<&T>
        ensures { option_map (λ t. t.now) result ≡ find_key T.Key.cmp T.key_of key.now self.now.0 }
    {
        match self.items.place_of(key) {
            Ok(place) => Some(self.items.at(place)),
            Err(_) => None,
        }
    }

    /// Adds an item in its place, or puts it in the place of the one that has its key, which is dropped.
    pub fn put(&mut self, item: T)
    where
        T: Drop,
        requires { 0 < self.old.1 }
        ensures items { self.new.0 ≡ put_key T.Key.cmp T.key_of item self.old.0 }
        ensures room { self.old.1 ≤ self.new.1 + 1 }
    {
        match self.items.place_of(item.key()) {
            Ok(place) => {
                let _ = self.items.replace(place, item);
            }
            Err(place) => {
                self.items.insert(place, item);
            }
        }
    }

    /// Puts an item in the place of the one that has its key, and gives that one back; where none has it, the item itself. So what an item
    /// holds can be moved into the next one, and no room is asked for.
    pub fn replace(&mut self, item: T) -> Result<T, T>
        ensures before { IfOk result (λ before. find_key T.Key.cmp T.key_of (T.key_of item) self.old.0 ≡ Some before) }
        ensures ok { OnOk result (self.new.0 ≡ put_key T.Key.cmp T.key_of item self.old.0) }
        ensures back { IfErr result (λ back. back ≡ item) }
        ensures absent { OnErr result (find_key T.Key.cmp T.key_of (T.key_of item) self.old.0 ≡ None) }
        ensures err { OnErr result (self.new.0 ≡ self.old.0) }
        ensures room { self.old.1 ≤ self.new.1 }
    {
        match self.items.place_of(item.key()) {
            Ok(place) => Ok(self.items.replace(place, item)),
            Err(_) => Err(item),
        }
    }

    /// Takes the item of a key out.
    pub fn take(&mut self, key: &T::Key) -> Option<T>
        ensures item { result ≡ find_key T.Key.cmp T.key_of key.now self.old.0 }
        ensures rest { self.new.0 ≡ without_key T.Key.cmp T.key_of key.now self.old.0 }
        ensures room { self.old.1 ≤ self.new.1 }
        ensures in_order { IsInKeyOrder T.Key.cmp T.key_of self.old.0 }
    {
        match self.items.place_of(key) {
            Ok(place) => Some(self.items.remove(place)),
            Err(_) => None,
        }
    }

    /// Takes all items out, in order. Few leave their cells for others; the cells of many are let go.
    pub fn take_all(&mut self, alloc: Global) -> Result<Vec<T>, AllocError>
    where
        T: Drop,
        ensures items { IfOk result (λ items. items.items ≡ self.old.0) }
        ensures none { OnOk result (self.new.0 ≡ []) }
        ensures err { OnErr result (self.new.0 ≡ self.old.0) }
    {
        let items = self.items.take_all(alloc)?;
        if items.len() >= MANY {
            self.items = Shelf::new(alloc);
        }
        Ok(items)
    }
}
