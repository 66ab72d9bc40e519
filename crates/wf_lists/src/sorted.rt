//! Items in the order of their keys.
ghost use Rattle.std.specs.Prelude.{◌≡◌, ◌<◌, ◌^◌, [], ◌∷◌, ◌++◌, length, IfOk, IfErr, OnOk, OnErr, option_map, slice_get};
ghost use Rattle.std.specs.List.Sorted.{IsSearchInRange};
ghost use Rattle.wf_lists.specs.KeyOrder.{IsInKeyOrder, IsAboveKeys, find_key, put_key, without_key, IsKeyPlace, IsKeyGap};

use crate::copying::{TryCopy, copy_all};
use std::alloc::{AllocError, Global};
use std::marker::Model;

/// An item with a key, such as a row of a record by its address.
pub trait Keyed {
    type Key: Ord;

    // The key, as contracts see it.
    ghost key_of: { Self → Self.Key };

    fn key(&self) -> &Self::Key
        ensures { result.now ≡ key_of self.now };
}

/// Items in ascending order of their keys, each key once; seen as their list.
#[derive(Drop)]
pub struct Sorted<T: Keyed> {
    items: Vec<T>,
}

impl<T: Keyed> Model for Sorted<T> {
    ghost use Rattle.std.specs.Prelude.{List};
    ghost use Rattle.wf_lists.specs.KeyOrder.{IsInKeyOrder};

    ghost Value = { List T };

    ghost view = { λ a. a.items.items };

    ghost invariant = { λ a. IsInKeyOrder T.Key.cmp T.key_of a.items.items };
}

impl<T: Keyed> Sorted<T> {
    /// No items.
    pub fn new(alloc: Global) -> Self
        ensures { result ≡ [] }
    {
        Sorted {
            items: Vec::new(alloc),
        }
    }

    /// How many items there are.
    pub fn len(&self) -> u64
        ensures count { result ≡ length self.now }
        ensures in_range { result < 2 ^ 63 }
    {
        self.items.len() as u64
    }

    /// The item at a place in the order of keys, counted from 0.
    pub fn at(&self, place: u64) -> Option<&T>
        ensures { option_map (λ t. t.now) result ≡ slice_get self.now place }
    {
        self.items.get(place as usize)
    }

    /// The items in the order of their keys, for a loop.
    pub fn as_slice(&self) -> &[T]
        ensures items { result.now ≡ self.now }
        ensures in_order { IsInKeyOrder T.Key.cmp T.key_of self.now }
    {
        &self.items
    }

    /// The item of a key, by a binary search.
    pub fn get(&self, key: &T::Key) -> Option<&T>
        ensures { option_map (λ t. t.now) result ≡ find_key T.Key.cmp T.key_of key.now self.now }
    {
        match place_of(&self.items, key) {
            Ok(place) => Some(&self.items[place]),
            Err(_) => None,
        }
    }

    /// Adds an item in its place, or replaces the one that has its key. It moves every item behind that
    /// place, so items that come in order are better added by `append`.
    pub fn put(&mut self, item: T) -> Result<(), AllocError>
    where
        T: Drop,
        ensures ok { OnOk result (self.new ≡ put_key T.Key.cmp T.key_of item self.old) }
        ensures err { OnErr result (self.new ≡ self.old) }
    {
        match place_of(&self.items, item.key()) {
            Ok(place) => {
                self.items[place] = item;
                Ok(())
            }
            Err(place) => {
                self.items.insert(place, item)?;
                Ok(())
            }
        }
    }

    /// Adds an item behind the others, for a reader that gets items in order.
    pub fn append(&mut self, item: T) -> Result<(), AllocError>
    where
        T: Drop,
        requires { IsAboveKeys T.Key.cmp T.key_of (T.key_of item) self.old }
        ensures ok { OnOk result (self.new ≡ self.old ++ item ∷ []) }
        ensures err { OnErr result (self.new ≡ self.old) }
    {
        self.items.push(item)?;
        Ok(())
    }

    /// Takes the item of a key out.
    pub fn take(&mut self, key: &T::Key) -> Option<T>
        ensures item { result ≡ find_key T.Key.cmp T.key_of key.now self.old }
        ensures rest { self.new ≡ without_key T.Key.cmp T.key_of key.now self.old }
    {
        match place_of(&self.items, key) {
            Ok(place) => Some(self.items.remove(place)),
            Err(_) => None,
        }
    }
}

impl<T: Keyed + TryCopy + Drop> TryCopy for Sorted<T> {
    fn copy(&self, alloc: Global) -> Result<Self, AllocError> {
        Ok(Sorted {
            items: copy_all(alloc, &self.items)?,
        })
    }
}

// The place of the key among the items, or the place where an item of it would go. It takes as many comparisons as the
// length has binary digits.
fn place_of<T: Keyed>(items: &[T], key: &T::Key) -> Result<usize, usize>
    requires { IsInKeyOrder T.Key.cmp T.key_of items.now }
    ensures in_range { IsSearchInRange result (length items.now) }
    ensures place { IfOk result (IsKeyPlace T.Key.cmp T.key_of key.now items.now) }
    ensures gap { IfErr result (IsKeyGap T.Key.cmp T.key_of key.now items.now) }
{
    items.binary_search_by(|item| item.key().cmp(key))
}
