//! Items that stand still, once there are any.
ghost use Rattle.std.specs.Prelude.{◌≡◌, ◌<◌, ◌≤◌, ◌+◌, ◌^◌, [], length, IfOk, IfErr, OnOk, OnErr, Some, insert, remove};
ghost use Rattle.std.specs.Prelude.{slice_get, slice_set};
ghost use Rattle.std.specs.List.Sorted.{IsSearchInRange};
ghost use Rattle.wf_lists.specs.KeyOrder.{IsInKeyOrder, IsKeyPlace, IsKeyGap};

use crate::still::Still;
use std::alloc::{AllocError, Global};
use std::marker::Model;
use wf_lists::Keyed;

/// The same as `Still`, which is made once room is asked for: until then no memory is taken. It is moved as one pointer: a state of a run
/// has seven such lists, and is moved a few times before its first event.
pub(crate) struct Shelf<T> {
    still: Option<Box<Still<T>>>,
    alloc: Global,
}

// By hand, so that to let a list go is one call for a check above, whether or not room was asked for.
impl<T: Drop> Drop for Shelf<T> {
    fn drop(self) {
        let Shelf { still: _, alloc: _ } = self;
    }
}

impl<T> Model for Shelf<T> {
    ghost use Rattle.std.specs.Prelude.{List, ℕ, [], option_map, unwrap_or};

    ghost Value = { List T × ℕ };

    ghost view = { λ a. unwrap_or (option_map (λ b. b.value) a.still) ([], 0) };
}

impl<T> Shelf<T> {
    /// No items, and no memory taken yet.
    pub(crate) fn new(alloc: Global) -> Self
        ensures { result.0 ≡ [] }
    {
        Shelf { still: None, alloc }
    }

    /// Makes room for so many more items.
    pub(crate) fn make_room(&mut self, more: usize) -> Result<(), AllocError>
    where
        T: Drop,
        ensures items { self.new.0 ≡ self.old.0 }
        ensures room { OnOk result (more ≤ self.new.1) }
        ensures kept { self.old.1 ≤ self.new.1 }
    {
        match &mut self.still {
            Some(still) => still.make_room(more),
            None => {
                if more == 0 {
                    return Ok(());
                }
                let mut still = Still::new(self.alloc);
                still.make_room(more)?;
                self.still = Some(Box::new(self.alloc, still)?);
                Ok(())
            }
        }
    }

    /// How many items there are.
    #[inline(always)]
    pub(crate) fn len(&self) -> u64
        ensures count { result ≡ length self.now.0 }
        ensures in_range { result < 2 ^ 63 }
    {
        match &self.still {
            Some(still) => still.len(),
            None => 0,
        }
    }

    /// The item at a place.
    pub(crate) fn at(&self, place: usize) -> &T
        requires { place < length self.now.0 }
        ensures { slice_get self.now.0 place ≡ Some result.now }
    {
        match &self.still {
            Some(still) => still.at(place),
            None => unreachable!(),
        }
    }

    /// Puts an item before the one at a place.
    pub(crate) fn insert(&mut self, place: usize, item: T)
    where
        T: Drop,
        requires place { place ≤ length self.old.0 }
        requires room { 0 < self.old.1 }
        ensures items { self.new.0 ≡ insert self.old.0 place item }
        ensures room { self.old.1 ≡ self.new.1 + 1 }
    {
        match &mut self.still {
            Some(still) => still.insert(place, item),
            None => unreachable!(),
        }
    }

    /// Puts an item in the place of another, and gives that one back.
    pub(crate) fn replace(&mut self, place: usize, item: T) -> T
        requires { place < length self.old.0 }
        ensures before { slice_get self.old.0 place ≡ Some result }
        ensures items { self.new.0 ≡ slice_set self.old.0 place item }
        ensures room { self.new.1 ≡ self.old.1 }
    {
        match &mut self.still {
            Some(still) => still.replace(place, item),
            None => unreachable!(),
        }
    }

    /// Takes an item out, and keeps its cell for another.
    pub(crate) fn remove(&mut self, place: usize) -> T
        requires { place < length self.old.0 }
        ensures item { slice_get self.old.0 place ≡ Some result }
        ensures rest { self.new.0 ≡ remove self.old.0 place }
        ensures room { self.new.1 ≡ self.old.1 + 1 }
    {
        match &mut self.still {
            Some(still) => still.remove(place),
            None => unreachable!(),
        }
    }

    /// Takes all items out, in order, and keeps their cells for others.
    pub(crate) fn take_all(&mut self, alloc: Global) -> Result<Vec<T>, AllocError>
    where
        T: Drop,
        ensures items { IfOk result (λ items. items.items ≡ self.old.0) }
        ensures none { OnOk result (self.new.0 ≡ []) }
        ensures err { OnErr result (self.new.0 ≡ self.old.0) }
    {
        match &mut self.still {
            Some(still) => still.take_all(alloc),
            None => Ok(Vec::new(alloc)),
        }
    }
}

impl<T: Keyed> Shelf<T> {
    /// The place of the key among the items, or the place where an item of it would go.
    #[inline(always)]
    pub(crate) fn place_of(&self, key: &T::Key) -> Result<usize, usize>
        requires { IsInKeyOrder T.Key.cmp T.key_of self.now.0 }
        ensures in_range { IsSearchInRange result (length self.now.0) }
        ensures place { IfOk result (IsKeyPlace T.Key.cmp T.key_of key.now self.now.0) }
        ensures gap { IfErr result (IsKeyGap T.Key.cmp T.key_of key.now self.now.0) }
    {
        match &self.still {
            Some(still) => still.place_of(key),
            None => Err(0),
        }
    }
}
