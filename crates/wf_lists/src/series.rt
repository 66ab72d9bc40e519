//! Items as they were added.
ghost use Rattle.std.specs.Prelude.{◌≡◌, ◌<◌, ◌^◌, [], ◌∷◌, ◌++◌, length, OnOk, OnErr, option_map, slice_get};

use crate::copying::{TryCopy, copy_all};
use std::alloc::{AllocError, Global};
use std::marker::Model;

/// Items in the order in which they were added, seen as their list.
#[derive(Drop)]
pub struct Series<T> {
    items: Vec<T>,
}

impl<T> Model for Series<T> {
    ghost use Rattle.std.specs.Prelude.{List};

    ghost Value = { List T };

    ghost view = { λ a. a.items.items };
}

impl<T> Series<T> {
    /// No items.
    pub fn new(alloc: Global) -> Self
        ensures { result ≡ [] }
    {
        Series {
            items: Vec::new(alloc),
        }
    }

    /// How many items there are.
    pub fn len(&self) -> u64
        ensures count { result ≡ length self.now }
        ensures in_range { result < 2 ^ 63 }
    {
        self.items.len() as u64
    }

    /// The item at a place, counted from 0.
    pub fn at(&self, place: u64) -> Option<&T>
        ensures { option_map (λ t. t.now) result ≡ slice_get self.now place }
    {
        self.items.get(place as usize)
    }

    /// The items, for a loop.
    pub fn as_slice(&self) -> &[T]
        ensures { result.now ≡ self.now }
    {
        &self.items
    }

    /// Adds an item behind the others.
    pub fn push(&mut self, item: T) -> Result<(), AllocError>
    where
        T: Drop,
        ensures ok { OnOk result (self.new ≡ self.old ++ item ∷ []) }
        ensures err { OnErr result (self.new ≡ self.old) }
    {
        self.items.push(item)?;
        Ok(())
    }
}

impl<T: TryCopy + Drop> TryCopy for Series<T> {
    fn copy(&self, alloc: Global) -> Result<Self, AllocError> {
        Ok(Series {
            items: copy_all(alloc, &self.items)?,
        })
    }
}
