//! Cells on the heap, for one item each.
ghost use Rattle.std.specs.Prelude.{◌≡◌, Some, None, IsSome, IfOk};

use std::alloc::{AllocError, Global};
use std::marker::Model;

/// A cell that may hold an item.
#[derive(Drop)]
pub(crate) struct Cell<T> {
    content: Box<Option<T>>,
}

impl<T> Model for Cell<T> {
    ghost use Rattle.std.specs.Prelude.{Option};

    ghost Value = { Option T };

    ghost view = { λ a. a.content.value };
}

impl<T> Cell<T> {
    /// An empty cell.
    pub(crate) fn new(alloc: Global) -> Result<Self, AllocError>
    where
        T: Drop,
        ensures { IfOk result (λ cell. cell ≡ None) }
    {
        Ok(Cell {
            content: Box::new(alloc, None)?,
        })
    }

    /// The item of a cell that holds one.
    pub(crate) fn item(&self) -> &T
        requires { IsSome self.now }
        ensures { self.now ≡ Some result.now }
    {
        match &*self.content {
            Some(item) => item,
            None => unreachable!(),
        }
    }

    /// Puts an item, or none, in the place of what is held, and gives that back.
    pub(crate) fn replace(&mut self, content: Option<T>) -> Option<T>
        ensures before { result ≡ self.old }
        ensures after { self.new ≡ content }
    {
        Box::replace(&mut self.content, content)
    }

    /// Puts an item in the place of what is held, which is dropped. It moves the item alone.
    pub(crate) fn fill(&mut self, item: T)
    where
        T: Drop,
        ensures { self.new ≡ Some item }
    {
        *self.content = Some(item);
    }
}
