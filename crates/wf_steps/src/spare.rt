//! Lists that one state leaves for the next.
ghost use Rattle.std.specs.Prelude.{◌≡◌, []};

use std::alloc::Global;
use std::mem::replace;
use wf_events::{CountAt, EventAt, LeafAt, Opens, Rows};
use wf_lists::Keyed;
use wf_room::Roomy;

/// The lists of a state beside its store, with the room that they have. A state that begins takes them, and one that is given
/// up leaves its own: so of many short runs, one after the other, the first alone takes memory for them.
#[derive(Drop)]
pub struct Spare<R, B, D, V> {
    pub(crate) rows: Rows<R>,
    pub(crate) running: Roomy<LeafAt<B>>,
    pub(crate) opens: Opens<D, V>,
    pub(crate) waits: Roomy<CountAt>,
    pub(crate) lacks: Roomy<CountAt>,
    pub(crate) ready: Roomy<EventAt>,
}

impl<R, B, D, V> Spare<R, B, D, V> {
    /// Lists without room.
    pub fn new(alloc: Global) -> Self {
        Spare {
            rows: Roomy::new(alloc),
            running: Roomy::new(alloc),
            opens: Roomy::new(alloc),
            waits: Roomy::new(alloc),
            lacks: Roomy::new(alloc),
            ready: Roomy::new(alloc),
        }
    }

    /// Keeps a list whose rows were taken out.
    pub fn keep_rows(&mut self, rows: Rows<R>)
    where
        R: Drop,
        B: Drop,
        D: Drop,
        V: Drop,
    {
        self.rows = rows;
    }
}

/// Takes a list without items: the one that is there, if it has none.
pub(crate) fn taken<T: Keyed + Drop>(alloc: Global, list: &mut Roomy<T>) -> Roomy<T>
    ensures { result.0 ≡ [] }
{
    let there = replace(list, Roomy::new(alloc));
    if there.len() == 0 {
        there
    } else {
        Roomy::new(alloc)
    }
}
