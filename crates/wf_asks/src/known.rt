//! What is known as an action is asked something.
ghost use Rattle.std.specs.Cmp.Rules.{comparing};

use crate::instance::Instance;
use wf_lists::Keyed;
use wf_room::Roomy;

/// The row of a finished action, at its instance.
#[derive(Drop)]
pub struct RowAt<R> {
    pub instance: Instance,
    pub row: R,
}

/// An open container: what it decided, the index of its next iteration, an Until's last test, and how many begun iterations of a Foreach
/// aren't finished.
#[derive(Drop)]
pub struct OpenAt<D, V> {
    pub instance: Instance,
    pub decision: D,
    pub next: u64,
    pub test: Option<V>,
    pub unfinished: u64,
}

/// The last of the finished actions that gave a variable a value. The value itself stands in the row there.
#[derive(Drop)]
pub struct WriterAt {
    pub variable: u32,
    pub instance: Instance,
}

impl<R> Keyed for RowAt<R> {
    type Key = Instance;

    ghost key_of = { λ r. r.instance };

    fn key(&self) -> &Instance {
        &self.instance
    }
}

impl<D, V> Keyed for OpenAt<D, V> {
    type Key = Instance;

    ghost key_of = { λ e. e.instance };

    fn key(&self) -> &Instance {
        &self.instance
    }
}

impl Keyed for WriterAt {
    type Key = u32;

    ghost key_of = { λ w. w.variable };

    fn key(&self) -> &u32 {
        &self.variable
    }
}

/// Rows in the order of their instances.
pub type Rows<R> = Roomy<RowAt<R>>;

/// Open containers in the order of their instances.
pub type Opens<D, V> = Roomy<OpenAt<D, V>>;

/// Last writers in the order of the numbers of variables.
pub type Store = Roomy<WriterAt>;

/// What is known of a run at a moment: the rows that are there, the open containers, and who wrote last to each variable.
#[derive(Clone, Copy)]
pub struct Known<'k, R, D, V> {
    pub rows: &'k Rows<R>,
    pub opens: &'k Opens<D, V>,
    pub store: &'k Store,
}
