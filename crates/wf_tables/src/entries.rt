//! What a state has at an instance.
use wf_lists::Keyed;
use wf_plan::Instance;

/// A running leaf: what it has from its start on, and how many attempts it has made.
#[derive(Drop)]
pub struct LeafAt<B> {
    pub instance: Instance,
    pub begun: B,
    pub tries: u64,
}

/// How much an action of an open graph waits for, or how many actions of a graph lack a row.
#[derive(Drop)]
pub struct CountAt {
    pub instance: Instance,
    pub count: u64,
}

#[derive(Clone, Copy, Debug, PartialEq, Eq)]
pub enum EventKind {
    Start,
    Try,
    End,
    Skip,
    Open,
    Begin,
    Test,
    Close,
}

/// What may happen next at an instance.
#[derive(Drop)]
pub struct EventAt {
    pub instance: Instance,
    pub kind: EventKind,
}

impl<B> Keyed for LeafAt<B> {
    type Key = Instance;

    ghost key_of = { λ e. e.instance };

    fn key(&self) -> &Instance {
        &self.instance
    }
}

impl Keyed for CountAt {
    type Key = Instance;

    ghost key_of = { λ c. c.instance };

    fn key(&self) -> &Instance {
        &self.instance
    }
}

impl Keyed for EventAt {
    type Key = Instance;

    ghost key_of = { λ e. e.instance };

    fn key(&self) -> &Instance {
        &self.instance
    }
}
