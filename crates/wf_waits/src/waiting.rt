//! An attempt that waits.
use wf_asks::Instance;
use wf_lists::Keyed;
use wf_talk::Want;

/// An attempt that waits for its answer: its key, and the instance of the action that makes it.
#[derive(Drop)]
pub struct Waiting {
    pub want: Want,
    pub instance: Instance,
}

/// The key of an attempt that has begun to wait since the last answer came.
#[derive(Drop)]
pub struct Fresh {
    pub want: Want,
}

impl Keyed for Waiting {
    type Key = Want;

    ghost key_of = { λ w. w.want };

    fn key(&self) -> &Want {
        &self.want
    }
}

impl Keyed for Fresh {
    type Key = Want;

    ghost key_of = { λ f. f.want };

    fn key(&self) -> &Want {
        &self.want
    }
}
