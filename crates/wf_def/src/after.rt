//! What an action waits for.
use wf_lists::Series;
use wf_val::Name;

/// The statuses that an entry of `runAfter` lists. A status may stand there twice, which says no more than once, and none may.
#[derive(Clone, Copy, PartialEq, Eq, Debug)]
pub struct Statuses {
    pub succeeded: bool,
    pub failed: bool,
    pub skipped: bool,
    pub timed_out: bool,
}

/// An entry of `runAfter`: the action that is waited for, by its name and its number, and the statuses that are listed for it.
#[derive(Drop)]
pub struct After {
    pub name: Name,
    pub number: u32,
    pub statuses: Statuses,
}

/// The entries of a `runAfter`, in byte order of the names.
pub type Afters = Series<After>;
