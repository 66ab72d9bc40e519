//! One call for each kind of event.
ghost use Rattle.std.specs.Prelude.{◌≡◌, OnOk, OnErr};
ghost use Rattle.wf_steps.specs.Kept.{Goes, IsEnabled};
ghost use Rattle.wf_steps.specs.Shown.{shown};
ghost use Rattle.wf_events.specs.Tables.{event_tree};

use crate::state::State;
use std::alloc::{AllocError, Global};
use wf_events::{Acts, EventAt, EventKind};

impl<'a, A: Acts> State<'a, A> {
    /// An event that may happen happens. Where memory runs out nothing has happened.
    pub fn step(&mut self, alloc: Global, event: &EventAt) -> Result<(), AllocError>
        requires { IsEnabled (A.graph self.old.0) (A.source self.old.0)
            (shown A.row_tree A.begun_tree A.decision_tree A.verdict_tree self.old.1)
            (event_tree event.now) }
        ensures ok { OnOk result (Goes (A.graph self.old.0) (A.source self.old.0)
            (shown A.row_tree A.begun_tree A.decision_tree A.verdict_tree self.old.1)
            (event_tree event.now)
            (shown A.row_tree A.begun_tree A.decision_tree A.verdict_tree self.new.1)) }
        ensures same { self.new.0 ≡ self.old.0 }
        ensures err { OnErr result (self.new ≡ self.old) }
    {
        match event.kind {
            EventKind::Start => self.start(alloc, &event.instance),
            EventKind::Try => self.try_again(alloc, &event.instance),
            EventKind::End => self.end(alloc, &event.instance),
            EventKind::Skip => self.skip(alloc, &event.instance),
            EventKind::Open => self.open_up(alloc, &event.instance),
            EventKind::Begin => self.begin(alloc, &event.instance),
            EventKind::Test => self.test(alloc, &event.instance),
            EventKind::Close => self.close(alloc, &event.instance),
        }
    }
}
