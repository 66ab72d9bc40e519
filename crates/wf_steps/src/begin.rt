//! An iteration of a loop begins.
ghost use Rattle.std.specs.Prelude.{◌≡◌, OnOk, OnErr};
ghost use Rattle.wf_layers.specs.Machine as machine;
ghost use Rattle.wf_steps.specs.Kept.{Goes, IsEnabled};
ghost use Rattle.wf_steps.specs.Shown.{shown};

use crate::state::State;
use std::alloc::{AllocError, Global};
use wf_events::{Acts, Instance, next_index};
use wf_resting::{begin_iteration, enter_graph, make_room, turning_edits};

impl<'a, A: Acts> State<'a, A> {
    /// The next iteration of an open loop begins. Where memory runs out nothing has happened.
    pub fn begin(&mut self, alloc: Global, place: &Instance) -> Result<(), AllocError>
        requires { IsEnabled (A.graph self.old.0) (A.source self.old.0)
            (shown A.row_tree A.begun_tree A.decision_tree A.verdict_tree self.old.1)
            (machine.Begin place.now.action place.now.at) }
        ensures ok { OnOk result (Goes (A.graph self.old.0) (A.source self.old.0)
            (shown A.row_tree A.begun_tree A.decision_tree A.verdict_tree self.old.1)
            (machine.Begin place.now.action place.now.at)
            (shown A.row_tree A.begun_tree A.decision_tree A.verdict_tree self.new.1)) }
        ensures same { self.new.0 ≡ self.old.0 }
        ensures err { OnErr result (self.new ≡ self.old) }
    {
        let next = next_index(&self.opens, place);
        let entering = turning_edits(alloc, self.plan, place, next)?;
        self.opens.make_room(1)?;
        make_room(&mut self.waits, &mut self.lacks, &mut self.ready, &entering)?;
        begin_iteration(self.acts, self.plan, &mut self.opens, place);
        enter_graph(
            self.acts,
            self.plan,
            &self.rows,
            &self.opens,
            &self.store,
            &mut self.waits,
            &mut self.lacks,
            &mut self.ready,
            entering,
        );
        Ok(())
    }
}
