//! A container opens.
ghost use Rattle.std.specs.Prelude.{◌≡◌, OnOk, OnErr};
ghost use Rattle.wf_layers.specs.Machine as machine;
ghost use Rattle.wf_steps.specs.Kept.{Goes, IsEnabled};
ghost use Rattle.wf_steps.specs.Shown.{shown};

use crate::state::State;
use std::alloc::{AllocError, Global};
use wf_events::{Acts, Instance, Known, OpenAt, put_rows};
use wf_resting::{enter_graph, make_room, opening_edits, passed_rows};

impl<'a, A: Acts> State<'a, A> {
    /// A container opens: what it decides tells which branch it enters, and those that it passes over get their rows. Where memory runs out
    /// nothing has happened.
    pub fn open_up(&mut self, alloc: Global, place: &Instance) -> Result<(), AllocError>
        requires { IsEnabled (A.graph self.old.0) (A.source self.old.0)
            (shown A.row_tree A.begun_tree A.decision_tree A.verdict_tree self.old.1)
            (machine.Open place.now.action place.now.at) }
        ensures ok { OnOk result (Goes (A.graph self.old.0) (A.source self.old.0)
            (shown A.row_tree A.begun_tree A.decision_tree A.verdict_tree self.old.1)
            (machine.Open place.now.action place.now.at)
            (shown A.row_tree A.begun_tree A.decision_tree A.verdict_tree self.new.1)) }
        ensures same { self.new.0 ≡ self.old.0 }
        ensures err { OnErr result (self.new ≡ self.old) }
    {
        self.acts.is_instance();
        let decision = self.acts.decide(
            alloc,
            place,
            Known {
                rows: &self.rows,
                opens: &self.opens,
                store: &self.store,
            },
        )?;
        let taken = self.acts.taken(&decision);
        let passed = passed_rows(alloc, self.acts, self.plan, place, taken)?;
        let entering = opening_edits(alloc, self.plan, place, taken)?;
        let instance = place.copy(alloc)?;
        self.rows.make_room(passed.len())?;
        self.opens.make_room(1)?;
        make_room(&mut self.waits, &mut self.lacks, &mut self.ready, &entering)?;
        put_rows(&mut self.rows, passed);
        self.opens.put(OpenAt {
            instance,
            decision,
            next: 0,
            test: None,
            unfinished: 0,
        });
        enter_graph(
            self.acts,
            self.plan,
            &self.rows,
            &self.opens,
            &self.store,
            &mut self.waits,
            &mut self.lacks,
            &mut self.ready,
            entering,
        );
        Ok(())
    }
}
