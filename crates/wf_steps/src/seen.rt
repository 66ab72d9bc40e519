//! What is asked of a state.
ghost use Rattle.std.specs.Prelude.{◌≡◌, ◌<◌, ◌^◌, ℕ, length, option_map};
ghost use Rattle.wf_lists.specs.KeyOrder.{IsInKeyOrder};
ghost use Rattle.wf_layers.specs.Address.{Address};
ghost use Rattle.wf_layers.specs.Meaning.{meaning};
ghost use Rattle.wf_layers.specs.Variables.{IsLastWritten};
ghost use Rattle.wf_kept.specs.Reached.{IsReached};
ghost use Rattle.wf_events.specs.Instances.{address_of, instance_cmp};
ghost use Rattle.wf_events.specs.Known.{open_tree, store_in, writer};
ghost use Rattle.wf_events.specs.PlanSeen.{plan_tree};
ghost use Rattle.wf_events.specs.Tables.{leaf_tree};
ghost use Rattle.wf_steps.specs.Kept.{AreEnabled, IsOver, IsPlanned};
ghost use Rattle.wf_steps.specs.Shown.{shown};

use crate::spare::Spare;
use crate::state::State;
use wf_events::{Acts, EventAt, Instance, LeafAt, OpenAt, Opens, Plan, Rows, Store};
use wf_room::Roomy;

// From so many rows on a state leaves nothing for the next.
const MANY: u64 = 1024;

impl<'a, A: Acts> State<'a, A> {
    /// How many leaves run.
    pub fn running(&self) -> u64
        ensures { result ≡ length self.now.1.1.0 }
    {
        self.running.len()
    }

    /// The row of an action that has one.
    pub fn row(&self, place: &Instance) -> Option<&A::Row>
        ensures { option_map (λ r. A.row_tree r.now) result
            ≡ (shown A.row_tree A.begun_tree A.decision_tree A.verdict_tree self.now.1).rows (address_of place.now) }
    {
        match self.rows.get(place) {
            Some(found) => Some(&found.row),
            None => None,
        }
    }

    /// What a running leaf has.
    pub fn leaf(&self, place: &Instance) -> Option<&LeafAt<A::Begun>>
        ensures { option_map (λ l. leaf_tree A.begun_tree l.now) result
            ≡ (shown A.row_tree A.begun_tree A.decision_tree A.verdict_tree self.now.1).running (address_of place.now) }
    {
        self.running.get(place)
    }

    /// What an open container has.
    pub fn open_at(&self, place: &Instance) -> Option<&OpenAt<A::Decision, A::Verdict>>
        ensures { option_map (λ o. open_tree A.decision_tree A.verdict_tree o.now) result
            ≡ (shown A.row_tree A.begun_tree A.decision_tree A.verdict_tree self.now.1).opens (address_of place.now) }
    {
        self.opens.get(place)
    }

    /// The rows that are there, in the order of their instances.
    pub fn rows(&self) -> &Rows<A::Row>
        ensures { result.now.0 ≡ self.now.1.0 }
    {
        &self.rows
    }

    /// The leaves that run, in the order of their instances.
    pub fn leaves(&self) -> &Roomy<LeafAt<A::Begun>>
        ensures { result.now.0 ≡ self.now.1.1.0 }
    {
        &self.running
    }

    /// The containers that are open, in the order of their instances.
    pub fn containers(&self) -> &Opens<A::Decision, A::Verdict>
        ensures { result.now.0 ≡ self.now.1.1.1.0 }
    {
        &self.opens
    }

    /// The events that may happen.
    pub fn ready(&self) -> &Roomy<EventAt>
        ensures { AreEnabled (A.graph self.now.0) (A.source self.now.0)
            (shown A.row_tree A.begun_tree A.decision_tree A.verdict_tree self.now.1) result.now.0 }
    {
        let _count = self.ready.len();
        &self.ready
    }

    /// The rows and the last writers. The state is given up, and leaves its other lists, if it has few rows.
    pub fn into_parts(
        self,
        spare: &mut Spare<A::Row, A::Begun, A::Decision, A::Verdict>,
    ) -> (Rows<A::Row>, Store)
        ensures rows { result.0.0 ≡ self.entry.1.0 }
        ensures store { result.1.0 ≡ self.entry.1.1.1.1 }
    {
        let State {
            rows,
            running,
            opens,
            store,
            waits,
            lacks,
            ready,
            ..
        } = self;
        // What many rows took is let go before the record is made.
        if rows.len() < MANY {
            spare.running = running;
            spare.opens = opens;
            spare.waits = waits;
            spare.lacks = lacks;
            spare.ready = ready;
        }
        (rows, store)
    }

    /// What the actions do.
    pub fn acts(&self) -> &'a A
        ensures { result.now ≡ self.now.0 }
    {
        self.acts
    }

    /// The definition by numbers.
    pub fn plan(&self) -> &'a Plan
        ensures { IsPlanned (A.graph self.now.0) (plan_tree result.now) }
    {
        self.plan
    }

    /// What stands at an instance is listed once, in the order of instances.
    pub fn is_listed(&self)
        ensures rows { IsInKeyOrder instance_cmp (λ r. r.instance) self.now.1.0 }
        ensures running { IsInKeyOrder instance_cmp (λ l. l.instance) self.now.1.1.0 }
        ensures opens { IsInKeyOrder instance_cmp (λ o. o.instance) self.now.1.1.1.0 }
        ensures fewer_rows { length self.now.1.0 < 2 ^ 63 }
        ensures fewer_running { length self.now.1.1.0 < 2 ^ 63 }
        ensures fewer_opens { length self.now.1.1.1.0 < 2 ^ 63 }
    {
        let _rows = self.rows.len();
        let _running = self.running.len();
        let _opens = self.opens.len();
    }

    /// A run leads to the state.
    pub fn is_reached(&self)
        ensures { IsReached (A.graph self.now.0) (A.depth self.now.0) (A.source self.now.0)
            (shown A.row_tree A.begun_tree A.decision_tree A.verdict_tree self.now.1) }
    {
        let _ = &self.acts;
    }

    /// Where nothing may happen any more, the rows are those that the definition means, and all of them.
    pub fn is_whole(&self)
        requires { IsOver (A.graph self.now.0) (A.source self.now.0)
            (shown A.row_tree A.begun_tree A.decision_tree A.verdict_tree self.now.1) }
        ensures { (x : Address) → (shown A.row_tree A.begun_tree A.decision_tree A.verdict_tree self.now.1).rows x
            ≡ meaning (A.source self.now.0) (A.depth self.now.0) (A.graph self.now.0) x }
    {
        self.acts.is_instance();
    }

    /// The last writers are those of the rows that are there.
    pub fn is_last(&self)
        ensures { (v : ℕ) → IsLastWritten (A.graph self.now.0) (A.source self.now.0) (writer (A.writes self.now.0) v)
            (shown A.row_tree A.begun_tree A.decision_tree A.verdict_tree self.now.1).rows (store_in self.now.1.1.1.1 v) }
    {
        self.acts.is_instance();
    }
}
