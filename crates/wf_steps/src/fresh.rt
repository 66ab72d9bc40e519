//! The state of a run that begins.
ghost use Rattle.std.specs.Prelude.{◌≡◌, ◌&&◌, [], IfOk, OnOk, None, cond, length};
ghost use Rattle.wf_layers.specs.Address.{Address, is_own, same_at};
ghost use Rattle.wf_layers.specs.Laws.{IsInstance};
ghost use Rattle.wf_layers.specs.Machine.{fresh};
ghost use Rattle.wf_kept.specs.Counted.{nonzero};
ghost use Rattle.wf_events.specs.Instances.{rows_in};
ghost use Rattle.wf_events.specs.Known.{is_among};
ghost use Rattle.wf_events.specs.PlanSeen.{plan_tree};
ghost use Rattle.wf_events.specs.Looked.{idle_at};
ghost use Rattle.wf_events.specs.Counts.{needs_at};
ghost use Rattle.wf_events.specs.Tables.{count_in, events_in};
ghost use Rattle.wf_steps.specs.Kept.{IsPlanned};
ghost use Rattle.wf_steps.specs.Shown.{shown};

use crate::spare::{Spare, taken};
use crate::state::State;
use std::alloc::{AllocError, Global};
use wf_events::{
    Acts, CountAt, EventAt, Instance, Known, Opens, Plan, Rows, Store, look_at, needs_of, set_count,
};
use wf_room::Roomy;
use wf_val::Indexes;

// A count is put, and room is made for it where it is kept: 0 isn't.
fn add_count(waits: &mut Roomy<CountAt>, item: CountAt) -> Result<(), AllocError>
    ensures { OnOk result ((x : Address) → count_in waits.new.0 x
        ≡ cond (is_own item.instance.action item.instance.at x) (nonzero item.count) (count_in waits.old.0 x)) }
{
    if item.count == 0 {
        let _gone = waits.take(&item.instance);
        return Ok(());
    }
    waits.make_room(1)?;
    set_count(waits, item);
    Ok(())
}

// How much each action of the definition's own graph waits for, where nothing has a row.
fn first_waits(
    alloc: Global,
    plan: &Plan,
    empty: Roomy<CountAt>,
) -> Result<Roomy<CountAt>, AllocError>
    requires { empty.0 ≡ [] }
    ensures { IfOk result (λ waits. (x : Address) → count_in waits.0 x
        ≡ cond (is_among x.name (plan_tree plan.now).top && same_at [] x.at)
        (nonzero (length (needs_at (plan_tree plan.now) x.name))) None) }
{
    let top = plan.top();
    let mut waits = empty;
    for action in top {
        let instance = Instance {
            action: *action,
            at: Indexes::new(alloc),
        };
        let count = needs_of(plan, *action);
        add_count(&mut waits, CountAt { instance, count })?;
    }
    Ok(waits)
}

// What may happen first: to each action of the definition's own graph, by how much it waits for.
fn first_ready<A: Acts>(
    alloc: Global,
    acts: &A,
    plan: &Plan,
    rows: &Rows<A::Row>,
    opens: &Opens<A::Decision, A::Verdict>,
    store: &Store,
    waits: &Roomy<CountAt>,
    empty: Roomy<EventAt>,
) -> Result<Roomy<EventAt>, AllocError>
    requires { empty.0 ≡ [] }
    ensures { IfOk result (λ ready. (x : Address) → events_in ready.0 x
        ≡ cond (is_among x.name (plan_tree plan.now).top && same_at [] x.at)
        (idle_at (A.source acts.now) (rows_in A.row_tree rows.now.0) (count_in waits.now.0) (plan_tree plan.now) x) None) }
{
    let top = plan.top();
    let mut ready = empty;
    for action in top {
        let place = Instance {
            action: *action,
            at: Indexes::new(alloc),
        };
        ready.make_room(1)?;
        look_at(
            acts,
            plan,
            Known { rows, opens, store },
            waits,
            &mut ready,
            place,
        );
    }
    Ok(ready)
}

impl<'a, A: Acts> State<'a, A> {
    /// The state of a run that begins: nothing has happened, and the definition's own graph is open.
    pub fn fresh(
        alloc: Global,
        acts: &'a A,
        plan: &'a Plan,
        spare: &mut Spare<A::Row, A::Begun, A::Decision, A::Verdict>,
    ) -> Result<State<'a, A>, AllocError>
        requires planned { IsPlanned (A.graph acts.now) (plan_tree plan.now) }
        requires instance { IsInstance (A.graph acts.now) (A.source acts.now) (A.depth acts.now) }
        ensures acts { IfOk result (λ s. s.0 ≡ acts.now) }
        ensures first { IfOk result (λ s. shown A.row_tree A.begun_tree A.decision_tree A.verdict_tree s.1 ≡ fresh) }
        ensures lists { IfOk result (λ s. s.1 ≡ ([], ([], ([], [])))) }
    {
        let rows = taken(alloc, &mut spare.rows);
        let store = Roomy::new(alloc);
        let running = taken(alloc, &mut spare.running);
        let opens = taken(alloc, &mut spare.opens);
        let lacks = taken(alloc, &mut spare.lacks);
        let uncounted = taken(alloc, &mut spare.waits);
        let waits = first_waits(alloc, plan, uncounted)?;
        let idle = taken(alloc, &mut spare.ready);
        let ready = first_ready(alloc, acts, plan, &rows, &opens, &store, &waits, idle)?;
        Ok(State {
            acts,
            plan,
            rows,
            running,
            opens,
            store,
            waits,
            lacks,
            ready,
        })
    }
}
