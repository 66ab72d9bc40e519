//! The actions of the graphs that are open where no iteration has begun.
ghost use Rattle.std.specs.Prelude.{◌≡◌, ◌++◌, IfOk, OnOk};
ghost use Rattle.wf_enter.specs.PlanSeen.{or_none, plan_tree};
ghost use Rattle.wf_enter.specs.Graphs.{opened_at};
ghost use Rattle.wf_resting.specs.Resting.{standing};

use std::alloc::{AllocError, Global};
use wf_enter::{Acts, Opens, Plan, opened_graph};

/// The actions of the graph that a container enters as it opens; none where it enters none.
pub(crate) fn entered(plan: &Plan, container: u32, taken: u64) -> &[u32]
    ensures { result.now ≡ or_none (opened_at (plan_tree plan.now) container taken) }
{
    match opened_graph(plan, container, taken) {
        Some(numbers) => numbers,
        None => &[],
    }
}

// These numbers behind others.
fn append(numbers: &mut Vec<u32>, more: &[u32]) -> Result<(), AllocError>
    ensures { OnOk result (numbers.new.items ≡ numbers.old.items ++ more.now) }
{
    numbers.extend_from_slice(more)
}

fn of_top(alloc: Global, plan: &Plan) -> Result<Vec<u32>, AllocError>
    ensures { IfOk result (λ numbers. numbers.items ≡ (plan_tree plan.now).top) }
{
    let mut numbers = Vec::new(alloc);
    append(&mut numbers, plan.top())?;
    Ok(numbers)
}

/// Those of the definition's own graph, and of each open container those of the graph that it has entered.
pub fn standing<A: Acts>(
    alloc: Global,
    acts: &A,
    plan: &Plan,
    opens: &Opens<A::Decision, A::Verdict>,
) -> Result<Vec<u32>, AllocError>
    ensures { IfOk result (λ numbers. numbers.items
        ≡ standing (plan_tree plan.now) A.decision_tree (A.source acts.now).taken opens.now.0) }
{
    let mut numbers = of_top(alloc, plan)?;
    for place in 0..opens.len() {
        let open = opens.at(place);
        let taken = acts.taken(&open.decision);
        append(&mut numbers, entered(plan, open.instance.action, taken))?;
    }
    Ok(numbers)
}
