//! How a definition is planned.
ghost use Rattle.std.specs.Prelude.{IfOk};
ghost use Rattle.wf_meant.specs.Points.{graph_of};
ghost use Rattle.wf_plan.specs.PlanSeen.{plan_tree};
ghost use Rattle.wf_reading.specs.ReadSeen.{def_tree};
ghost use Rattle.wf_steps.specs.Kept.{IsPlanned};

use crate::laws::plans_are_of_definitions;
use std::alloc::{AllocError, Global};
use wf_plan::Plan;
use wf_reading::Def;

/// The plan of a definition. It walks its graphs a few times.
pub fn plan(alloc: Global, def: &Def) -> Result<Plan, AllocError>
    ensures { IfOk result (λ p. IsPlanned (graph_of (def_tree def.now)) (plan_tree p)) }
{
    def.always_read();
    plans_are_of_definitions();
    Plan::of(alloc, &def.top)
}
