//! What steps give. Each call tells a caller so, and does nothing.
ghost use Rattle.std.specs.Prelude.{◌≡◌, ℕ, List};
ghost use Rattle.wf_layers.specs.Address.{Table};
ghost use Rattle.wf_def.specs.ActionTree.{ActionTree};
ghost use Rattle.wf_record.specs.Record.{Row};
ghost use Rattle.wf_meant.specs.Status.{graph_status};
ghost use Rattle.wf_closing.specs.Judged.{status_by};
ghost use Rattle.wf_closing.specs.Steps.{FallInside, StandApart, judged_of};

/// Where each action waits only for actions of its graph, and none for itself in a circle, the status by steps is that of the graph.
pub fn steps_give_the_status()
    ensures { (graph : List ActionTree) (depth : ℕ → ℕ) → StandApart graph → FallInside graph depth
        → (at : List ℕ) (known : Table Row) → status_by at known (judged_of graph) ≡ graph_status graph at known }
{}
