//! What a run costs.
ghost use Rattle.std.specs.Prelude.{◌≡◌, ◌≤◌};
ghost use Rattle.wf_val.specs.Cut.{cut_u64};
ghost use Rattle.wf_catalog.specs.DoneSeen.{begun_tree};
ghost use Rattle.wf_paying.specs.Weights.{begun_weight, decision_weight};
ghost use Rattle.wf_paying.specs.Priced.{IsPriced};
ghost use Rattle.wf_opening.specs.DecisionSeen.{decision_tree, verdict_tree};
ghost use Rattle.wf_paying.specs.Paying.{cost_of_row, first_cost};
ghost use Rattle.wf_catalog.specs.StartsSeen.{start_tree};
ghost use Rattle.wf_sight_laws.specs.Seen.{row_content};
ghost use Rattle.wf_actions.specs.Meant.{depth, fee, graph, rows_meant, source};

use crate::actions::Actions;
use crate::opened::are_answered;
use wf_catalog::Start;
use wf_paying::Pays;

// What the run that starts so costs before its first event: 64, its trigger and its parameters.
pub(crate) fn first_cost(start: &Start) -> u64
    ensures { result ≡ cut_u64 (first_cost (start_tree start.now)) }
{
    start
        .trigger
        .weight()
        .saturating_add(64)
        .saturating_add(start.parameters.weight())
}

// A run of these actions costs what they mean.
fn are_paid(actions: &Actions<'_>)
    ensures least { 64 ≤ fee actions.now }
    ensures priced { IsPriced row_content begun_tree decision_tree verdict_tree (graph actions.now) (depth actions.now)
        (source actions.now) cost_of_row begun_weight decision_weight (rows_meant actions.now) }
{
    are_answered(actions);
    actions.ready.checked.def.always_read();
    actions.ready.checked.always_checked();
    wf_paying::runs_cost_what_rows_are_meant();
}

impl<'a> Pays for Actions<'a> {
    ghost use Rattle.wf_actions.specs.Meant as meant;

    ghost fee = { meant.fee };

    ghost rows_meant = { meant.rows_meant };

    fn first_cost(&self) -> u64 {
        self.fee
    }

    fn is_paid(&self) {
        are_paid(self);
    }
}
