//! What holds of the actions of a run.
ghost use Rattle.wf_actions.specs.Order.{CostsWhatItMeans, KeepsOrder};
ghost use Rattle.wf_actions.specs.declared.actions.Actions.{Actions};

use crate::actions::Actions;
use crate::opened::are_answered;

/// Their loops can go, and no leaf makes more attempts than a number can count. The writers of each variable are in one order. What a row
/// costs grows with the attempts and iterations that it tells.
pub(crate) fn keep_order(actions: &Actions<'_>)
    ensures { KeepsOrder actions.now }
{
    are_answered(actions);
    actions.ready.checked.def.always_read();
    actions.ready.checked.always_checked();
    let _count = actions.inputs.answers.len();
    wf_catalog::loops_may_turn();
    wf_sight_laws::numbered_writers_are_in_one_order();
    wf_paying::rows_tell_their_turns();
    wf_paying::a_row_costs_its_turns();
    wf_paying::attempts_are_answered();
}

/// What a run costs by its start and its rows is at most what the record costs that has these rows.
pub fn runs_cost_no_more_than_their_records()
    ensures { (a : Actions) → CostsWhatItMeans a }
{
    wf_paying::a_record_costs_its_rows();
}
