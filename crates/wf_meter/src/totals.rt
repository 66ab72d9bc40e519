//! What all entries of a list come to, where sums begin at lists that are there already.
ghost use Rattle.std.specs.Prelude.{◌≡◌};
ghost use Rattle.wf_tables.specs.PlanSeen.{plan_tree};
ghost use Rattle.wf_meter.specs.Parts.{decisions_sum, rows_sum, turns_sum};

use crate::parts::turns_of;
use wf_tables::{Acts, Opens, Plan, Rows};

/// The rows.
pub fn rows_total<A: Acts>(acts: &A, rows: &Rows<A::Row>) -> u128
    ensures { result ≡ rows_sum A.row_tree (A.cost_of_row acts.now) rows.now.0 }
{
    let mut total = 0;
    for place in 0..rows.len() {
        total += acts.row_cost(&rows.at(place).row) as u128;
    }
    total
}

/// Open containers, for themselves and for their iterations.
pub fn turns_total<A: Acts>(acts: &A, plan: &Plan, opens: &Opens<A::Decision, A::Verdict>) -> u128
    ensures { result ≡ turns_sum A.decision_tree A.verdict_tree (plan_tree plan.now) (A.source acts.now).items opens.now.0 }
{
    let mut total = 0;
    for place in 0..opens.len() {
        let open = opens.at(place);
        total += turns_of(acts, plan, open.instance.action, open);
    }
    total
}

/// And by what they keep of what they decided by.
pub fn decisions_total<A: Acts>(acts: &A, opens: &Opens<A::Decision, A::Verdict>) -> u128
    ensures { result ≡ decisions_sum A.decision_tree A.verdict_tree (A.weight_of_decision acts.now) opens.now.0 }
{
    let mut total = 0;
    for place in 0..opens.len() {
        total += acts.decision_weight(&opens.at(place).decision) as u128;
    }
    total
}
