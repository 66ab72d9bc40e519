//! What a row says that its container decided.
ghost use Rattle.std.specs.Prelude.{◌≡◌, Ok, map};
ghost use Rattle.wf_def.specs.ActionSeen.{cases_seen, kind_tree};
ghost use Rattle.wf_def.specs.ActionTree.{case_trees};
ghost use Rattle.wf_opening.specs.Decisions.{branch_from, chosen_as, held_as, taken};
ghost use Rattle.wf_data.specs.Seen.{row_tree};
ghost use Rattle.wf_says.specs.Told.{count_items, count_told, items_said, number_in, rounds_said, taken_by, told_by, told_rounds};
ghost use Rattle.wf_val.specs.Seen.{member, tree};

use wf_data::Row;
use wf_def::{Cases, Kind};
use wf_val::{Text, Val};

// The number of the first case that is the value, else of the branch behind all cases.
fn case_of(cases: &Cases, value: &Val) -> u64
    ensures { result ≡ branch_from 1 (case_trees (cases_seen cases.now)) (tree value.now) }
{
    let mut branch = 1;
    for case in cases.as_slice() {
        if case.value.order(value).is_eq() {
            return branch;
        }
        branch += 1;
    }
    branch
}

fn case_said(cases: &Cases, value: &Val) -> u64
    ensures { result ≡ taken (chosen_as (case_trees (cases_seen cases.now)) (Ok (tree value.now))) }
{
    match value {
        Val::Text(_) | Val::Int(_) => case_of(cases, value),
        _ => 0,
    }
}

fn truth_said(value: &Val) -> u64
    ensures { result ≡ taken (held_as (Ok (tree value.now))) }
{
    match value {
        Val::Bool(holds) => { if *holds { 1 } else { 2 } }
        _ => 0,
    }
}

/// The branch of an If or a Switch that its row says was taken, counted from 1; 0 where it says none.
pub fn branch_said(kind: &Kind, row: &Row) -> u64
    ensures { result ≡ taken_by (kind_tree kind.now) (row_tree row.now).row }
{
    match kind {
        Kind::If {
            test: _,
            yes: _,
            no: _,
        } => truth_said(&row.inputs),
        Kind::Switch {
            on: _,
            cases,
            default,
        } => match default {
            Some(_) => case_said(cases, &row.inputs),
            None => case_said(cases, &row.inputs),
        },
        _ => 0,
    }
}

/// How many items the row of a Foreach says that it had.
#[tactic(auto, using(wf_val::proofs::ValueTreeLemmas::listed))]
pub fn items_said(row: &Row) -> u64
    ensures { result ≡ items_said (row_tree row.now).row }
{
    match &row.inputs {
        Val::List(items) => items.len(),
        _ => 0,
    }
}

fn number_in(name: &str, value: &Val) -> Option<i64>
    ensures { result ≡ number_in name.now (tree value.now) }
{
    match value {
        Val::Int(n) if name == "iterations" => Some(*n),
        _ => None,
    }
}

fn told_by(members: &[(Text, Val)]) -> Option<i64>
    ensures { result ≡ told_by (map member members.now) }
{
    match members {
        [(name, value)] => number_in(name.as_str(), value),
        _ => None,
    }
}

// The number that the outputs of an Until give, where they say nothing else.
#[tactic(auto, using(wf_val::proofs::ValueTreeLemmas::listed))]
pub(crate) fn told_rounds(outputs: &Val) -> Option<i64>
    ensures { result ≡ told_rounds (tree outputs.now) }
{
    match outputs {
        Val::Obj(fields) => told_by(fields.as_slice()),
        _ => None,
    }
}

/// How often the row of an Until says that it went round.
pub fn rounds_said(row: &Row) -> u64
    ensures { result ≡ rounds_said (row_tree row.now).row }
{
    match told_rounds(&row.outputs) {
        Some(n) if 0 <= n => n as u64,
        _ => 0,
    }
}
