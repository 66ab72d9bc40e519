//! Whether a row may be one of its action.
ghost use Rattle.std.specs.Prelude.{◌≡◌, Some};
ghost use Rattle.wf_def.specs.ActionSeen.{kind_tree};
ghost use Rattle.wf_data.specs.Seen.{row_tree};
ghost use Rattle.wf_data.specs.Simple.{run_status_of};
ghost use Rattle.wf_says.specs.Says.{fits_kind, has_status, is_boolean, is_count, is_few, is_skipped, is_text_or_number};
ghost use Rattle.wf_says.specs.Says.{says, says_or_nothing, says_rounds, succeeded};
ghost use Rattle.wf_val.specs.Seen.{tree};

use crate::told::told_rounds;
use crate::variables::{tells_initials, tells_one};
use wf_data::{Row, Status, run_status};
use wf_def::{Kind, Sort};
use wf_val::Val;

/// Whether it has the status Skipped.
pub fn is_skipped(row: &Row) -> bool
    ensures { result ≡ is_skipped (row_tree row.now).row }
{
    matches!(row.status, Status::Skipped)
}

fn succeeded(row: &Row) -> bool
    ensures { result ≡ succeeded (row_tree row.now).row }
{
    matches!(row.status, Status::Succeeded)
}

fn says_truth(skipped: bool, value: &Val) -> bool
    ensures { result ≡ says_or_nothing skipped is_boolean (tree value.now) }
{
    match value {
        Val::Null => true,
        Val::Bool(_) => !skipped,
        _ => false,
    }
}

fn says_key(skipped: bool, value: &Val) -> bool
    ensures { result ≡ says_or_nothing skipped is_text_or_number (tree value.now) }
{
    match value {
        Val::Null => true,
        Val::Text(_) | Val::Int(_) => !skipped,
        _ => false,
    }
}

#[tactic(auto, using(wf_val::proofs::ValueTreeLemmas::listed))]
fn says_items(skipped: bool, value: &Val) -> bool
    ensures { result ≡ says_or_nothing skipped is_few (tree value.now) }
{
    match value {
        Val::Null => true,
        Val::List(items) => !skipped && items.len() <= 100_000,
        _ => false,
    }
}

fn is_count(most: u32, n: i64) -> bool
    ensures { result ≡ is_count most (Some n) }
{
    1 <= n && n <= most as i64
}

fn says_rounds(skipped: bool, most: u32, told: Option<i64>) -> bool
    ensures { result ≡ says_rounds skipped most told }
{
    match told {
        None => skipped,
        Some(n) => !skipped && is_count(most, n),
    }
}

fn has_status(inputs: &Val) -> bool
    ensures { result ≡ has_status (run_status_of (tree inputs.now)) }
{
    run_status(inputs).is_some()
}

fn says(sort: Option<Sort>, kind: &Kind, row: &Row) -> bool
    ensures { result ≡ says sort (kind_tree kind.now) (row_tree row.now).row }
{
    match kind {
        Kind::If {
            test: _,
            yes: _,
            no: _,
        } => says_truth(is_skipped(row), &row.inputs),
        Kind::Switch {
            on: _,
            cases: _,
            default,
        } => match default {
            Some(_) => says_key(is_skipped(row), &row.inputs),
            None => says_key(is_skipped(row), &row.inputs),
        },
        Kind::Foreach {
            list: _,
            repetitions: _,
            graph: _,
        } => says_items(is_skipped(row), &row.inputs),
        Kind::Until {
            test: _,
            count,
            fails: _,
            graph: _,
        } => says_rounds(is_skipped(row), *count, told_rounds(&row.outputs)),
        Kind::Terminate { inputs: _ } => !succeeded(row) || has_status(&row.inputs),
        Kind::Initialize { variables } => {
            !succeeded(row) || tells_initials(variables.as_slice(), &row.outputs)
        }
        Kind::Set { name, value: _ } => !succeeded(row) || tells_one(name, sort, &row.outputs),
        Kind::Increment { name, value: _ } => {
            !succeeded(row) || tells_one(name, sort, &row.outputs)
        }
        Kind::Decrement { name, value: _ } => {
            !succeeded(row) || tells_one(name, sort, &row.outputs)
        }
        Kind::AppendArray { name, value: _ } => {
            !succeeded(row) || tells_one(name, sort, &row.outputs)
        }
        Kind::AppendString { name, value: _ } => {
            !succeeded(row) || tells_one(name, sort, &row.outputs)
        }
        _ => true,
    }
}

/// Whether a row may be one of an action of this kind, where it has to be Skipped or not. The action writes a variable of this type, where
/// it writes one that another initialised.
pub fn fits(sort: Option<Sort>, kind: &Kind, skipped: bool, row: &Row) -> bool
    ensures { result ≡ fits_kind sort (kind_tree kind.now) skipped (row_tree row.now).row }
{
    (!skipped || is_skipped(row)) && says(sort, kind, row)
}
