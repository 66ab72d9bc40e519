//! What a container comes to as it closes.
ghost use Rattle.std.specs.Prelude.{◌≡◌, ◌<◌, ◌^◌, ◌∷◌, ◌++◌, [], IfOk, option_map, if◌then◌else◌};
ghost use Rattle.wf_val.specs.Seen.{tree};
ghost use Rattle.wf_asks.specs.Instances.{rows_in};
ghost use Rattle.wf_def.specs.ActionSeen.{kind_tree};
ghost use Rattle.wf_meant.specs.Done.{faulted};
ghost use Rattle.wf_meant.specs.DoneSeen.{done_tree};
ghost use Rattle.wf_meant.specs.Containers.{close_branch, close_until, closed, closed_as, code_of, cut_short, failed_by, iterations_value, unless_cut};
ghost use Rattle.wf_record.specs.declared.status.Status.TheVariants.{Failed, Succeeded};
ghost use Rattle.wf_meant.specs.DecisionSeen.{decision_tree, verdict_tree};
ghost use Rattle.wf_closing.specs.Inside.{AreJudged, any_own_failed, branch_place, case_place, closed_by, foreach_closed, graphs_in, inside_of, last_own_status, own_status};
ghost use Rattle.wf_closing.specs.InsideSeen.{inside_tree};
ghost use Rattle.wf_closing.specs.StepsSeen.{row_content};

use crate::inside::Inside;
use std::alloc::{AllocError, Global};
use wf_asks::Rows;
use wf_def::Kind;
use wf_json::fault_text;
use wf_lists::TryCopy;
use wf_meant::{Decision, Done, Verdict, taken};
use wf_record::{Row, Status};
use wf_val::{EvalFault, Fields, Fun, Indexes, Text, Val, wrong_type};

fn code_of(alloc: Global, status: Status) -> Result<Text, AllocError>
    ensures { IfOk result (λ t. t ≡ code_of status) }
{
    match status {
        Status::Succeeded => Text::of(alloc, "OK"),
        _ => Text::of(alloc, "ActionFailed"),
    }
}

// It ended so, and keeps and gives out this.
fn closed_as(alloc: Global, status: Status, inputs: Val, outputs: Val) -> Result<Done, AllocError>
    ensures { IfOk result (λ d. done_tree d ≡ closed_as status (tree inputs) (tree outputs)) }
{
    Ok(Done {
        status,
        code: code_of(alloc, status)?,
        inputs,
        outputs,
        error: Val::Null,
    })
}

// It Failed by itself.
fn failed_by(alloc: Global, code: &str, outputs: Val) -> Result<Done, AllocError>
    ensures { IfOk result (λ d. done_tree d ≡ failed_by code.now (tree outputs)) }
{
    Ok(Done {
        status: Status::Failed,
        code: Text::of(alloc, code)?,
        inputs: Val::Null,
        outputs,
        error: Val::Null,
    })
}

// A Terminate inside it Succeeded.
fn cut_short(alloc: Global, inputs: Val) -> Result<Done, AllocError>
    ensures { IfOk result (λ d. done_tree d ≡ cut_short (tree inputs)) }
{
    Ok(Done {
        status: Status::Cancelled,
        code: Text::of(alloc, "Terminated")?,
        inputs,
        outputs: Val::Null,
        error: Val::Null,
    })
}

// What it asked for has no value.
fn faulted(alloc: Global, fault: &EvalFault, outputs: Val) -> Result<Done, AllocError>
    ensures { IfOk result (λ d. done_tree d ≡ record (faulted fault.now) { outputs = tree outputs }) }
{
    Ok(Done {
        status: Status::Failed,
        code: Text::of(alloc, "InvalidTemplate")?,
        inputs: Val::Null,
        outputs,
        error: Val::Text(fault_text(alloc, fault)?),
    })
}

// How the graph at a place among the container's own ended.
#[tactic(auto, using(crate::proofs::CloseLemmas::own_is))]
fn own_status(
    alloc: Global,
    kind: &Kind,
    inside: &Inside,
    place: usize,
    at: &Indexes,
    rows: &Rows<Row>,
) -> Result<Status, AllocError>
    requires inside { inside_tree inside.now ≡ inside_of (kind_tree kind.now) }
    requires judged { AreJudged (kind_tree kind.now) }
    ensures { IfOk result (λ s. s ≡ own_status (graphs_in (kind_tree kind.now)) place at.now (rows_in row_content rows.now.0)) }
{
    inside.status(alloc, place, at, rows)
}

// It ended so, unless a Terminate inside it Succeeded.
#[tactic(auto, using(crate::proofs::CloseLemmas::terminated_is))]
fn unless_cut(
    alloc: Global,
    kind: &Kind,
    inside: &Inside,
    at: &Indexes,
    rows: &Rows<Row>,
    inputs: Val,
    status: Status,
) -> Result<Done, AllocError>
    requires { inside_tree inside.now ≡ inside_of (kind_tree kind.now) }
    ensures { IfOk result (λ d. done_tree d
        ≡ unless_cut at.now (rows_in row_content rows.now.0) (kind_tree kind.now) (tree inputs) status) }
{
    if inside.is_terminated(alloc, at, rows)? {
        cut_short(alloc, inputs)
    } else {
        closed_as(alloc, status, inputs, Val::Null)
    }
}

fn case_place(cases: u64, branch: u64) -> u64
    ensures { result ≡ case_place cases branch }
{
    if 1 <= branch && branch <= cases {
        branch - 1
    } else {
        cases
    }
}

// The place of the branch of a number among the graphs of an If or a Switch.
#[tactic(auto, using(crate::proofs::CloseLemmas::place_with, crate::proofs::CloseLemmas::place_without))]
fn branch_place(kind: &Kind, branch: u64) -> u64
    ensures { result ≡ branch_place (kind_tree kind.now) branch }
{
    match kind {
        Kind::If {
            test: _,
            yes: _,
            no: _,
        } => { if branch == 1 { 0 } else { 1 } }
        Kind::Switch {
            on: _,
            cases,
            default,
        } => match default {
            Some(_) => case_place(cases.len(), branch),
            None => case_place(cases.len(), branch),
        },
        _ => 0,
    }
}

fn branch_status(
    alloc: Global,
    kind: &Kind,
    inside: &Inside,
    branch: u64,
    at: &Indexes,
    rows: &Rows<Row>,
) -> Result<Status, AllocError>
    requires inside { inside_tree inside.now ≡ inside_of (kind_tree kind.now) }
    requires judged { AreJudged (kind_tree kind.now) }
    ensures { IfOk result (λ s. s ≡ own_status (graphs_in (kind_tree kind.now)) (branch_place (kind_tree kind.now) branch) at.now
        (rows_in row_content rows.now.0)) }
{
    let place = branch_place(kind, branch);
    own_status(alloc, kind, inside, place as usize, at, rows)
}

// An If or a Switch ends as the branch that it took, and keeps what it decided by.
fn close_branch(
    alloc: Global,
    kind: &Kind,
    inside: &Inside,
    decision: &Decision,
    at: &Indexes,
    rows: &Rows<Row>,
) -> Result<Done, AllocError>
    requires inside { inside_tree inside.now ≡ inside_of (kind_tree kind.now) }
    requires judged { AreJudged (kind_tree kind.now) }
    ensures { IfOk result (λ d. done_tree d ≡ close_branch at.now (rows_in row_content rows.now.0) (kind_tree kind.now)
        (λ k. own_status (graphs_in (kind_tree kind.now)) (branch_place (kind_tree kind.now) k) at.now (rows_in row_content rows.now.0))
        (decision_tree decision.now)) }
{
    match decision {
        Decision::Held(holds) => {
            let status = branch_status(alloc, kind, inside, taken(decision), at, rows)?;
            unless_cut(alloc, kind, inside, at, rows, Val::Bool(*holds), status)
        }
        Decision::Chosen { value, branch } => {
            let status = branch_status(alloc, kind, inside, *branch, at, rows)?;
            unless_cut(alloc, kind, inside, at, rows, value.copy(alloc)?, status)
        }
        Decision::Faulty(fault) => faulted(alloc, fault, Val::Null),
        _ => unless_cut(alloc, kind, inside, at, rows, Val::Null, Status::Succeeded),
    }
}

// The indexes of an iteration.
fn in_iteration(alloc: Global, at: &Indexes, index: u64) -> Result<Indexes, AllocError>
    ensures { IfOk result (λ inner. inner ≡ at.now ++ index ∷ []) }
{
    let mut inner = at.copy(alloc)?;
    inner.push(index)?;
    Ok(inner)
}

fn iteration_status(
    alloc: Global,
    kind: &Kind,
    inside: &Inside,
    at: &Indexes,
    index: u64,
    rows: &Rows<Row>,
) -> Result<Status, AllocError>
    requires inside { inside_tree inside.now ≡ inside_of (kind_tree kind.now) }
    requires judged { AreJudged (kind_tree kind.now) }
    ensures { IfOk result (λ s. s
        ≡ own_status (graphs_in (kind_tree kind.now)) 0 (at.now ++ index ∷ []) (rows_in row_content rows.now.0)) }
{
    let inner = in_iteration(alloc, at, index)?;
    own_status(alloc, kind, inside, 0, &inner, rows)
}

// Whether one of so many iterations is Failed.
fn any_failed(
    alloc: Global,
    kind: &Kind,
    inside: &Inside,
    at: &Indexes,
    count: u64,
    rows: &Rows<Row>,
) -> Result<bool, AllocError>
    requires inside { inside_tree inside.now ≡ inside_of (kind_tree kind.now) }
    requires judged { AreJudged (kind_tree kind.now) }
    ensures { IfOk result (λ b. b ≡ any_own_failed (graphs_in (kind_tree kind.now)) at.now (rows_in row_content rows.now.0) count) }
{
    let mut failed = false;
    for index in 0..count {
        if !failed {
            failed = matches!(
                iteration_status(alloc, kind, inside, at, index, rows)?,
                Status::Failed
            );
        }
    }
    Ok(failed)
}

fn loop_status(failed: bool) -> Status
    ensures { result ≡ (if failed then Failed else Succeeded) }
{
    if failed {
        Status::Failed
    } else {
        Status::Succeeded
    }
}

// A Foreach keeps its items.
fn close_foreach(
    alloc: Global,
    kind: &Kind,
    inside: &Inside,
    decision: &Decision,
    at: &Indexes,
    rows: &Rows<Row>,
) -> Result<Done, AllocError>
    requires inside { inside_tree inside.now ≡ inside_of (kind_tree kind.now) }
    requires judged { AreJudged (kind_tree kind.now) }
    ensures { IfOk result (λ d. done_tree d
        ≡ foreach_closed (graphs_in (kind_tree kind.now)) at.now (rows_in row_content rows.now.0) (decision_tree decision.now)) }
{
    match decision {
        Decision::Each(items) => {
            let failed = any_failed(alloc, kind, inside, at, items.len(), rows)?;
            closed_as(
                alloc,
                loop_status(failed),
                Val::List(items.copy(alloc)?),
                Val::Null,
            )
        }
        Decision::TooMany => failed_by(alloc, "LimitExceeded", Val::Null),
        Decision::Faulty(fault) => faulted(alloc, fault, Val::Null),
        _ => faulted(alloc, &wrong_type(Fun::Foreach, 0), Val::Null),
    }
}

// How many iterations an Until had.
fn iterations_value(alloc: Global, count: u64) -> Result<Val, AllocError>
    requires { count < 2 ^ 63 }
    ensures { IfOk result (λ v. tree v ≡ iterations_value count) }
{
    let mut fields = Fields::new(alloc);
    fields.put(Text::of(alloc, "iterations")?, Val::Int(count as i64))?;
    Ok(Val::Obj(fields))
}

fn last_status(
    alloc: Global,
    kind: &Kind,
    inside: &Inside,
    at: &Indexes,
    count: u64,
    rows: &Rows<Row>,
) -> Result<Status, AllocError>
    requires inside { inside_tree inside.now ≡ inside_of (kind_tree kind.now) }
    requires judged { AreJudged (kind_tree kind.now) }
    ensures { IfOk result (λ s. s ≡ last_own_status (graphs_in (kind_tree kind.now)) at.now (rows_in row_content rows.now.0) count) }
{
    if count == 0 {
        Ok(Status::Succeeded)
    } else {
        iteration_status(alloc, kind, inside, at, count - 1, rows)
    }
}

// An Until ends as its last iteration; but where its count is reached it may be asked to fail, and a test that can't be told is a failure.
fn close_until(
    alloc: Global,
    fails: bool,
    status: Status,
    outputs: Val,
    verdict: Option<&Verdict>,
) -> Result<Done, AllocError>
    ensures { IfOk result (λ d. done_tree d
        ≡ close_until fails status (tree outputs) (option_map (λ v. verdict_tree v.now) verdict.entry)) }
{
    match verdict {
        Some(Verdict::Astray(fault)) => faulted(alloc, fault, outputs),
        Some(Verdict::Met(false)) if fails => failed_by(alloc, "LimitReached", outputs),
        _ => closed_as(alloc, status, Val::Null, outputs),
    }
}

// What a container comes to, by its own graphs.
fn close_by(
    alloc: Global,
    kind: &Kind,
    inside: &Inside,
    at: &Indexes,
    decision: &Decision,
    count: u64,
    verdict: Option<&Verdict>,
    rows: &Rows<Row>,
) -> Result<Done, AllocError>
    requires inside { inside_tree inside.now ≡ inside_of (kind_tree kind.now) }
    requires judged { AreJudged (kind_tree kind.now) }
    requires count { count < 2 ^ 63 }
    ensures { IfOk result (λ d. done_tree d ≡ closed_by (kind_tree kind.now) at.now (decision_tree decision.now) count
        (option_map (λ v. verdict_tree v.now) verdict.entry) (rows_in row_content rows.now.0)) }
{
    match kind {
        Kind::Scope { graph: _ } => {
            let status = own_status(alloc, kind, inside, 0, at, rows)?;
            unless_cut(alloc, kind, inside, at, rows, Val::Null, status)
        }
        Kind::If {
            test: _,
            yes: _,
            no: _,
        } => close_branch(alloc, kind, inside, decision, at, rows),
        Kind::Switch {
            on: _,
            cases: _,
            default,
        } => match default {
            Some(_) => close_branch(alloc, kind, inside, decision, at, rows),
            None => close_branch(alloc, kind, inside, decision, at, rows),
        },
        Kind::Foreach {
            list: _,
            repetitions: _,
            graph: _,
        } => close_foreach(alloc, kind, inside, decision, at, rows),
        Kind::Until {
            test: _,
            count: _,
            fails,
            graph: _,
        } => {
            let status = last_status(alloc, kind, inside, at, count, rows)?;
            close_until(
                alloc,
                *fails,
                status,
                iterations_value(alloc, count)?,
                verdict,
            )
        }
        _ => closed_as(alloc, Status::Succeeded, Val::Null, Val::Null),
    }
}

/// What a container comes to as it closes, at these indexes: by what it decided, how many iterations an Until had, its last test, and the
/// rows inside it ("Control workflow action types").
#[tactic(auto, using(crate::proofs::CloseLemmas::closed_is))]
pub fn close(
    alloc: Global,
    kind: &Kind,
    inside: &Inside,
    at: &Indexes,
    decision: &Decision,
    count: u64,
    verdict: Option<&Verdict>,
    rows: &Rows<Row>,
) -> Result<Done, AllocError>
    requires inside { inside_tree inside.now ≡ inside_of (kind_tree kind.now) }
    requires judged { AreJudged (kind_tree kind.now) }
    requires count { count < 2 ^ 63 }
    ensures { IfOk result (λ d. done_tree d ≡ closed (kind_tree kind.now) at.now (decision_tree decision.now) count
        (option_map (λ v. verdict_tree v.now) verdict.entry) (rows_in row_content rows.now.0)) }
{
    close_by(alloc, kind, inside, at, decision, count, verdict, rows)
}
