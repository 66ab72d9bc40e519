//! What a container decides.
ghost use Rattle.std.specs.Prelude.{◌≡◌, IfOk};
ghost use Rattle.wf_val.specs.Seen.{tree};
ghost use Rattle.wf_template.specs.CondSeen.{cond_tree};
ghost use Rattle.wf_template.specs.DataSeen.{data_tree};
ghost use Rattle.wf_template.specs.TemplateSeen.{template_tree};
ghost use Rattle.wf_def.specs.ActionSeen.{cases_seen, kind_tree};
ghost use Rattle.wf_def.specs.ActionTree.{case_trees};
ghost use Rattle.wf_eval.specs.TemplateValue.{template_value};
ghost use Rattle.wf_eval.specs.TreeValue.{tree_value};
ghost use Rattle.wf_eval.specs.Truth.{truth_of};
ghost use Rattle.wf_opening.specs.DecisionSeen.{decision_tree};
ghost use Rattle.wf_opening.specs.Decisions.{branch_from, chosen_as, decided_from, each_as, held_as, items_of, taken};

use std::alloc::{AllocError, Global};
use wf_def::{Cases, Kind};
use wf_eval::{Look, eval, eval_cond, eval_tree};
use wf_template::{Cond, Template, Tree};
use wf_val::{EvalFault, Fun, Val, Vals, wrong_type};

/// What a container found as it opened.
#[derive(Drop)]
pub enum Decision {
    /// Nothing is decided: a Scope, an Until.
    Nothing,
    /// Whether the condition of an If holds.
    Held(bool),
    /// The value of a Switch, and the number of the branch that it means: of its cases in the order of their names, counted from 1, and
    /// behind them of the default, or of no graph where there is none.
    Chosen { value: Val, branch: u64 },
    /// The items of a Foreach.
    Each(Vals),
    /// A Foreach has over 100,000 items.
    TooMany,
    /// The condition, the expression or the list has no value, or none of the kind that is asked.
    Faulty(EvalFault),
}

fn held<L: Look>(alloc: Global, condition: &Cond, look: &mut L) -> Result<Decision, AllocError>
    ensures decision { IfOk result (λ d. decision_tree d
        ≡ held_as (truth_of (L.told look.old) (cond_tree condition.now) (L.drawn look.old)).0) }
    ensures same { L.told look.new ≡ L.told look.old }
    ensures held { L.held look.new ≡ L.held look.old }
{
    match eval_cond(alloc, condition, look) {
        Ok(holds) => Ok(Decision::Held(holds)),
        Err(EvalFault::Memory) => Err(AllocError),
        Err(fault) => Ok(Decision::Faulty(fault)),
    }
}

/// The number of the first case that is the value, else of the branch behind all cases.
fn branch_of(cases: &Cases, value: &Val) -> u64
    ensures { result ≡ branch_from 1 (case_trees (cases_seen cases.now)) (tree value.now) }
{
    let mut branch = 1;
    for case in cases.as_slice() {
        if case.value.order(value).is_eq() {
            return branch;
        }
        branch += 1;
    }
    branch
}

fn chosen_as(cases: &Cases, value: Val) -> Decision
    ensures { decision_tree result ≡ chosen_as (case_trees (cases_seen cases.now)) (Ok (tree value)) }
{
    match value {
        Val::Text(_) | Val::Int(_) => {
            let branch = branch_of(cases, &value);
            Decision::Chosen { value, branch }
        }
        _ => Decision::Faulty(wrong_type(Fun::Switch, 0)),
    }
}

fn chosen<L: Look>(
    alloc: Global,
    on: &Template,
    cases: &Cases,
    look: &mut L,
) -> Result<Decision, AllocError>
    ensures decision { IfOk result (λ d. decision_tree d
        ≡ chosen_as (case_trees (cases_seen cases.now)) (template_value (L.told look.old) (template_tree on.now) (L.drawn look.old)).0) }
    ensures same { L.told look.new ≡ L.told look.old }
    ensures held { L.held look.new ≡ L.held look.old }
{
    match eval(alloc, on, look) {
        Ok(value) => Ok(chosen_as(cases, value)),
        Err(EvalFault::Memory) => Err(AllocError),
        Err(fault) => Ok(Decision::Faulty(fault)),
    }
}

#[tactic(auto, using(wf_val::proofs::ValueTreeLemmas::listed))]
fn each_as(value: Val) -> Decision
    ensures { decision_tree result ≡ each_as (Ok (tree value)) }
{
    match value {
        Val::List(items) => {
            if items.len() <= 100_000 {
                Decision::Each(items)
            } else {
                Decision::TooMany
            }
        }
        _ => Decision::Faulty(wrong_type(Fun::Foreach, 0)),
    }
}

fn each<L: Look>(alloc: Global, list: &Tree, look: &mut L) -> Result<Decision, AllocError>
    ensures decision { IfOk result (λ d. decision_tree d
        ≡ each_as (tree_value (L.told look.old) (data_tree list.now) (L.drawn look.old)).0) }
    ensures same { L.told look.new ≡ L.told look.old }
    ensures held { L.held look.new ≡ L.held look.old }
{
    match eval_tree(alloc, list, look) {
        Ok(value) => Ok(each_as(value.shared(alloc)?)),
        Err(EvalFault::Memory) => Err(AllocError),
        Err(fault) => Ok(Decision::Faulty(fault)),
    }
}

/// What a container decides as it opens, by its kind; what is no container decides nothing.
pub fn open<L: Look>(alloc: Global, kind: &Kind, look: &mut L) -> Result<Decision, AllocError>
    ensures decision { IfOk result (λ d. decision_tree d ≡ decided_from (L.told look.old) (kind_tree kind.now) (L.drawn look.old)) }
    ensures same { L.told look.new ≡ L.told look.old }
    ensures held { L.held look.new ≡ L.held look.old }
{
    match kind {
        Kind::If {
            test,
            yes: _,
            no: _,
        } => held(alloc, test, look),
        Kind::Switch { on, cases, default } => match default {
            Some(_) => chosen(alloc, on, cases, look),
            None => chosen(alloc, on, cases, look),
        },
        Kind::Foreach {
            list,
            repetitions: _,
            graph: _,
        } => each(alloc, list, look),
        _ => Ok(Decision::Nothing),
    }
}

/// The number of the branch that a decision means, counted from 1; 0 where it means none.
pub fn taken(decision: &Decision) -> u64
    ensures { result ≡ taken (decision_tree decision.now) }
{
    match decision {
        Decision::Held(holds) => { if *holds { 1 } else { 2 } }
        Decision::Chosen { value: _, branch } => *branch,
        _ => 0,
    }
}

/// How many iterations of a Foreach a decision means.
pub fn items_of(decision: &Decision) -> u64
    ensures { result ≡ items_of (decision_tree decision.now) }
{
    match decision {
        Decision::Each(items) => items.len(),
        _ => 0,
    }
}
