//! What is told of an Open.
ghost use Rattle.std.specs.Prelude.{◌≡◌, ◌∷◌, ◌++◌, codes, decimal, IfOk, OnOk, option_map};
ghost use Rattle.wf_json.specs.FaultText.{fault_text};
ghost use Rattle.wf_def.specs.ActionSeen.{case_tree, cases_seen, kind_tree};
ghost use Rattle.wf_def.specs.ActionTree.{case_trees};
ghost use Rattle.wf_opening.specs.DecisionSeen.{decision_tree};
ghost use Rattle.wf_trace.specs.Texts.{case_at, case_text, cases_of, open_text};
ghost use Rattle.wf_trace.specs.Told.{line_at};

use crate::fault::add_fault;
use crate::line::{add, front};
use std::alloc::{AllocError, Global};
use wf_def::{Case, Cases, Kind};
use wf_json::quote_to;
use wf_lines::put_number;
use wf_opening::Decision;
use wf_val::{EvalFault, Indexes, Name};

// The case of a number, counted from 1.
fn case_at(cases: &Cases, branch: u64) -> Option<&Case>
    ensures { option_map (λ c. case_tree c.now) result ≡ case_at (cases_seen cases.now) branch }
{
    if branch == 0 {
        None
    } else {
        cases.at(branch - 1)
    }
}

// The name of a case.
#[tactic(auto, using(crate::proofs::LineLemmas::case_name))]
fn name_of(case: &Case) -> &Name
    ensures { result.now ≡ (case_tree case.now).0 }
{
    &case.name
}

// Adds the name of a case, or that it is the default which is meant.
#[tactic(auto, using(crate::proofs::LineLemmas::case_found, crate::proofs::LineLemmas::no_case))]
fn add_case(line: &mut Vec<u8>, cases: &Cases, branch: u64) -> Result<(), AllocError>
    ensures { OnOk result (line.new.items ≡ line.old.items ++ case_text (case_trees (cases_seen cases.now)) branch) }
{
    match case_at(cases, branch) {
        Some(case) => quote_to(line, name_of(case).as_str()),
        None => add(line, "default"),
    }
}

// Adds which branch of a Switch is meant.
fn add_branch(line: &mut Vec<u8>, kind: &Kind, branch: u64) -> Result<(), AllocError>
    ensures { OnOk result (line.new.items ≡ line.old.items ++ case_text (cases_of (kind_tree kind.now)) branch) }
{
    match kind {
        Kind::Switch { cases, .. } => add_case(line, cases, branch),
        _ => add(line, "default"),
    }
}

#[tactic(auto, using(std::proofs::Common::append_assoc))]
fn add_spaced_branch(line: &mut Vec<u8>, kind: &Kind, branch: u64) -> Result<(), AllocError>
    ensures { OnOk result (line.new.items ≡ line.old.items ++ 32 ∷ case_text (cases_of (kind_tree kind.now)) branch) }
{
    line.push(b' ')?;
    add_branch(line, kind, branch)
}

#[tactic(auto, using(std::proofs::Common::append_assoc))]
fn add_spaced_number(line: &mut Vec<u8>, number: u64) -> Result<(), AllocError>
    ensures { OnOk result (line.new.items ≡ line.old.items ++ 32 ∷ decimal number) }
{
    line.push(b' ')?;
    put_number(line, number)
}

#[tactic(auto, using(std::proofs::Common::append_assoc))]
fn add_spaced_fault(alloc: Global, line: &mut Vec<u8>, fault: &EvalFault) -> Result<(), AllocError>
    ensures { OnOk result (line.new.items ≡ line.old.items ++ (codes " !" ++ fault_text fault.now)) }
{
    line.push(b' ')?;
    add_fault(alloc, line, fault)
}

// Adds a blank and what a container decided; where it decides nothing, nothing.
fn add_decision(
    alloc: Global,
    line: &mut Vec<u8>,
    kind: &Kind,
    decision: &Decision,
) -> Result<(), AllocError>
    ensures { OnOk result (line.new.items ≡ line.old.items ++ open_text (kind_tree kind.now) (decision_tree decision.now)) }
{
    match decision {
        Decision::Nothing => add(line, ""),
        Decision::Held(true) => add(line, " true"),
        Decision::Held(false) => add(line, " false"),
        Decision::Chosen { value: _, branch } => add_spaced_branch(line, kind, *branch),
        Decision::Each(items) => add_spaced_number(line, items.len()),
        Decision::TooMany => add(line, " !LimitExceeded"),
        Decision::Faulty(fault) => add_spaced_fault(alloc, line, fault),
    }
}

/// A container of this kind has opened, and this is what it decided.
#[tactic(auto, using(crate::proofs::LineLemmas::line_is))]
pub fn open_line(
    alloc: Global,
    name: &Name,
    at: &Indexes,
    kind: &Kind,
    decision: &Decision,
) -> Result<Vec<u8>, AllocError>
    ensures { IfOk result (λ line. line.items ≡ line_at (codes "Open") name.now at.now
        (open_text (kind_tree kind.now) (decision_tree decision.now))) }
{
    let mut line = front(alloc, "Open", name, at)?;
    add_decision(alloc, &mut line, kind, decision)?;
    Ok(line)
}
