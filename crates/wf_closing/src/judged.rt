//! How a graph ended.
ghost use Rattle.std.specs.Prelude.{◌≡◌, ◌∷◌, ◌++◌, [], IfOk, OnOk, false, filter, length, map, not, option_map, replicate, set, suc, true, ℕ};
ghost use Rattle.std.specs.Prelude.{Bool, if◌then◌else◌};
ghost use Rattle.std.specs.List.{find, list_all, list_any};
ghost use Rattle.wf_asks.specs.Instances.{address_of, rows_in};
ghost use Rattle.wf_def.specs.ActionSeen.{action_tree};
ghost use Rattle.wf_def.specs.ActionTree.{action_number};
ghost use Rattle.wf_record.specs.declared.status.Status.TheVariants.{Failed, Succeeded};
ghost use Rattle.wf_meant.specs.Status.{judge, judge_row};
ghost use Rattle.wf_closing.specs.Judged.{fails_from, status_by};
ghost use Rattle.wf_closing.specs.Steps.{all_named, is_marked, is_ready, judged_of, needs_marked, size_of, step_of, steps_from};
ghost use Rattle.wf_closing.specs.StepsSeen.{judged_tree, row_content, step_tree};

use std::alloc::{AllocError, Global};
use wf_asks::{Instance, Rows};
use wf_def::{Action, Afters};
use wf_lists::TryCopy;
use wf_record::{Row, Status};
use wf_val::Indexes;

/// An action, and those of its graph that it waits for, by their numbers.
#[derive(Drop)]
pub struct Step {
    pub number: u32,
    pub after: Vec<u32>,
}

/// A graph as its status is judged: its actions, each behind those that it waits for, and the ones that no other waits for.
#[derive(Drop)]
pub struct Judged {
    pub size: usize,
    pub steps: Vec<Step>,
    pub ends: Vec<u32>,
}

fn is_marked(marks: &[bool], number: u32) -> bool
    ensures { result ≡ is_marked marks.now number }
{
    match marks.get(number as usize) {
        Some(mark) => *mark,
        None => false,
    }
}

fn all_marked(marks: &[bool], after: &Afters) -> bool
    ensures { result ≡ list_all (is_marked marks.now) (map (λ e. e.number) after.now) }
{
    for entry in after.as_slice() {
        if !is_marked(marks, entry.number) {
            return false;
        }
    }
    true
}

fn is_ready(marks: &[bool], action: &Action) -> bool
    ensures { result ≡ is_ready marks.now (action_tree action.now) }
{
    !is_marked(marks, action.number) && all_marked(marks, &action.after)
}

// The first action that isn't marked though all that it waits for are.
fn first_ready<'b>(graph: &'b [Action], marks: &[bool]) -> Option<&'b Action>
    ensures { option_map (λ a. action_tree a.now) result ≡ find (is_ready marks.now) (map action_tree graph.now) }
{
    for action in graph {
        if is_ready(marks, action) {
            return Some(action);
        }
    }
    None
}

fn after_of(alloc: Global, after: &Afters) -> Result<Vec<u32>, AllocError>
    ensures { IfOk result (λ numbers. numbers.items ≡ map (λ e. e.number) after.now) }
{
    let mut numbers = Vec::new(alloc);
    for entry in after.as_slice() {
        numbers.push(entry.number)?;
    }
    Ok(numbers)
}

fn step_of(alloc: Global, action: &Action) -> Result<Step, AllocError>
    ensures { IfOk result (λ s. step_tree s ≡ step_of (action_tree action.now)) }
{
    Ok(Step {
        number: action.number,
        after: after_of(alloc, &action.after)?,
    })
}

// Puts a mark at a number, where it has a place.
pub(crate) fn put_mark(marks: &mut Vec<bool>, number: u32, mark: bool)
    ensures { marks.new.items ≡ set marks.old.items number mark }
{
    if (number as usize) < marks.len() {
        marks[number as usize] = mark;
    }
}

// Takes an action as the next step.
fn take_step(
    alloc: Global,
    steps: &mut Vec<Step>,
    marks: &mut Vec<bool>,
    action: &Action,
) -> Result<(), AllocError>
    ensures steps { OnOk result (map step_tree steps.new.items ≡ map step_tree steps.old.items ++ step_of (action_tree action.now) ∷ []) }
    ensures marks { OnOk result (marks.new.items ≡ set marks.old.items (action_number (action_tree action.now)) true) }
{
    steps.push(step_of(alloc, action)?)?;
    put_mark(marks, action.number, true);
    Ok(())
}

// The next step, if there is one.
#[tactic(auto, using(crate::proofs::JudgedLemmas::next_step, crate::proofs::JudgedLemmas::no_step))]
fn take_next(
    alloc: Global,
    steps: &mut Vec<Step>,
    marks: &mut Vec<bool>,
    graph: &[Action],
) -> Result<(), AllocError>
    ensures { OnOk result ((turns : ℕ) → map step_tree steps.new.items ++ steps_from turns (map action_tree graph.now) marks.new.items
        ≡ map step_tree steps.old.items ++ steps_from (suc turns) (map action_tree graph.now) marks.old.items) }
{
    match first_ready(graph, marks) {
        Some(action) => take_step(alloc, steps, marks, action),
        None => Ok(()),
    }
}

fn steps_of(alloc: Global, graph: &[Action], size: usize) -> Result<Vec<Step>, AllocError>
    ensures { IfOk result (λ steps. map step_tree steps.items
        ≡ steps_from (length graph.now) (map action_tree graph.now) (replicate size false)) }
{
    let mut marks = vec![in alloc; false; size]?;
    let mut steps = Vec::with_capacity(alloc, graph.len())?;
    for _ in graph {
        take_next(alloc, &mut steps, &mut marks, graph)?;
    }
    Ok(steps)
}

fn size_of(graph: &[Action]) -> usize
    ensures { result ≡ size_of (map action_tree graph.now) }
{
    let mut size = 0;
    for action in graph {
        size = size.max(action.number as usize + 1);
    }
    size
}

// Marks the actions that are waited for.
fn mark_needs(marks: &mut Vec<bool>, after: &Afters)
    ensures { marks.new.items ≡ needs_marked (map (λ e. e.number) after.now) marks.old.items }
{
    for entry in after.as_slice() {
        put_mark(marks, entry.number, true);
    }
}

// Which actions some `runAfter` names.
fn named_of(alloc: Global, graph: &[Action], size: usize) -> Result<Vec<bool>, AllocError>
    ensures { IfOk result (λ named. named.items ≡ all_named (map action_tree graph.now) (replicate size false)) }
{
    let mut named = vec![in alloc; false; size]?;
    for action in graph {
        mark_needs(&mut named, &action.after);
    }
    Ok(named)
}

// Those that none names.
fn ends_of(alloc: Global, graph: &[Action], named: &[bool]) -> Result<Vec<u32>, AllocError>
    ensures { IfOk result (λ ends. ends.items
        ≡ filter (λ n. not (is_marked named.now n)) (map action_number (map action_tree graph.now))) }
{
    let mut ends = Vec::new(alloc);
    for action in graph {
        if !is_marked(named, action.number) {
            ends.push(action.number)?;
        }
    }
    Ok(ends)
}

impl Judged {
    /// The steps and the ends of a graph.
    #[tactic(auto, using(crate::proofs::JudgedLemmas::ends_are))]
    pub fn of(alloc: Global, graph: &[Action]) -> Result<Judged, AllocError>
        ensures { IfOk result (λ j. judged_tree j ≡ judged_of (map action_tree graph.now)) }
    {
        let size = size_of(graph);
        let named = named_of(alloc, graph, size)?;
        let ends = ends_of(alloc, graph, &named)?;
        Ok(Judged {
            size,
            steps: steps_of(alloc, graph, size)?,
            ends,
        })
    }

    /// How the graph ended at these indexes, by the rows that are there.
    #[tactic(auto, using(crate::proofs::JudgedLemmas::none_ends))]
    pub fn status(
        &self,
        alloc: Global,
        at: &Indexes,
        rows: &Rows<Row>,
    ) -> Result<Status, AllocError>
        ensures { IfOk result (λ s. s ≡ status_by at.now (rows_in row_content rows.now.0) (judged_tree self.now)) }
    {
        if all_pass(alloc, &self.steps, at, rows)? {
            return Ok(Status::Succeeded);
        }
        let fails = fails_of(alloc, &self.steps, self.size, at, rows)?;
        Ok(status_of(any_marked(&fails, &self.ends)))
    }
}

// Whether a judged row fails its graph, where a Skipped one hands the judgement on.
fn judge(status: Status, handed: bool) -> bool
    ensures { result ≡ judge status handed }
{
    match status {
        Status::Succeeded => false,
        Status::Skipped => handed,
        Status::Failed | Status::TimedOut | Status::Cancelled => true,
    }
}

fn judge_row(rows: &Rows<Row>, place: &Instance, handed: bool) -> bool
    ensures { result ≡ judge_row (rows_in row_content rows.now.0 (address_of place.now)) handed }
{
    match rows.get(place) {
        Some(found) => judge(found.row.status, handed),
        None => false,
    }
}

// Whether a row neither fails its graph nor hands the judgement on.
fn passes(rows: &Rows<Row>, place: &Instance) -> bool
    ensures { result ≡ true → (handed : Bool) → judge_row (rows_in row_content rows.now.0 (address_of place.now)) handed ≡ false }
{
    match rows.get(place) {
        Some(found) => matches!(found.row.status, Status::Succeeded),
        None => true,
    }
}

// Whether all rows pass, so that none has to be marked as one that fails the graph.
fn all_pass(
    alloc: Global,
    steps: &[Step],
    at: &Indexes,
    rows: &Rows<Row>,
) -> Result<bool, AllocError>
    ensures { IfOk result (λ all. all ≡ true → (size : ℕ) → fails_from at.now (rows_in row_content rows.now.0) (map step_tree steps.now)
        (replicate size false) ≡ replicate size false) }
{
    let mut place = Instance {
        action: 0,
        at: at.copy(alloc)?,
    };
    for step in steps {
        place.action = step.number;
        if !passes(rows, &place) {
            return Ok(false);
        }
    }
    Ok(true)
}

fn any_marked(marks: &[bool], numbers: &[u32]) -> bool
    ensures { result ≡ list_any (is_marked marks.now) numbers.now }
{
    for number in numbers {
        if is_marked(marks, *number) {
            return true;
        }
    }
    false
}

// Which actions fail the graph, where they are judged.
fn fails_of(
    alloc: Global,
    steps: &[Step],
    size: usize,
    at: &Indexes,
    rows: &Rows<Row>,
) -> Result<Vec<bool>, AllocError>
    ensures { IfOk result (λ fails. fails.items
        ≡ fails_from at.now (rows_in row_content rows.now.0) (map step_tree steps.now) (replicate size false)) }
{
    let mut place = Instance {
        action: 0,
        at: at.copy(alloc)?,
    };
    let mut fails = vec![in alloc; false; size]?;
    for step in steps {
        place.action = step.number;
        let failed = judge_row(rows, &place, any_marked(&fails, &step.after));
        put_mark(&mut fails, step.number, failed);
    }
    Ok(fails)
}

fn status_of(failed: bool) -> Status
    ensures { result ≡ (if failed then Failed else Succeeded) }
{
    if failed {
        Status::Failed
    } else {
        Status::Succeeded
    }
}
