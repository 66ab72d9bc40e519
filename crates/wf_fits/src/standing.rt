//! How an instance stands to the rows of a record.
ghost use Rattle.std.specs.Prelude.{◌≡◌, ◌++◌, ◌∷◌, [], false, IfOk, map, option_map};
ghost use Rattle.wf_def.specs.ActionSeen.{action_tree};
ghost use Rattle.wf_def.specs.ActionTree.{action_name};
ghost use Rattle.wf_fits.specs.Fits.{along_in, entry_by, entry_past, fits_in, fitting, stands_in, steps_of, turn_of};
ghost use Rattle.wf_fits.specs.FitsSeen.{entry_tree, standing_tree};
ghost use Rattle.wf_fits.specs.WalkSeen.{into_tree, step_tree};
ghost use Rattle.wf_layers.specs.Address.{address};
ghost use Rattle.wf_catalog.specs.Resubmitted.{rows_by};
ghost use Rattle.wf_catalog.specs.ReadSeen.{def_tree};
ghost use Rattle.wf_record.specs.Record.{find_row};
ghost use Rattle.wf_record.specs.Seen.{record_tree, row_tree};
ghost use Rattle.wf_shape.specs.Standing.{own};
ghost use Rattle.wf_turns.specs.Reading.{taken_in};

use crate::step::{Into, Step};
use crate::ways::Ways;
use std::alloc::{AllocError, Global};
use wf_catalog::{branch_said, fits, is_skipped, items_said, kind_of, name_of, rounds_said};
use wf_def::Action;
use wf_record::{Record, Row};
use wf_val::{Address, Indexes};

/// Whether a record has to have a row.
#[derive(Clone, Copy)]
pub enum Standing {
    /// It has to, and where this is true a Skipped one.
    Called(bool),
    /// That isn't said, since the row of a container round it is missing or isn't such as is called for.
    Unsaid,
    /// It mustn't.
    Uncalled,
}

// How what stands in a container is reached past its row: as one that has to be Skipped or not, or by an index below a number.
#[derive(Clone, Copy)]
enum Entry {
    Through(bool),
    Turns(u64),
}

fn own(skipped: bool, rest: &[u64]) -> Standing
    ensures { standing_tree result ≡ own skipped rest.now }
{
    match rest {
        [] => Standing::Called(skipped),
        _ => Standing::Uncalled,
    }
}

fn taken_in(action: Option<&Action>, row: &Row) -> u64
    ensures { result ≡ taken_in (option_map (λ a. action_tree a.now) action.entry) (row_tree row.now).row }
{
    match action {
        Some(action) => branch_said(kind_of(action), row),
        None => 0,
    }
}

fn entered(into: Into, action: Option<&Action>, row: &Row) -> Entry
    ensures { entry_tree result
        ≡ entry_by (into_tree into) (option_map (λ a. action_tree a.now) action.entry) (row_tree row.now).row }
{
    match into {
        Into::Whole => Entry::Through(is_skipped(row)),
        Into::Branch(number) => {
            Entry::Through(is_skipped(row) || number != taken_in(action, row))
        }
        Into::Item => Entry::Turns(items_said(row)),
        Into::Round => Entry::Turns(rounds_said(row)),
    }
}

fn indexes_then(alloc: Global, at: &[u64], last: u64) -> Result<Indexes, AllocError>
    ensures { IfOk result (λ is. is ≡ at.now ++ last ∷ []) }
{
    let mut indexes = indexes(alloc, at)?;
    indexes.push(last)?;
    Ok(indexes)
}

fn indexes(alloc: Global, at: &[u64]) -> Result<Indexes, AllocError>
    ensures { IfOk result (λ is. is ≡ at.now) }
{
    let mut indexes = Indexes::new(alloc);
    for index in at {
        indexes.push(*index)?;
    }
    Ok(indexes)
}

fn row_of<'a>(
    alloc: Global,
    log: &'a Record,
    action: &Action,
    at: &[u64],
) -> Result<Option<&'a Row>, AllocError>
    ensures { IfOk result (λ r. option_map (λ r. (row_tree r.now).row) r
        ≡ option_map (λ r. r.row)
        (find_row (record { name = action_name (action_tree action.now); at = at.now }) (record_tree log.now).rows)) }
{
    let address = Address {
        name: name_of(action).copy(alloc)?,
        at: indexes(alloc, at)?,
    };
    Ok(log.row(&address))
}

/// Whether a row may be one of the action of a number, where it has to be Skipped or not.
pub fn may_be(ways: &Ways<'_>, number: u32, skipped: bool, row: &Row) -> bool
    ensures { result ≡ fits_in (def_tree ways.now) number skipped (row_tree row.now).row }
{
    match ways.action(number) {
        Some(action) => fits(ways.sort(number), kind_of(action), skipped, row),
        None => false,
    }
}

// The row of an instance, where it fits.
fn row_fitting<'a>(
    alloc: Global,
    ways: &Ways<'_>,
    log: &'a Record,
    number: u32,
    skipped: bool,
    at: &[u64],
) -> Result<Option<&'a Row>, AllocError>
    ensures { IfOk result (λ r. option_map (λ r. (row_tree r.now).row) r
        ≡ fitting (fits_in (def_tree ways.now) number skipped)
        (rows_by (def_tree ways.now) (record_tree log.now).rows (address number at.now))) }
{
    match ways.action(number) {
        Some(action) => {
            match row_of(alloc, log, action, at)? {
                Some(row) if fits(ways.sort(number), kind_of(action), skipped, row) => {
                    Ok(Some(row))
                }
                _ => Ok(None),
            }
        }
        None => Ok(None),
    }
}

// How the way goes on past the row of a container, where that fits.
fn past(
    alloc: Global,
    ways: &Ways<'_>,
    log: &Record,
    step: Step,
    skipped: bool,
    at: &[u64],
) -> Result<Option<Entry>, AllocError>
    ensures { IfOk result (λ e. option_map entry_tree e
        ≡ entry_past (def_tree ways.now) (record_tree log.now).rows (step_tree step) skipped at.now) }
{
    match row_fitting(alloc, ways, log, step.container, skipped, at)? {
        Some(row) => Ok(Some(entered(step.into, ways.action(step.container), row))),
        None => Ok(None),
    }
}

// The first step, and those behind it.
fn first_of(steps: &[Step]) -> Option<(Step, &[Step])>
    ensures { map step_tree steps.now ≡ steps_of (option_map (λ p. (step_tree p.0, map step_tree p.1.now)) result) }
{
    match steps {
        [] => None,
        [step, more @ ..] => Some((*step, more)),
    }
}

// The first index, where it is below a number, and those behind it.
fn turn_of(count: u64, rest: &[u64]) -> Option<(u64, &[u64])>
    ensures { option_map (λ p. (p.0, p.1.now)) result ≡ turn_of count rest.now }
{
    match rest {
        [index, later @ ..] if *index < count => Some((*index, later)),
        _ => None,
    }
}

// At the indexes `at`, with `rest` left, on the steps that are left of a way.
#[tactic(auto)]
fn along(
    alloc: Global,
    ways: &Ways<'_>,
    log: &Record,
    steps: &[Step],
    skipped: bool,
    at: &[u64],
    rest: &[u64],
) -> Result<Standing, AllocError>
    ensures { IfOk result (λ s. standing_tree s
        ≡ along_in (def_tree ways.now) (record_tree log.now).rows (map step_tree steps.now) skipped at.now rest.now) }
{
    let Some((step, more)) = first_of(steps) else {
        return Ok(own(skipped, rest));
    };
    match past(alloc, ways, log, step, skipped, at)? {
        Some(Entry::Through(skipped)) => along(alloc, ways, log, more, skipped, at, rest),
        Some(Entry::Turns(count)) => {
            let Some((index, later)) = turn_of(count, rest) else {
                return Ok(Standing::Uncalled);
            };
            let inner = indexes_then(alloc, at, index)?;
            along(alloc, ways, log, more, false, inner.as_slice(), later)
        }
        None => Ok(Standing::Unsaid),
    }
}

/// How an action stands to the rows of a record at these indexes. It searches one row for each container round the action.
pub fn stands(
    alloc: Global,
    ways: &Ways<'_>,
    log: &Record,
    number: u32,
    at: &[u64],
) -> Result<Standing, AllocError>
    ensures { IfOk result (λ s. standing_tree s
        ≡ stands_in (def_tree ways.now) (record_tree log.now).rows (address number at.now)) }
{
    along(alloc, ways, log, ways.way(number), false, &[], at)
}
