//! The least address at which a record hasn't the right shape.
ghost use Rattle.std.specs.Prelude.{◌≡◌, IfOk, None, Some, flat_map, map, option_map};
ghost use Rattle.wf_def.specs.ActionSeen.{action_tree, kind_tree};
ghost use Rattle.wf_def.specs.ActionTree.{action_kind};
ghost use Rattle.wf_catalog.specs.ReadSeen.{def_tree};
ghost use Rattle.wf_record.specs.Seen.{record_tree, row_tree};
ghost use Rattle.wf_shaped.specs.Failing.{IsLeastFailing, missing_at_top_in, told_by_action, told_in, told_judged};
ghost use Rattle.wf_shaped.specs.Least.{least_from};
ghost use Rattle.wf_shaped.specs.Told.{missing_by, turns_told};
ghost use Rattle.wf_fits.specs.Reading.{reading};

use crate::judged::{Judged, judge};
use crate::least::Least;
use crate::missing::{missing_in_graph, missing_inside};
use std::alloc::{AllocError, Global};
use wf_catalog::{Def, items_said, rounds_said};
use wf_def::{Action, Kind};
use wf_fits::Ways;
use wf_record::{Record, Row};
use wf_val::{Address, Indexes};

// How many iterations the row of a loop says that it had.
fn turns_told(ways: &Ways<'_>, kind: &Kind, row: &Row) -> Option<u64>
    ensures { result ≡ turns_told (reading (def_tree ways.now)) (kind_tree kind.now) (row_tree row.now).row }
{
    let _ = ways;
    match kind {
        Kind::Foreach {
            list: _,
            repetitions: _,
            graph: _,
        } => Some(items_said(row)),
        Kind::Until {
            test: _,
            count: _,
            fails: _,
            graph: _,
        } => Some(rounds_said(row)),
        _ => None,
    }
}

#[tactic(auto, using(wf_catalog::proofs::PlaceLemmas::kind_is))]
fn kind_of(action: &Action) -> &Kind
    ensures { kind_tree result.now ≡ action_kind (action_tree action.now) }
{
    &action.kind
}

// The least of these and of what is missing inside an action whose row is right.
fn with_missing(
    alloc: Global,
    ways: &Ways<'_>,
    log: &Record,
    action: &Action,
    row: &Row,
    least: Least,
) -> Result<Least, AllocError>
    ensures { IfOk result (λ l. l.address ≡ least_from least.address
        (missing_by (reading (def_tree ways.now)) (record_tree log.now).rows (action_tree action.now) (row_tree row.now))) }
{
    let kind = kind_of(action);
    let turns = turns_told(ways, kind, row);
    missing_inside(alloc, log, kind, &row.address.at, turns, least)
}

// And of what fails by a row that is judged so.
fn with_judgement(
    alloc: Global,
    ways: &Ways<'_>,
    log: &Record,
    action: &Action,
    row: &Row,
    judged: Judged,
    least: Least,
) -> Result<Least, AllocError>
    ensures { IfOk result (λ l. l.address ≡ least_from least.address (told_judged (def_tree ways.now) (record_tree log.now).rows
        (row_tree row.now) (action_tree action.now) judged)) }
{
    match judged {
        Judged::Right => with_missing(alloc, ways, log, action, row, least),
        Judged::Fails => least.with_copy(alloc, &row.address),
        Judged::Unsaid => Ok(least),
    }
}

fn with_judged(
    alloc: Global,
    ways: &Ways<'_>,
    log: &Record,
    action: &Action,
    row: &Row,
    least: Least,
) -> Result<Least, AllocError>
    ensures { IfOk result (λ l. l.address ≡ least_from least.address
        (told_by_action (def_tree ways.now) (record_tree log.now).rows (row_tree row.now) (Some (action_tree action.now)))) }
{
    let judged = judge(alloc, ways, log, action, row)?;
    with_judgement(alloc, ways, log, action, row, judged, least)
}

fn with_named(
    alloc: Global,
    ways: &Ways<'_>,
    log: &Record,
    action: Option<&Action>,
    row: &Row,
    least: Least,
) -> Result<Least, AllocError>
    ensures { IfOk result (λ l. l.address ≡ least_from least.address (told_by_action (def_tree ways.now) (record_tree log.now).rows
        (row_tree row.now) (option_map (λ a. action_tree a.now) action.entry))) }
{
    match action {
        Some(action) => with_judged(alloc, ways, log, action, row, least),
        None => least.with_copy(alloc, &row.address),
    }
}

fn with_row(
    alloc: Global,
    ways: &Ways<'_>,
    log: &Record,
    row: &Row,
    least: Least,
) -> Result<Least, AllocError>
    ensures { IfOk result (λ l. l.address
        ≡ least_from least.address (told_in (def_tree ways.now) (record_tree log.now).rows (row_tree row.now))) }
{
    let action = ways.named(&row.address.name);
    with_named(alloc, ways, log, action, row, least)
}

fn with_rows(
    alloc: Global,
    ways: &Ways<'_>,
    log: &Record,
    rows: &[Row],
    least: Least,
) -> Result<Least, AllocError>
    ensures { IfOk result (λ l. l.address ≡ least_from least.address
        (flat_map (told_in (def_tree ways.now) (record_tree log.now).rows) (map row_tree rows.now))) }
{
    let mut least = least;
    for row in rows {
        least = with_row(alloc, ways, log, row, least)?;
    }
    Ok(least)
}

// The least of what is missing in the definition's own graph.
fn missing_at_top(alloc: Global, def: &Def, log: &Record) -> Result<Least, AllocError>
    ensures { IfOk result (λ l. l.address ≡ least_from None (missing_at_top_in (def_tree def.now) (record_tree log.now).rows)) }
{
    let least = Least { address: None };
    missing_in_graph(alloc, log, &def.top, &Indexes::new(alloc), None, least)
}

/// The least address at which the record fails: where a row is missing, isn't such as is called for, or is one too many. None, where the
/// record has the right shape for the definition.
///
/// It goes once over the rows. For each it searches the rows of the containers round it, and, where it is right, those that it calls for
/// inside it, up to the first that is missing in each action there.
pub fn least_failing(alloc: Global, def: &Def, log: &Record) -> Result<Option<Address>, AllocError>
    ensures { IfOk result (λ o. IsLeastFailing (def_tree def.now) (record_tree log.now).rows o) }
{
    wf_catalog::names_stand_once();
    wf_catalog::numbers_stand_once();
    wf_catalog::read_actions_have_their_numbers();
    wf_fits::numbers_have_the_kinds_of_their_actions();
    def.always_read();
    let ways = Ways::of(alloc, def)?;
    let top = missing_at_top(alloc, def, log)?;
    let least = with_rows(alloc, &ways, log, log.rows.as_slice(), top)?;
    Ok(least.address)
}
