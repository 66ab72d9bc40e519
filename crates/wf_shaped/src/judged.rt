//! Whether a row is such as its record calls for.
ghost use Rattle.std.specs.Prelude.{◌≡◌, IfOk, if◌then◌else◌};
ghost use Rattle.wf_def.specs.ActionSeen.{action_tree};
ghost use Rattle.wf_fits.specs.Fits.{fits_in};
ghost use Rattle.wf_fits.specs.FitsSeen.{standing_tree};
ghost use Rattle.wf_catalog.specs.ReadSeen.{def_tree};
ghost use Rattle.wf_record.specs.Seen.{record_tree, row_tree};
ghost use Rattle.wf_shaped.specs.Failing.{judged_in};
ghost use Rattle.wf_shaped.specs.Told.{judged_as};
ghost use Rattle.wf_shaped.specs.declared.judged.Judged.{Judged};

use std::alloc::{AllocError, Global};
use wf_def::Action;
use wf_fits::{Standing, Ways, may_be, stands};
use wf_record::{Record, Row};

/// How a row of an action is judged.
#[derive(Clone, Copy)]
pub(crate) enum Judged {
    /// It is called for, and such as is.
    Right,
    /// It is called for as another, or it isn't called for.
    Fails,
    /// That isn't said, since the row of a container round it is missing or isn't right.
    Unsaid,
}

fn right_where(holds: bool) -> Judged
    ensures { result ≡ (if holds then Judged.Right else Judged.Fails) }
{
    if holds { Judged::Right } else { Judged::Fails }
}

fn judged_as(ways: &Ways<'_>, number: u32, standing: Standing, row: &Row) -> Judged
    ensures { result ≡ judged_as (fits_in (def_tree ways.now) number) (standing_tree standing) (row_tree row.now).row }
{
    match standing {
        Standing::Called(skipped) => right_where(may_be(ways, number, skipped, row)),
        Standing::Unsaid => Judged::Unsaid,
        Standing::Uncalled => Judged::Fails,
    }
}

/// How a row is judged that has the name of this action.
pub(crate) fn judge(
    alloc: Global,
    ways: &Ways<'_>,
    log: &Record,
    action: &Action,
    row: &Row,
) -> Result<Judged, AllocError>
    ensures { IfOk result (λ j. j
        ≡ judged_in (def_tree ways.now) (record_tree log.now).rows (action_tree action.now) (row_tree row.now)) }
{
    let standing = stands(alloc, ways, log, action.number, row.address.at.as_slice())?;
    Ok(judged_as(ways, action.number, standing, row))
}
