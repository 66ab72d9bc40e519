//! What `actions` and `result` give.
ghost use Rattle.std.specs.Prelude.{◌≡◌, ◌++◌, IfOk, Some, map, option_map};
ghost use Rattle.wf_def.specs.ActionSeen.{action_tree};
ghost use Rattle.wf_catalog.specs.Looked.{or_null};
ghost use Rattle.wf_catalog.specs.References.{latest, view_in, view_there};
ghost use Rattle.wf_val.specs.Seen.{tree};
ghost use Rattle.wf_catalog.specs.ReadSeen.{def_tree};
ghost use Rattle.wf_catalog.specs.PlacesSeen.{named_tree};
ghost use Rattle.wf_views.specs.Seen.{rows_seen, spots_seen};
ghost use Rattle.wf_views.specs.Views.{result_by_loops, result_from, result_of, result_views, results_in, view_by_loops, view_from, views_at, views_in};

use crate::inner::inner_of;
use crate::rows::{indexes_then, row_at, view_of};
use crate::spots::{Spots, beyond, common, front, last_of, spots_by, with_own};
use std::alloc::{AllocError, Global};
use wf_asks::Rows;
use wf_catalog::{Named, Places, kind_of, name_of, number_of};
use wf_def::Action;
use wf_record::Row;
use wf_val::{Indexes, Name, Val, Vals};

// The view of an action at indexes, if it has a row there.
fn view_there(
    alloc: Global,
    rows: &Rows<Row>,
    action: &Action,
    at: &[u64],
) -> Result<Option<Val>, AllocError>
    ensures { IfOk result (λ v. option_map tree v ≡ view_there (action_tree action.now) (rows_seen rows.now.0) at.now) }
{
    match row_at(alloc, rows, number_of(action), at)? {
        Some(row) => Ok(Some(view_of(alloc, name_of(action), row)?)),
        None => Ok(None),
    }
}

// The same, where null stands for none.
fn view_or_null(
    alloc: Global,
    rows: &Rows<Row>,
    action: &Action,
    at: &[u64],
) -> Result<Val, AllocError>
    ensures { IfOk result (λ v. tree v ≡ or_null (view_there (action_tree action.now) (rows_seen rows.now.0) at.now)) }
{
    match view_there(alloc, rows, action, at)? {
        Some(view) => Ok(view),
        None => Ok(Val::Null),
    }
}

// The views of so many iterations.
#[tactic(auto, using(crate::proofs::ViewLemmas::views_more))]
fn views_of(
    alloc: Global,
    rows: &Rows<Row>,
    action: &Action,
    at: &[u64],
    count: u64,
) -> Result<Vals, AllocError>
    ensures { IfOk result (λ vs. vs ≡ views_in (rows_seen rows.now.0) (action_tree action.now) at.now count) }
{
    let mut views = Vals::new(alloc);
    for index in 0..count {
        let inner = indexes_then(alloc, at, index)?;
        views.push(view_or_null(alloc, rows, action, inner.as_slice())?)?;
    }
    Ok(views)
}

// The view at these indexes; null where there are none.
fn view_of_last(
    alloc: Global,
    rows: &Rows<Row>,
    action: &Action,
    last: Option<Indexes>,
) -> Result<Option<Val>, AllocError>
    ensures { IfOk result (λ v. option_map tree v ≡ view_in (action_tree action.now) (rows_seen rows.now.0) (latest last)) }
{
    match last {
        None => Ok(Some(Val::Null)),
        Some(at) => view_there(alloc, rows, action, at.as_slice()),
    }
}

fn view_in(
    alloc: Global,
    rows: &Rows<Row>,
    action: &Action,
    at: &[u64],
    spots: Spots,
) -> Result<Option<Val>, AllocError>
    ensures { IfOk result (λ v. option_map tree v
        ≡ view_in (action_tree action.now) (rows_seen rows.now.0) (spots_seen at.now spots)) }
{
    match spots {
        Spots::One => view_there(alloc, rows, action, at),
        Spots::Every(count) => Ok(Some(Val::List(views_of(alloc, rows, action, at, count)?))),
        Spots::Last(count) => view_of_last(alloc, rows, action, last_of(alloc, at, count)?),
    }
}

fn view_by(
    alloc: Global,
    places: &Places<'_>,
    rows: &Rows<Row>,
    loops: &[u32],
    at: &[u64],
    action: &Action,
) -> Result<Option<Val>, AllocError>
    ensures { IfOk result (λ v. option_map tree v
        ≡ view_by_loops (def_tree places.now) loops.now at.now (rows_seen rows.now.0) (Some (action_tree action.now))) }
{
    let round = places.loops(number_of(action));
    let shared = front(at, common(round, loops));
    match spots_by(alloc, places, rows, beyond(round, loops), shared)? {
        Some(spots) => view_in(alloc, rows, action, shared, spots),
        None => Ok(None),
    }
}

/// What `actions` gives of a name, from inside these loops at these indexes.
pub fn view_from(
    alloc: Global,
    places: &Places<'_>,
    rows: &Rows<Row>,
    loops: &[u32],
    at: &[u64],
    name: &Name,
) -> Result<Option<Val>, AllocError>
    ensures { IfOk result (λ v. option_map tree v ≡ view_from (def_tree places.now) loops.now at.now (rows_seen rows.now.0) name.now) }
{
    match places.named(name) {
        Some(action) => view_by(alloc, places, rows, loops, at, action),
        None => Ok(None),
    }
}

// The views of several actions at indexes, behind those that are there.
fn with_views(
    alloc: Global,
    rows: &Rows<Row>,
    inner: &[Named<'_>],
    at: &[u64],
    found: Vals,
) -> Result<Vals, AllocError>
    ensures { IfOk result (λ vs. vs ≡ found ++ views_at (rows_seen rows.now.0) (map named_tree inner.now) at.now) }
{
    let mut views = found;
    for named in inner {
        views.push(view_or_null(alloc, rows, named.action, at)?)?;
    }
    Ok(views)
}

#[tactic(auto, using(crate::proofs::ViewLemmas::results_more))]
fn views_of_every(
    alloc: Global,
    rows: &Rows<Row>,
    inner: &[Named<'_>],
    at: &[u64],
    count: u64,
) -> Result<Vals, AllocError>
    ensures { IfOk result (λ vs. vs ≡ results_in (rows_seen rows.now.0) (map named_tree inner.now) at.now count) }
{
    let mut views = Vals::new(alloc);
    for index in 0..count {
        let iteration = indexes_then(alloc, at, index)?;
        views = with_views(alloc, rows, inner, iteration.as_slice(), views)?;
    }
    Ok(views)
}

fn views_of_last(
    alloc: Global,
    rows: &Rows<Row>,
    inner: &[Named<'_>],
    last: Option<Indexes>,
) -> Result<Vals, AllocError>
    ensures { IfOk result (λ vs. vs ≡ result_views (rows_seen rows.now.0) (map named_tree inner.now) (latest last)) }
{
    match last {
        None => Ok(Vals::new(alloc)),
        Some(at) => with_views(alloc, rows, inner, at.as_slice(), Vals::new(alloc)),
    }
}

fn result_in(
    alloc: Global,
    rows: &Rows<Row>,
    inner: &[Named<'_>],
    at: &[u64],
    spots: Spots,
) -> Result<Vals, AllocError>
    ensures { IfOk result (λ vs. vs ≡ result_views (rows_seen rows.now.0) (map named_tree inner.now) (spots_seen at.now spots)) }
{
    match spots {
        Spots::One => with_views(alloc, rows, inner, at, Vals::new(alloc)),
        Spots::Every(count) => views_of_every(alloc, rows, inner, at, count),
        Spots::Last(count) => views_of_last(alloc, rows, inner, last_of(alloc, at, count)?),
    }
}

// The result of a container by the actions in it.
fn result_of(
    alloc: Global,
    places: &Places<'_>,
    rows: &Rows<Row>,
    loops: &[u32],
    at: &[u64],
    action: &Action,
    inner: &[Named<'_>],
) -> Result<Option<Val>, AllocError>
    ensures { IfOk result (λ v. option_map tree v
        ≡ result_of (def_tree places.now) loops.now at.now (rows_seen rows.now.0) (action_tree action.now) (map named_tree inner.now)) }
{
    let round = places.loops(number_of(action));
    let shared = front(at, common(round, loops));
    let left = with_own(alloc, beyond(round, loops), action)?;
    match spots_by(alloc, places, rows, &left, shared)? {
        Some(spots) => Ok(Some(Val::List(result_in(alloc, rows, inner, shared, spots)?))),
        None => Ok(None),
    }
}

fn result_by(
    alloc: Global,
    places: &Places<'_>,
    rows: &Rows<Row>,
    loops: &[u32],
    at: &[u64],
    action: &Action,
) -> Result<Option<Val>, AllocError>
    ensures { IfOk result (λ v. option_map tree v
        ≡ result_by_loops (def_tree places.now) loops.now at.now (rows_seen rows.now.0) (Some (action_tree action.now))) }
{
    match inner_of(alloc, kind_of(action))? {
        Some(inner) => result_of(alloc, places, rows, loops, at, action, inner.as_slice()),
        None => Ok(None),
    }
}

/// What `result` gives of a name, from inside these loops at these indexes.
pub fn result_from(
    alloc: Global,
    places: &Places<'_>,
    rows: &Rows<Row>,
    loops: &[u32],
    at: &[u64],
    name: &Name,
) -> Result<Option<Val>, AllocError>
    ensures { IfOk result (λ v. option_map tree v ≡ result_from (def_tree places.now) loops.now at.now (rows_seen rows.now.0) name.now) }
{
    match places.named(name) {
        Some(action) => result_by(alloc, places, rows, loops, at, action),
        None => Ok(None),
    }
}
