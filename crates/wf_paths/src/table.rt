//! The table of what leads to what, made in as many rounds as there are nodes.
ghost use Rattle.std.specs.Prelude.{◌≡◌, ◌||◌, All, IfOk, length, map};
ghost use Rattle.wf_paths.specs.Table.{edge_of, either, from, marked, names, paths_of, round, row_at, slot, table, through_row};

use std::alloc::{AllocError, Global};

// A row with true at each of these places that stands in it.
#[tactic(auto, using(crate::proofs::MarkLemmas::set_outside))]
fn marked(mut row: Vec<bool>, places: &[usize]) -> Vec<bool>
    ensures { result.items ≡ marked row.items places.now }
{
    for place in places {
        if *place < row.len() {
            row[*place] = true;
        }
    }
    row
}

// The row of a node that names these.
#[tactic(auto, using(crate::proofs::MarkLemmas::marked_row))]
fn first_row(alloc: Global, count: usize, entries: &[usize]) -> Result<Vec<bool>, AllocError>
    ensures { IfOk result (λ row. row.items ≡ from 0 count (names entries.now)) }
{
    let row = vec![in alloc; false; count]?;
    Ok(marked(row, entries))
}

fn slot(row: &[bool], place: usize) -> bool
    ensures { result ≡ slot row.now place }
{
    match row.get(place) {
        Some(value) => *value,
        None => false,
    }
}

fn or(one: bool, other: bool) -> bool
    ensures { result ≡ (one || other) }
{
    one || other
}

// What leads to one of two nodes, whose rows these are, in place of the first.
fn join(row: &mut [bool], other: &[bool])
    requires { length row.old ≡ length other.now }
    ensures { row.new ≡ either row.old other.now }
{
    for place in 0..row.len() {
        row[place] = or(row[place], other[place]);
    }
}

// A row, where k may be a stop whose own row is `through`.
fn through_row(mut row: Vec<bool>, k: usize, through: &[bool]) -> Vec<bool>
    requires { length row.items ≡ length through.now }
    ensures { result.items ≡ through_row row.items k through.now }
{
    if slot(&row, k) {
        join(&mut row, through);
    }
    row
}

fn row_at(alloc: Global, rows: &[Vec<bool>], place: usize) -> Result<Vec<bool>, AllocError>
    ensures { IfOk result (λ row. row.items ≡ row_at (map (λ r. r.items) rows.now) place) }
{
    match rows.get(place) {
        Some(row) => Ok(row.to_vec(alloc)?),
        None => Ok(Vec::new(alloc)),
    }
}

// One round: k may be a stop from now on.
fn round(alloc: Global, rows: Vec<Vec<bool>>, k: usize) -> Result<Vec<Vec<bool>>, AllocError>
    requires { All (λ row. length row.items ≡ length (row_at (map (λ r. r.items) rows.items) k)) rows.items }
    ensures { IfOk result (λ new. map (λ r. r.items) new.items ≡ round (map (λ r. r.items) rows.items) k) }
{
    let through = row_at(alloc, &rows, k)?;
    let mut new = Vec::with_capacity(alloc, rows.len())?;
    for row in rows {
        new.push(through_row(row, k, &through))?;
    }
    Ok(new)
}

fn first_table(alloc: Global, nodes: &[Vec<usize>]) -> Result<Vec<Vec<bool>>, AllocError>
    ensures { IfOk result (λ t. map (λ r. r.items) t.items ≡ table (length nodes.now) (edge_of (map (λ e. e.items) nodes.now))) }
{
    let mut rows = Vec::with_capacity(alloc, nodes.len())?;
    for entries in nodes {
        rows.push(first_row(alloc, nodes.len(), entries)?)?;
    }
    Ok(rows)
}

/// What leads to what: the row of a node a has for each node p whether p leads to a.
pub fn paths_of(alloc: Global, nodes: &[Vec<usize>]) -> Result<Vec<Vec<bool>>, AllocError>
    ensures { IfOk result (λ t. map (λ r. r.items) t.items ≡ paths_of (map (λ e. e.items) nodes.now)) }
{
    let mut rows = first_table(alloc, nodes)?;
    for k in 0..nodes.len() {
        rows = round(alloc, rows, k)?;
    }
    Ok(rows)
}
