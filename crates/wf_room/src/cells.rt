//! Many cells, in chunks of one size.
ghost use Rattle.std.specs.Prelude.{◌≡◌, ◌<◌, ◌≤◌, ◌+◌, ◌*◌, ◌^◌, ◌++◌, ◌∷◌, [], length, OnOk, OnErr, Some, None, insert, remove, slice_get, slice_index_or, slice_set, true, false};
ghost use Rattle.wf_room.specs.Cells.{all_cells, AreEven, AreFull, IsLastShort, HasHole};

use crate::cell::Cell;
use crate::chunk::Chunk;
use std::alloc::{AllocError, Global};
use std::marker::Model;

// How many cells each chunk but the last one has: about as many as there are chunks where a run has a million rows, so that what moves in a
// chunk and what goes from chunk to chunk are few together.
const SIZE: usize = 1024;

/// Cells in chunks, of which only the last one may have fewer than the others; seen as their list. So the cell at a place is found by a
/// division, and one that is moved to another place moves few others: those of two chunks at most, and one of each chunk between, which
/// goes from its end to the next one's front, or from its front to the last one's end.
#[derive(Drop)]
pub(crate) struct Cells<T> {
    chunks: Vec<Chunk<T>>,
    count: usize,
    alloc: Global,
}

impl<T> Model for Cells<T> {
    ghost use Rattle.std.specs.Prelude.{List, Option, ◌≡◌, ◌<◌, ◌^◌, length};
    ghost use Rattle.wf_room.specs.Cells.{all_cells, AreEven};

    ghost Value = { List (Option T) };

    ghost view = { λ a. all_cells a.chunks.items };

    ghost invariant = { λ a. AreEven a.chunks.items × (a.count ≡ length (all_cells a.chunks.items)) × (a.count < 2 ^ 63) };
}

impl<T> Cells<T> {
    /// No cells, and no memory taken yet.
    pub(crate) fn new(alloc: Global) -> Self
        ensures { result ≡ [] }
    {
        Cells {
            chunks: Vec::new(alloc),
            count: 0,
            alloc,
        }
    }

    /// How many cells there are.
    pub(crate) fn len(&self) -> usize
        ensures count { result ≡ length self.now }
        ensures in_range { result < 2 ^ 63 }
    {
        self.count
    }

    /// The cell at a place.
    pub(crate) fn cell(&self, place: usize) -> &Cell<T>
        requires { place < length self.now }
        ensures { slice_get self.now place ≡ Some result.now }
    {
        let (chunk, inside) = spot(place);
        self.chunks[chunk].cell(inside)
    }

    /// Puts an item, or none, into the cell at a place, and gives back what stood there.
    pub(crate) fn replace(&mut self, place: usize, content: Option<T>) -> Option<T>
        requires { place < length self.old }
        ensures before { slice_get self.old place ≡ Some result }
        ensures after { self.new ≡ slice_set self.old place content }
    {
        let (chunk, inside) = spot(place);
        self.chunks[chunk].replace(inside, content)
    }

    /// Puts an item into the cell at a place; what stood there is dropped.
    pub(crate) fn fill(&mut self, place: usize, item: T)
    where
        T: Drop,
        requires { place < length self.old }
        ensures { self.new ≡ slice_set self.old place (Some item) }
    {
        let (chunk, inside) = spot(place);
        self.chunks[chunk].fill(inside, item);
    }

    /// Adds an empty cell behind the others.
    pub(crate) fn add(&mut self) -> Result<(), AllocError>
    where
        T: Drop,
        ensures ok { OnOk result (self.new ≡ self.old ++ None ∷ []) }
        ensures err { OnErr result (self.new ≡ self.old) }
    {
        // No memory holds more.
        if self.count >= usize::MAX / 2 {
            return Err(AllocError);
        }
        add_cell(&mut self.chunks, self.alloc)?;
        self.count += 1;
        Ok(())
    }

    /// Moves the cell at a place to another place; those between go one place towards where it was.
    pub(crate) fn shift(&mut self, from: usize, to: usize)
        requires from { from < length self.old }
        requires to { to < length self.old }
        ensures { self.new ≡ insert (remove self.old from) to (slice_index_or self.old from None) }
    {
        if from == to {
            return;
        }
        let (hole, outside) = spot(from);
        let (goal, inside) = spot(to);
        let cell = take_cell(&mut self.chunks, hole, outside);
        move_hole(&mut self.chunks, hole, goal);
        put_cell(&mut self.chunks, goal, inside, cell);
    }
}

// Adds an empty cell, in a chunk of its own where no other has room for it.
fn add_cell<T: Drop>(chunks: &mut Vec<Chunk<T>>, alloc: Global) -> Result<(), AllocError>
    requires { AreEven chunks.old.items }
    ensures ok { OnOk result (all_cells chunks.new.items ≡ all_cells chunks.old.items ++ None ∷ []) }
    ensures err { OnErr result (all_cells chunks.new.items ≡ all_cells chunks.old.items) }
    ensures even { AreEven chunks.new.items }
{
    if are_full(chunks) {
        add_chunk(chunks, alloc)
    } else {
        add_to_last(chunks, alloc)
    }
}

// Whether the last chunk is full, or there is none.
fn are_full<T>(chunks: &[Chunk<T>]) -> bool
    requires { AreEven chunks.now }
    ensures yes { result ≡ true → AreFull chunks.now }
    ensures no { result ≡ false → IsLastShort chunks.now }
{
    match chunks.last() {
        Some(chunk) => chunk.len() >= SIZE,
        None => true,
    }
}

// Adds a chunk of one empty cell to full ones.
fn add_chunk<T: Drop>(chunks: &mut Vec<Chunk<T>>, alloc: Global) -> Result<(), AllocError>
    requires { AreFull chunks.old.items }
    ensures ok { OnOk result (all_cells chunks.new.items ≡ all_cells chunks.old.items ++ None ∷ []) }
    ensures err { OnErr result (all_cells chunks.new.items ≡ all_cells chunks.old.items) }
    ensures even { AreEven chunks.new.items }
{
    let mut chunk = Chunk::new(alloc);
    chunk.add(alloc)?;
    chunks.push(chunk)?;
    Ok(())
}

// Adds an empty cell to the last chunk.
fn add_to_last<T: Drop>(chunks: &mut Vec<Chunk<T>>, alloc: Global) -> Result<(), AllocError>
    requires { IsLastShort chunks.old.items }
    ensures ok { OnOk result (all_cells chunks.new.items ≡ all_cells chunks.old.items ++ None ∷ []) }
    ensures err { OnErr result (all_cells chunks.new.items ≡ all_cells chunks.old.items) }
    ensures even { AreEven chunks.new.items }
{
    let last = chunks.len() - 1;
    chunks[last].add(alloc)?;
    Ok(())
}

// The chunk of a place, and the place inside it.
fn spot(place: usize) -> (usize, usize)
    ensures place { place ≡ result.0 * 1024 + result.1 }
    ensures inside { result.1 < 1024 }
{
    (place / SIZE, place % SIZE)
}

// Takes a cell out of its chunk.
fn take_cell<T>(chunks: &mut Vec<Chunk<T>>, chunk: usize, inside: usize) -> Cell<T>
    requires even { AreEven chunks.old.items }
    requires place { chunk * 1024 + inside < length (all_cells chunks.old.items) }
    requires inside { inside < 1024 }
    ensures cell { slice_get (all_cells chunks.old.items) (chunk * 1024 + inside) ≡ Some result }
    ensures rest { all_cells chunks.new.items ≡ remove (all_cells chunks.old.items) (chunk * 1024 + inside) }
    ensures hole { HasHole chunk chunks.new.items }
    ensures count { length chunks.new.items ≡ length chunks.old.items }
{
    chunks[chunk].remove(inside)
}

// Puts a cell into the chunk that lacks one.
fn put_cell<T>(chunks: &mut Vec<Chunk<T>>, hole: usize, inside: usize, cell: Cell<T>)
    requires hole { HasHole hole chunks.old.items }
    requires place { hole * 1024 + inside ≤ length (all_cells chunks.old.items) }
    requires inside { inside < 1024 }
    ensures cells { all_cells chunks.new.items ≡ insert (all_cells chunks.old.items) (hole * 1024 + inside) cell }
    ensures even { AreEven chunks.new.items }
{
    chunks[hole].insert(inside, cell);
}

// Has another chunk lack the cell that one lacks.
fn move_hole<T>(chunks: &mut Vec<Chunk<T>>, from: usize, to: usize)
    requires hole { HasHole from chunks.old.items }
    requires to { to < length chunks.old.items }
    ensures cells { all_cells chunks.new.items ≡ all_cells chunks.old.items }
    ensures hole { HasHole to chunks.new.items }
{
    let mut hole = from;
    while to < hole {
        hole -= 1;
        hand_up(chunks, hole);
    }
    while hole < to {
        hand_down(chunks, hole);
        hole += 1;
    }
}

// Fills the chunk behind one by that one's last cell.
fn hand_up<T>(chunks: &mut Vec<Chunk<T>>, place: usize)
    requires { HasHole (place + 1) chunks.old.items }
    ensures cells { all_cells chunks.new.items ≡ all_cells chunks.old.items }
    ensures hole { HasHole place chunks.new.items }
    ensures count { length chunks.new.items ≡ length chunks.old.items }
{
    let cell = chunks[place].pop_last();
    chunks[place + 1].push_first(cell);
}

// Fills a chunk by the first cell of the one behind it.
fn hand_down<T>(chunks: &mut Vec<Chunk<T>>, hole: usize)
    requires hole { HasHole hole chunks.old.items }
    requires next { hole + 1 < length chunks.old.items }
    ensures cells { all_cells chunks.new.items ≡ all_cells chunks.old.items }
    ensures hole { HasHole (hole + 1) chunks.new.items }
    ensures count { length chunks.new.items ≡ length chunks.old.items }
{
    let cell = chunks[hole + 1].pop_first();
    chunks[hole].push_last(cell);
}
