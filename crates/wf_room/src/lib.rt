//! Items in the order of their keys, with room for more that is made beforehand.
//!
//! Where several lists change together, as those of a state do in one step, a list that wants memory in the middle of it would leave half a
//! change. So a `Roomy` list parts the two: `make_room` takes the memory, or answers an error with every item as it was, and the edits
//! behind it can't fail. Its contract sees the items as a plain list in order, by the functions of `wf_lists`, and beside it for how many
//! more items there is room: `put` asks for room for one, and takes room for one at most; no other edit takes any.
//!
//! Each item stands in a cell of its own on the heap, and the cells of the items to come are made by `make_room` and stand empty behind
//! the others: so an edit before many other items moves their cells' addresses alone, whatever the size of an item, and one that takes
//! an item out leaves its cell for the next. The cells stand in chunks of one size, each a ring: an edit moves those of two chunks at
//! most, and one of each chunk between, whatever the number of items.
//!
//! A list takes no memory before it is asked for room, and all of it stands behind one pointer, so that a list is moved at little cost.
//! Who takes all its items out can keep it: where they were few it keeps their cells.
//!
//! It isn't a list to be read whole before it is used up: items are asked for by key or by place. For that, and where an edit may fail,
//! `wf_lists` has `Sorted`.
#![tactic(auto)]

mod cell;
mod cells;
mod chunk;
mod roomy;
mod shelf;
mod still;

pub use roomy::Roomy;
