//! Lists: items as they were added (`Series`), and items in the order of their keys (`Sorted`).
//!
//! A layer above that has several of a thing, such as the iteration numbers of an address or the rows of a record,
//! names its list by one of these two: `pub type Rows = Sorted<Row>;`. Contracts see both as a plain list of the items,
//! and the order of a `Sorted` is kept by its type, so no caller tests it. What an edit makes of a list in order is
//! said by functions on lists (`specs/KeyOrder.antt`), and `proofs/KeyOrderLemmas.antt` has what follows from them:
//! what is found after an edit, and that two lists in order that find the same are the same.
//!
//! Lists inside a type that holds itself, as the items of a value that is a list, can't be of these types: they are
//! written beside that type, with the same words.
//!
//! What takes memory takes its allocator when it is made or copied, and answers an error where none is left, with the
//! list as it was; an item that was given by value is then dropped.
#![tactic(auto)]

mod copying;
mod series;
mod sorted;

pub use copying::TryCopy;
pub use series::Series;
pub use sorted::{Keyed, Sorted};
