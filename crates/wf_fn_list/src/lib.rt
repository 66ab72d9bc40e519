//! Functions of the expression language on lists and objects, and on what texts have in common with lists (Workflow
//! Definition Language, reference of the functions in expressions, collection functions).
//!
//! Each function is one public call, `f_` and its name in snake case, from the values of its arguments to its value
//! or to the fault that says why it has none. What it answers is its row in `specs/`: the types of the arguments are
//! judged from left to right, and the leftmost wrong one is the fault; then come the faults of the function itself,
//! and last `TooBig`, of a value that does not fit. Where no memory is left the answer is `Memory`, which no row names.
//!
//! A value that could be far larger than its arguments (`range`, `join`, `createArray`) is measured before it is made.
//!
//! Laws stand beside the rows, and say in another way what they mean: `what_contains_means`, `chunks_make_the_list`,
//! `reversed_twice_is_the_list` and `numbers_stand_in_a_row` in `laws`.
//!
//! This crate reads no expression and evaluates none: it is given values. How many arguments a function takes is
//! judged before a call; each call asks for a count of its row. `join` is given texts: what turns another item into its
//! text stands above. So do `union`, `intersection` and `sort`, which put items in order, in `wf_fn_sets`; whether a value is
//! among others is defined here for both.
#![tactic(auto)]

mod chunks;
mod laws;
mod making;
mod members;
mod membership;
mod parts;
mod ranges;

pub use chunks::f_chunk;
pub use laws::{
    chunks_make_the_list, numbers_stand_in_a_row, reversed_twice_is_the_list, what_contains_means,
};
pub use making::{f_array, f_create_array};
pub use members::{f_add_property, f_remove_property, f_set_property};
pub use membership::{f_contains, f_empty};
pub use parts::{f_first, f_join, f_last, f_length, f_reverse, f_skip, f_take};
pub use ranges::f_range;
