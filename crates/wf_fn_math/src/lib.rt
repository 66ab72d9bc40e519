//! Functions of the expression language on numbers, with comparison, logic and conversion (Workflow Definition
//! Language, reference of the functions in expressions).
//!
//! Each function is one public call, `f_` and its name in snake case, from the values of its arguments to its value
//! or to the fault that says why it has none. What it answers is its row in `specs/`: the types of the arguments are
//! judged from left to right, and the leftmost wrong one is the fault; then come the faults of the function itself.
//! No call of this crate takes memory, and no value that it gives is too big.
//!
//! Laws stand beside the rows, and say in another way what they mean: `division_is_cut_towards_zero`,
//! `min_is_the_least`, `max_is_the_greatest` and `equal_values_are_the_same`.
//!
//! What the rows of every function share, the arguments by their types and the test of size, is in `wf_val`.
//!
//! This crate reads no expression and evaluates none: it is given values. How many arguments a function takes is
//! judged before a call; each call asks for a count of its row. `if`, `and`, `or` and what else may leave an argument
//! without a value are not here.
#![tactic(auto)]

mod arithmetic;
mod comparison;
mod conversion;
mod extremes;
mod laws;

pub use arithmetic::{f_add, f_div, f_mod, f_mul, f_sub};
pub use comparison::{
    equal_values_are_the_same, f_equals, f_greater, f_greater_or_equals, f_less, f_less_or_equals,
    f_not,
};
pub use conversion::{f_bool, f_int, f_is_int};
pub use extremes::{f_max, f_min};
pub use laws::{division_is_cut_towards_zero, max_is_the_greatest, min_is_the_least};
