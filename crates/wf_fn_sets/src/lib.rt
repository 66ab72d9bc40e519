//! Functions of the expression language that take lists or objects together, or put a list in order (Workflow Definition
//! Language, reference of the functions in expressions, collection functions `union`, `intersection` and `sort`).
//!
//! Each function is one public call, `f_` and its name in snake case, from the values of its arguments to its value
//! or to the fault that says why it has none. What it answers is its row in `specs/`: the types of the arguments are
//! judged from left to right, and the leftmost wrong one is the fault; then come the faults of the function itself,
//! and last `TooBig`, of a value that does not fit. Where no memory is left the answer is `Memory`, which no row names.
//!
//! `union` and `intersection` of lists and `sort` sort what items are compared by, which holds a number itself, so they take
//! some n log n steps that seldom wait for memory; `union` of objects goes by a map of names. They copy only what stays.
//!
//! Laws stand beside the rows, and say in another way what they mean: `distinct_items_are_the_items`,
//! `lists_are_taken_together_as_sets`, `the_last_object_stands` and `sorted_items_are_in_order` in `laws`.
//!
//! This crate reads no expression and evaluates none: it is given values. How many arguments a function takes is
//! judged before a call; each call asks for a count of its row. The other functions on lists and objects stand in
//! `wf_fn_list`, whose `contains` says what it is to be among values.
#![tactic(auto)]

mod key;
mod laws;
mod references;
mod sets;
mod sorting;

pub use laws::{
    distinct_items_are_the_items, lists_are_taken_together_as_sets, sorted_items_are_in_order,
    the_last_object_stands,
};
pub use sets::{f_intersection, f_union};
pub use sorting::f_sort;
