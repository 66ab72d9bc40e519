//! Which definition a value means.
//!
//! The value of a file (RFC 8259) is read as a workflow definition (Workflow Definition Language, schema 2016-06-01), in either form of the
//! file: the definition itself, or a wrapper whose member `definition` it is. Texts are parsed, options are read, actions get their numbers
//! and their pointers. What stands there is `wf_def`'s types; which of them a value means is said by functions on trees: what holds no
//! graph is read by `wf_leaves`, graphs of actions by `specs/Graphs`, parameters, triggers and outputs by `specs/Sections`.
//!
//! Each of these functions is total, and so is the code: where a rule of `wf_form` refuses a value, it is read as something all the same,
//! which no one asks for, so that reading has no fault but want of memory. `read_def` asks `wf_form` first, and answers the first rule that
//! the definition breaks, or what it means.
//!
//! A `Def` can't be made otherwise than by reading, since its type keeps the fact that some value breaks none of the rules and means it
//! (`specs/Read.antt`). What follows of such definitions is told by the laws: names stand once, numbers are their places, `runAfter` has
//! depths, there are at most 500 actions, and loops may turn.
//!
//! It runs nothing and knows no order of actions. What takes memory takes its allocator, and answers an error where none
//! is left, with everything that it was lent as before; what the call was given by value is then dropped.
#![tactic(auto)]

mod afters;
mod definition;
mod file;
mod graphs;
mod laws;
mod numbers;
mod sections;

pub use definition::{Def, RuleFault};
pub use file::read_def;
pub use laws::{
    actions_are_few, actions_are_found_by_name, actions_stand_in_order, loops_may_turn,
    names_stand_once, numbers_are_places, run_after_has_depths,
};
pub use wf_form::the_first_fault;
