//! What the actions take in and give out that make a variable or change one.
//!
//! InitializeVariable makes one variable or several; SetVariable, IncrementVariable, DecrementVariable,
//! AppendToArrayVariable and AppendToStringVariable change one that has a value (Workflow Definition Language, "Schema
//! reference guide for trigger and action types"). `initialize`, `set`, `increment`, `decrement`, `append_array` and
//! `append_string` evaluate in a look what such an action asks for, and give what the action keeps as inputs and outputs,
//! or the first fault, because of which it keeps neither. Nothing is stored here: a variable has the value that the outputs
//! of its last writer give it, and `value_given` tells which that is.
//!
//! `specs/Initials.antt` and `specs/Writing.antt` say what each comes to, in the order of its faults, and
//! `specs/Given.antt` which value outputs give. No call has a condition: a value of another type than the variable's is
//! refused here, whatever was known before. Of the look only words may be drawn; what it tells stays as it was.
//!
//! `what_is_initialized_is_given` and `what_is_written_keeps_its_type` promise that a variable is made with a value of its
//! type and that no change gives it one of another, and `what_is_given_is_found` that `value_given` finds it.
//!
//! This crate keeps no rows and decides no order: which writer is the last isn't asked here.
#![tactic(auto)]

mod given;
mod initials;
mod laws;
mod sorts;
mod writing;

pub use given::value_given;
pub use initials::initialize;
pub use laws::{
    what_is_given_is_found, what_is_initialized_is_given, what_is_written_keeps_its_type,
};
pub use wf_data::{
    Look, Made, compose, eval_tree, join, parse_json, query, response, select, terminate,
    values_are_local, wait, what_is_given_fits,
};
pub use writing::{append_array, append_string, decrement, increment, set};
