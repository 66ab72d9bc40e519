//! Where a value isn't of a form: one walk for every kind of value that is read (the inputs of a run, the lines of a
//! history, schemas).
//!
//! A form is a table over roles. A role is what a value stands for, an enum of the crate that reads such values; the
//! table says what a value in the role has to be, which members an object in it must have and whether it may have
//! others, and the role of each member and each item. `Form` is the trait by which a role answers these questions.
//!
//! `least_place` finds the least pointer (RFC 6901), in the order of bytes, of all the places at which something that
//! is asked isn't so, whatever the order of the walk. What stands in a value of the wrong kind isn't looked at: its
//! table gives the members of a list and the items of an object no role. A value that is of its form costs no memory.
//!
//! This crate reads nothing: what a value of the form means is for the crate of the form to say. Its reader need not
//! fail where `least_place` found nothing.
#![tactic(auto)]

mod form;
mod laws;
mod own;
mod walk;

pub use form::Form;
pub use laws::places_are_where_something_is_amiss;
pub use walk::least_place;
pub use wf_json::{fault_text, pointer, quoted};
