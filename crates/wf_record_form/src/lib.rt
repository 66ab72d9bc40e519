//! Records read back: which record a value means, or why it is none.
//!
//! A record is written as a value of form 2 (`wf_record`). This crate reads values of form 2, and of form 1 too, which had the number of a
//! row's attempts in place of their list: of each of them nothing is known but that it was made. A value that says another form is
//! refused with that form's number, whatever else is amiss; any other that isn't a record with the least pointer of what is amiss.
//!
//! The form is a table over the parts of a record (`specs/RecordForm`), which `wf_places` walks. Rows have to stand in strictly ascending
//! order of their addresses, so a row that isn't above the one before it is amiss too. What a value of the form means is said member by
//! member (`specs/Reading`), apart from the form.
//!
//! `of_val` makes the record; `judge` says the same and makes none, and then `run_in`, `status_in` and `row_count_in` tell of the value
//! what it says at once. That nothing is lost on the way is a law: a record that fits is written as a value of the form, and a value of
//! the form that a record was written as is read as that record.
#![tactic(auto)]

mod fault;
mod form;
mod heading;
mod laws;
mod members;
mod neighbours;
mod part;
mod reading;

pub use fault::RecordFault;
pub use heading::{row_count_in, run_in, status_in};
pub use laws::{
    a_fitting_record_is_of_the_form, a_record_is_read_back, form_one_is_read_as_untold,
    rows_are_read_in_order,
};
pub use reading::{judge, of_val};
