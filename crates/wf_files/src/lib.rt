//! What a file of a command holds, or which line says why it holds nothing of its form.
//!
//! A form is a function from a file to what is found in it, or to the form's own fault (`specs/Form`): a definition that is accepted, or
//! its value, inputs, a schedule, what a history lists, and the record of a run in one. A file over its limit is handed over as none. Each
//! fault has its words (`specs/Fault`), and a line that names the file by its part in the command.
//!
//! In a history that is one, a run may have no record, or more than one. That isn't told as a fault of the file: who asks has other files
//! to judge first (`FindFault`).
//!
//! Of values that no file holds the same is said, of definitions and of inputs.
//!
//! No file is opened here.
#![tactic(auto)]

mod fault;
mod form;
mod quoted;

pub use fault::{FindFault, FormFault, fault_line};
pub use form::{
    definition_form, definition_in, history_form, inputs_form, inputs_in, listing_form,
    schedule_form, value_form,
};
pub use quoted::{with_number, with_pair, with_text};
pub use wf_rules::Checked;
