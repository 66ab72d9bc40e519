//! Whether a run can be resubmitted from a set of actions, and what is then known of its record.
//!
//! `prepare` asks the names first (`wf_resubmit`): whether each is an action's, in no loop, that ran, and whether the record is one of the
//! definition; then whether the record has the right shape (`wf_shaped`). It answers the numbers of the actions, or the first question
//! that is answered no. So a record that no run wrote is taken only where it might be one.
//!
//! The laws say what that is good for: the rows of such a record are an old table from which a resubmission may go on (`wf_layers`); each
//! stands at an instance, fits its action and gives the variables that it writes. And the record that a definition means always has the
//! right shape.
#![tactic(auto)]

mod laws;
mod preparing;

pub use laws::{
    a_meaning_has_no_failing_address, a_meaning_keeps_its_rows, a_record_is_refused_or_not,
    each_meant_row_fits, each_row_fits, kept_rows_are_whole, kept_rows_give_what_they_write,
    one_fault_is_told, record_has_the_right_shape, record_is_an_old_table,
    rows_have_the_right_shape, what_is_chosen_stands_in_no_loop,
};
pub use preparing::prepare;
pub use wf_meant_laws::{Checked, a_definition_is_an_instance};
pub use wf_resubmit::ResubmitFault;
pub use wf_shaped::{TriggerFault, attempts_are_few};
