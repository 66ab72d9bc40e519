//! A definition that was made ready for its runs, and what a run of it leaves.
//!
//! `Runnable` is an accepted definition, by what its runs ask of it again and again: its actions (`wf_actions`), its ends (`wf_ended`) and
//! its plan (`wf_plan`). Who drives a run takes them from here: of a whole run (`wf_run`), or of one that waits for answers (`wf_session`).
//!
//! Once nothing may happen any more a run has left what its actions mean: `given_up` hands out its rows and its last writers, and `record`
//! makes the record of them. `finished` does both, of a run that was put aside. The room of its other lists it leaves for the next run.
//!
//! It makes nothing happen. What a `Runnable` is made of is handed on, so that who makes runs names no crate below this one for it.
#![tactic(auto)]

mod finished;
mod over;
mod runnable;

pub use over::{Lists, given_up};
pub use runnable::{Runnable, is_planned};
pub use wf_actions::{
    Actions, Making, Places, Ready, Rest, a_record_is_of_the_table, name_of,
    runs_cost_no_more_than_their_records,
};
pub use wf_ended::Ends;
pub use wf_rules::Checked;
