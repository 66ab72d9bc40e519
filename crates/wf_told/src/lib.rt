//! What is told of the runs of a definition that start with inputs, and of the resubmission of a run.
//!
//! `specs/Under` says what a run under a schedule is, without any state that an engine keeps: one list of events, by which all is told but
//! the record, which is the definition's meaning whatever the events are. `specs/Text` says what is written of runs, `specs/Summary` the
//! line below a record, `specs/Runs` what is told of all runs that start, one after the other, each under the schedule from its beginning.
//! Which records they leave, and whether they cost too much, rests on no schedule (`specs/Records`). The laws say that all of it is one.
//! `specs/Resubmissions` says the same of a resubmission: it is a run that begins with what is kept of an old record. `specs/Measured` says
//! what figures are told of one run alone: they are the same under every schedule but for the peak.
//!
//! `Engine` is what makes them. The top call is lent one, and knows nothing of how runs are made; `wf_printed` has the one that there is.
#![tactic(auto)]

mod engine;
mod fault;
mod laws;
mod measure;

pub use engine::Engine;
pub use fault::{ResubmissionFault, RunsFault};
pub use laws::{
    a_fault_of_the_trigger_is_told, a_resubmission_wants_no_memory,
    no_run_is_said_where_none_starts, one_measure_is_told, one_reason_against_a_resubmission,
    one_resubmission_is_told, one_text_is_told, runs_are_told_alike,
    runs_are_too_large_where_they_cost_more, runs_have_as_many_steps, runs_want_no_memory,
    texts_stand_in_a_row,
};
pub use measure::Measure;
pub use wf_prepare::{
    kept_rows_are_whole, kept_rows_give_what_they_write, prepare, record_has_the_right_shape,
    record_is_an_old_table, what_is_chosen_stands_in_no_loop,
};
pub use wf_trace::Begun;
