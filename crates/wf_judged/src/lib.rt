//! What a test came to: whether the end of its command is the one that is expected, and if not, why.
//!
//! A command ends with a status and a text (`Ended`). A check is to be accepted with a number of actions, a refusal is to be one line, and
//! of runs each record is to have what is expected of it, one record for each expectation (`wf_match`). Where a record hasn't, it is told
//! too which answers the test left out (`specs/Unanswered`), since that is often why. Beside that the peaks of the runs may be bounded, and
//! under further schedules the same records are to come. `outcome` tells all of that in order (`specs/Failures`); a test passed exactly
//! where there is nothing to tell.
//!
//! `first_run` tells which run the first record of a text is of, as a resubmission has to name it.
//!
//! Nothing is run here.
#![tactic(auto)]

mod failures;
mod judging;
mod lines;
mod records;
mod runs;
mod unanswered;

pub use judging::outcome;
pub use lines::Ended;
pub use runs::first_run;
