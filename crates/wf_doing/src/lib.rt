//! What the actions of a definition do in a run.
//!
//! The event machine (`wf_asks`) asks what an action has from its start on, what a container decides, what a test gives, with which row an
//! action ends. Here each question is answered by what is known as it is asked: a leaf starts, a container opens and an Until is tested in
//! what it sees (`wf_sight`); a connector's attempts go on as long as its answers say so; a container closes by the rows inside it
//! (`wf_closing`); a row gets its tracked properties last, which see what the action came to.
//!
//! Contracts say the exact answer by what the action is told (`specs/Acting`). The laws tell that this is the source of answers that the
//! definition means (`wf_meant`), where the action is told what the definition means; and that of each container of a definition the steps
//! of its own graphs give how these ended.
//!
//! It keeps no rows and decides no order. That what is seen is what is meant is `wf_sight`'s law, but for variables.
#![tactic(auto)]

mod attempts;
mod ending;
mod halting;
mod laws;
mod opening;
mod own;
mod rows;
mod setting;
mod weights;

pub use attempts::{answer_at, ended, has_try, tries};
pub use ending::{close, finish, makes_another};
pub use halting::{halts, terminates};
pub use laws::{
    containers_are_judged, terminates_halt, what_is_done_is_meant, what_is_done_is_the_source,
};
pub use opening::{decide, start, test_until};
pub use rows::skipped;
pub use setting::Setting;
pub use weights::{begun_weight, decision_weight};
pub use wf_closing::Inside;
pub use wf_sight::{kind_of, name_of};
