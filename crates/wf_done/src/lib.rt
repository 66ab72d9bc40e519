//! What an action comes to that holds no others, and its tracked properties.
//!
//! `begin` says in a look what such an action does as it starts (Workflow Definition Language, "Schema reference guide for trigger and
//! action types"): it has acted, or it is a connector, which calls with its inputs. What it has come to is a `Done`: all of its row but its
//! address, its tracked properties and its attempts. A connector comes to that with its last attempt (`ended_by`); one whose inputs have no
//! value makes none. An action that doesn't run is `skipped`.
//!
//! `tracked` gives the tracked properties, which are evaluated last, in a look that also tells the action's own `view`. Whatever they come
//! to, what the action came to stays.
//!
//! `specs/Leaf.antt` says what an action does, for each kind, `specs/Done.antt` what it comes to. The laws tell that this depends only on
//! what the action asks its look for, that what is kept fits, and that what ran isn't Skipped.
//!
//! This crate keeps no rows and decides no order: which action starts or ends when, what a look tells, and what becomes of containers is
//! said above.
#![tactic(auto)]

mod done;
mod laws;
mod leaf;
mod properties;

pub use done::{Done, mismatched, skipped, view};
pub use laws::{what_an_action_does_is_local, what_is_kept_fits, what_ran_is_not_skipped};
pub use leaf::{Begun, begin, ended_by, judged};
pub use properties::tracked;
pub use wf_connect::the_last_attempt_is_the_least;
pub use wf_variables::{
    value_given, what_is_given_is_found, what_is_initialized_is_given,
    what_is_written_keeps_its_type,
};
