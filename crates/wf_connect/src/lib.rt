//! The attempts of a connector: what one comes to, and which is the last.
//!
//! A connector is an action that calls a service. A run calls nothing: what each attempt came to is told by the inputs of the run
//! (`wf_answers`). `attempt` says of one attempt whether another follows or how the action ends (Workflow Definition Language, "Retry
//! policies"), and `try_of` what its row keeps of it.
//!
//! A caller makes one attempt after the other, counted from 1, as long as another follows. `specs/Last` says which is the last without
//! counting any: the least that has no answer, or whose outcome isn't tried again, or that is the last which the policy allows. The laws
//! tell that this is where such a caller comes to, and that it is no further than the policy allows.
//!
//! This crate waits for nothing and asks no service. What a connector sends, and when its attempts are made, is said above.
#![tactic(auto)]

mod attempts;
mod laws;
mod tries;

pub use attempts::{Tried, attempt};
pub use laws::{attempts_go_on_to_the_last, the_last_attempt_is_the_least};
pub use tries::try_of;
pub use wf_record::Status;
