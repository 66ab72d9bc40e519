//! Retry policies: which policy a value is, and whether another attempt follows.
//!
//! A connector action sends its request again where the answer was one that may pass (a status 408, 429 or 500 to 599, or no
//! connection at all), as often as the policy in its inputs allows (Workflow Definition Language, "Retry policies").
//! `Policy::read` reads such a policy, `Policy::again` judges one attempt, and `is_duration` tells whether a text is a
//! duration, which is what the intervals of a policy have to be.
//!
//! An action without a policy has the standard one: whether the member is there is the reader's business. How long an
//! interval is has no effect and isn't kept: time doesn't pass here, so what a policy says of waiting is judged by its form
//! alone. No call takes memory.
#![tactic(auto)]

mod duration;
mod laws;
mod policy;

pub use duration::is_duration;
pub use laws::durations_are_spelled;
pub use policy::{Outcome, Policy, PolicyFault};
