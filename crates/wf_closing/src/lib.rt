//! How containers close: which status their graphs ended with, and what that makes of them.
//!
//! A graph is Failed where an action that no `runAfter` names failed, or was Skipped after one that failed (Azure Logic Apps, "Handle
//! errors and exceptions"). `Judged` is a graph made ready for this once: its actions, each behind those that it waits for, so that at any
//! indexes one pass over them tells the status by the rows that are there. `Inside` has the graphs of a container, and the Terminates
//! inside it; `close` says what the container comes to, by what it decided, how many iterations it had and how the last test of an Until
//! ended. It is all of the container's row but its address and its tracked properties.
//!
//! It decides nothing of when a container closes, and promises nothing of a graph whose actions wait for one another in a circle.
#![tactic(auto)]

mod closing;
mod inside;
mod judged;
mod laws;

pub use closing::close;
pub use inside::Inside;
pub use judged::{Judged, Step};
pub use laws::steps_give_the_status;
pub use wf_meant::{
    Begun, Decision, Done, Look, Start, Verdict, begin, ended_by, open, skipped, test, tracked,
    view, what_a_container_decides_is_local, what_an_action_does_is_local,
};
