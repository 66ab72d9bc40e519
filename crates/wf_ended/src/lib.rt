//! What a run leaves, once nothing may happen any more.
//!
//! A run that is over has a row for each instance of an action. From these rows `left` tells all that its record has beside what the run
//! was started with: how it ended, what it answered its caller, what the section `outputs` came to, and the rows at their addresses, in
//! order (`specs/Left`). It is the record of these rows (`wf_meant`), in whatever order the run went, and whether it was started anew or
//! made from an older one (`specs/Ended`). `Ends` is made once for a definition: the graph at the top as it is judged, and where its
//! Terminates and Responses stand.
//!
//! A Terminate that Succeeded, the first in the order, gives the run its status and its error; else the run ends as the graph at the top
//! did, by one pass over its actions, and the section `outputs` is evaluated, which sees all rows. The rows that are given are used up:
//! what they hold is moved and not copied.
//!
//! It runs nothing and writes nothing.
#![tactic(auto)]

mod ending;
mod ends;
mod first;
mod left;
mod outputs;
mod rows;

pub use ending::Ending;
pub use ends::Ends;
pub use left::Left;
