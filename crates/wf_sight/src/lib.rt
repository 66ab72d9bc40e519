//! What the actions of a run see of it.
//!
//! An expression asks a look (`wf_look`) for the views of actions, items, indexes and variables. What it is to be given is said by
//! `wf_meant`, in the rows that are known. Here that is found in what the event machine hands on as it asks an action something
//! (`wf_asks`): rows and open containers by their instances, and of each variable who wrote last.
//!
//! `Places` is made once for a definition: of each action where it stands, by its name and by its number, and the numbers of variables. A
//! `Sight` is made for one question, at an action, at the test of an Until or at the section `outputs`. A reference is looked up by name,
//! and which loops it leaves is told by the two lists of loops round both. A view that leaves a Foreach is put together of a look-up for
//! each of its iterations, as many as the row of the loop tells. An item is that which the open loop itself decided, so it is evaluated
//! once.
//!
//! `specs/Sight` says what is seen. The laws tell that it is what `wf_meant` tells at the same point, wherever what is known is what the
//! machine promises as it asks; a variable's value is that which the row of its last writer gives.
//!
//! It evaluates nothing, keeps no rows and decides no order.
#![tactic(auto)]

mod items;
mod laws;
mod sight;

pub use laws::what_is_seen_is_told;
pub use sight::{Run, Sight};
pub use wf_views::{
    Places, actions_have_depths, entries_stay_in_their_graph, kind_of, name_of, number_of,
    numbers_stand_once,
};
