//! What is kept beside the tables of a state in which no leaf runs and no iteration has begun, made anew from its rows and open containers.
//!
//! A run that goes on from an old record begins in such a state. Its rows and open containers are given; what it waits for, what its
//! graphs lack and what may happen next is told by one walk over the actions of the graphs that are open: the definition's own, and those
//! that the open containers have entered. That this is what a state keeps is shown where states are (`wf_steps`).
#![tactic(auto)]

mod graphs;
mod looked;
mod recount;

pub use graphs::standing;
pub use looked::first_ready;
pub use recount::{first_lacks, first_waits};
pub use wf_enter::{
    begin_iteration, enter_graph, make_room, opening_edits, passed_rows, turning_edits,
};
