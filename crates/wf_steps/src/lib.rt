//! A state of the event machine on graphs of every kind, as it is kept: ordered lists that are edited in room made before, so that several
//! of them change together or not at all.
//!
//! Beside the tables of the machine (rows, running leaves, open containers) a state keeps what `wf_kept` says an engine keeps: counts of
//! what is waited for, and the ready set, so that a step looks at no more than it changes. Its type keeps that a run leads to it and that
//! counts and ready set are those of its tables. What actions do is asked of `wf_asks::Acts`, and what may happen next of `wf_events`.
//!
//! A run begins from `State::fresh`, or goes on from an old record from `State::resumed`, of which rows and open containers are given and
//! counts and ready set are made by one walk over the graphs that are open then (`wf_resting`). The steps know no difference.
//!
//! A state borrows its actions. Where these are to change, as more becomes known of what they do, it is put aside as a `Rest`, which has
//! the lists alone, and taken up again with the new ones: nothing is made anew, and nothing is copied. One that is given up leaves the room
//! of its lists, as a `Spare`, for the next.
#![tactic(auto)]

mod begin;
mod close;
mod end;
mod fresh;
mod opening;
mod rest;
mod resumed;
mod seen;
mod skip;
mod spare;
mod state;
mod step;

pub use rest::Rest;
pub use spare::Spare;
pub use state::State;
