//! A run that goes on as its answers come.
//!
//! `Session` keeps one state of the event machine. It goes on until nothing may happen but attempts that have no answer, and is put aside
//! then without its actions, since these borrow the inputs. As an answer comes it is added to the inputs, and the state goes on from where
//! it stood: `wf_quiet` says that it may, and `wf_answered` that the definition's actions are such. So a talk of many answers makes the run
//! once. Where it stands is what `wf_stands` says, whatever way it has come there.
//!
//! `Talker` is what the top call is lent for `session`: it holds the talks of such runs.
#![tactic(auto)]

mod accept;
mod conversing;
mod known;
mod missing;
mod session;
mod settle;
mod standing;
mod talker;

pub use conversing::converse;
pub use session::Session;
pub use talker::Talker;
