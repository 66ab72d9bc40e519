//! The actions of a run, as the event machine asks for them.
//!
//! The machine asks the actions of a definition by the trait `wf_asks::Acts`. `Actions` answers it: a definition that breaks no rule, made
//! ready once (`Ready`), a start and the inputs of a run that isn't made from another. Each answer is that of `wf_doing`; contracts say
//! that it is the answer which the definition means (`wf_meant`), wherever what is known is what the machine promises as it asks, and that
//! all answers together are an instance of the laws of order. `specs/Meant` says which graph, which source and which writers these are.
//! What a run costs is told by its start and by the rows that the definition means (`wf_paying`).
//!
//! A trace asks them what is told of an event by the trait `wf_making::Tells`: that is `wf_trace`'s `told` of the definition and of the
//! rows that it means, and `wf_telling` writes it from what stands at the event's instance.
//!
//! It keeps no rows and decides no order.
#![tactic(auto)]

mod acting;
mod actions;
mod asked;
mod laws;
mod opened;
mod origin;
mod pays;
mod ready;
mod tells;

pub use actions::{Actions, Ready};
pub use laws::runs_cost_no_more_than_their_records;
pub use wf_catalog::{Places, a_record_is_of_the_table, name_of};
pub use wf_paying::{Making, Rest, Spare};
