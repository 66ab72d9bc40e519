//! A definition by the numbers of its actions: what the event machine goes by.
//!
//! A step of the machine asks of an action what it waits for, which actions wait for it, which container holds it, and which graphs it
//! holds itself. A tree of actions answers none of these at once; a `Plan` does, since it is made by one walk over all actions, and no name
//! is compared afterwards. Contracts say what each table has by the list of all actions of the definition (`specs/Plan.antt`); and in the
//! words of the laws of order, of any graph, `specs/PlanOf.antt` says what the machine may take from a plan.
//!
//! It says nothing of what an action does, and promises nothing of a graph that wasn't read: where two actions have one number, the first
//! stands for it.
#![tactic(auto)]

mod block;
mod laws;
mod plan;
mod shape;
mod tables;

pub use laws::{actions_stand_once, plans_are_exact, plans_are_of_their_graphs};
pub use plan::{Entry, Plan, Wait};
pub use shape::{Branch, Shape};
pub use wf_asks::{Acts, Instance, Known, OpenAt, Opens, RowAt, Rows, Store, WriterAt};
pub use wf_def::Statuses;
