//! What the event machine asks of the actions of a definition.
//!
//! The machine knows which events a state has, and what each changes; what an action does is another's matter. So it asks: `Acts` is a
//! trait of questions, each of which is a field of the source of answers of the laws of order (`wf_layers`), asked at an instance of an
//! action and in the rows that are there. What answers hold is theirs: the machine sees of a row its status, of a decision the branch or
//! the number of iterations that it means, of a test whether it ends the loop. So the machine stands on no evaluator, and the crates that
//! say what actions do on no machine.
//!
//! Contracts see rows, decisions and tests as the answering side says, and the rows that are there as a table by instances (`rows_in`).
#![tactic(auto)]

mod acts;
mod instance;
mod known;

pub use acts::Acts;
pub use instance::Instance;
pub use known::{Known, OpenAt, Opens, RowAt, Rows, Store, WriterAt};
