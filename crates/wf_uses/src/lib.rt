//! What a call asks for, and what a few calls together ask for, by what they name.
//!
//! `found_by_name` says what one call asks for beside its arguments. `Uses` sorts what was found: which names are handed to the functions
//! that take one (Workflow Definition Language, schema 2016-06-01: `actions`, `outputs`, `body`, `result`, `variables`, `parameters`,
//! `items`, `iterationIndexes`), and whether an item, the row of the action's own, the moment, a word or the run is asked for. What is
//! asked for is what the evaluator asks its look for, in its own words (wf_eval_expr's `Uses`); `specs/Named` sorts that by what it names.
//!
//! Names are brought in byte order, each once. None is judged: a name may be that of no action. Which calls stand at a place of a
//! definition is for `wf_refs`.
#![tactic(auto)]

mod found;
mod laws;
mod named;
mod names;
mod uses;

pub use found::{Found, found_by_name, with};
pub use laws::names_are_those_named;
pub use names::Names;
pub use uses::Uses;
