//! What the row of an action says, and whether it may say so.
//!
//! Of a record that is resubmitted only its rows are known. The row of a container says what the container had decided: an If and a Foreach
//! keep it as their inputs, a Switch keeps its value there, and an Until gives out how often it went round. `branch_said`, `items_said` and
//! `rounds_said` read it off (`specs/Told`). A row that no run leaves may say what no container decides; `fits` tells whether a row may be
//! one of its action (`specs/Says`): what it decided is of the right kind, an action on variables that Succeeded gives out exactly its
//! variables, each with a value of its type, and a Terminate that Succeeded has a run status.
//!
//! It judges a row by itself: where rows have to stand is no question of this crate. Nor does it ask whether the inputs and outputs of
//! other actions are such as a run leaves.
#![tactic(auto)]

mod fitting;
mod laws;
mod told;
mod variables;

pub use fitting::{fits, is_skipped};
pub use laws::a_skipped_row_says_nothing;
pub use told::{branch_said, items_said, rounds_said};
pub use wf_opening::{Decision, Verdict, open, taken, test, what_a_container_decides_is_local};
