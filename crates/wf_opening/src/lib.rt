//! What a container decides as it opens, and what the test of an Until gives.
//!
//! `open` says of an If whether its condition holds, of a Switch which value it has and which branch that means, and of a Foreach which
//! items it has (Workflow Definition Language, "Control workflow action types"); a Scope and an Until decide nothing. That something has
//! no value is a decision, too, and so is a list that is too long: such a container is open, and will fail. `taken` and `items_of` read
//! off a decision which branch and how many iterations it means.
//!
//! `test` says after an iteration of an Until whether its expression holds, and `ends` whether that ends the loop. How many iterations an
//! Until may have at most is no part of its test.
//!
//! Expressions see what a look tells (`wf_look`), whatever that is. What becomes of the branches and iterations, when anything opens, and
//! what a container's row is, is said above.
#![tactic(auto)]

mod decide;
mod laws;
mod verdict;

pub use decide::{Decision, items_of, open, taken};
pub use laws::{
    the_branch_is_the_first_of_its_value, what_a_container_decides_is_local,
    what_a_container_keeps_fits,
};
pub use verdict::{Verdict, ends, test};
