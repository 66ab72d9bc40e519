//! Which two actions of a definition break a rule on two.
//!
//! Three rules speak of two actions: accesses of a variable, one of them a writer, are in one order (V13); all else is before or after a
//! Terminate (V15); one Response answers (V16). Each says that an action *claims* something of others, and that whom it concerns is
//! *settled* with it: before it, after it, or in another branch of one If or Switch (`specs/Pairs`). `least_pair` gives the least pair of
//! actions that breaks a rule, by the pointer at which it is told and then by the other's (`specs/Least`); `variable_fault`,
//! `terminate_fault` and `response_fault` give its numbers.
//!
//! What holds where no pair breaks a rule is said in the words of the order of actions (`specs/Settled`, `no_pair_is_in_order`). Nothing
//! but pairs is judged here: whether a variable is there, and is initialised before, is for `wf_rules`.
#![tactic(auto)]

mod claim;
mod faults;
mod laws;
mod least;
mod pair;
mod rule;

pub use faults::{response_fault, terminate_fault, variable_fault};
pub use laws::{no_pair_is_in_order, the_least_pair};
pub use least::least_pair;
pub use pair::Pair;
pub use rule::PairRule;
pub use wf_def::{Output, Param, Trigger};
pub use wf_standing::{Def, Known, Order, RuleFault, Standing, refs, standings_of};
