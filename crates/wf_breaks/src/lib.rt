//! Which rules on what it names an action, an output, a trigger or a parameter breaks.
//!
//! A definition that was read (`wf_reading`) has its form. What is left are the rules on the names in its expressions, V9 to V21: an
//! action names only actions before it, a variable is initialised once and before it is read, `items` stands inside its Foreach, a
//! reference leaves at most one loop, and so on (`specs/Rules`, one short test for each). Each call here tries one rule on one part of a
//! definition. Which rule a definition breaks first, and where, is for `wf_rules`.
//!
//! The tests ask for the uses of names at each site (`wf_refs`), and for what is known of the definition (`wf_standing`): the action of a
//! name, the order of two actions, the containers round an action, what initialises a variable. They compare numbers, so a definition in
//! which each action names all others takes little more than the look-ups of those names.
//!
//! V13, V15 and V16 are on two actions (`wf_varorder`): no part breaks them by itself.
#![tactic(auto)]

mod breaks;
mod rule;
mod wrong;

pub use breaks::{action_breaks, output_breaks, parameter_breaks, trigger_breaks};
pub use rule::Rule;
