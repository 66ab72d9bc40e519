//! What the expressions of a definition ask for, by the places where they stand.
//!
//! A *site* is a place of a definition whose expressions a run evaluates together: an action's inputs, what a Select or a Query asks of
//! each item, the expression of an Until, an action's tracked properties, an output, a trigger. A function for each says what is asked for
//! there, by what it names (`wf_uses`), and which variables its action writes; `wf_use_table` has those of all sites in one table.
//!
//! Which templates stand at a site is `specs/Sites`; what they ask for is what the evaluator asks its look for. So what isn't among the
//! uses of a site can't change what it gives.
#![tactic(auto)]

mod expressions;
mod laws;
mod site;
mod sites;
mod templates;

pub use laws::{read_actions_have_their_numbers, sites_are_there};
pub use site::Site;
pub use sites::{at_inputs, at_items, at_output, at_test, at_tracked, at_trigger};
pub use wf_eval::{Look, word_of};
pub use wf_reading::{Def, RuleFault};
pub use wf_uses::{Names, Uses, names_are_those_named};
