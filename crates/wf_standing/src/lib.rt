//! What is known of a definition wherever a rule looks: where each action stands, and what has which name.
//!
//! An action stands inside the containers round it, outermost first: `standings_of` finds all of them in one walk. A site (`wf_refs`)
//! stands where its action does; the expression of an Until stands inside that Until too, an output in nothing (`specs/Inside`). From this
//! come the loops round a site, by kind and by name, and how many loops a reference from one site to another action leaves.
//!
//! `Known` brings together what is asked of a definition as a whole: the action of a name, what initialises a variable, which of two
//! actions is before the other, contains it or excludes it (`wf_order`), what is asked for at a site (`wf_refs`), and whether a parameter
//! is declared. Names are looked up in ordered lists.
//!
//! Nothing here judges: a name may have no action, and a variable may be initialised twice. Which of that breaks a rule is for `wf_rules`.
#![tactic(auto)]

mod initials;
mod kinds;
mod known;
mod names;
mod sites;
mod standing;

pub use initials::{Initialised, Variable, is_again};
pub use kinds::{
    Loop, ends_or_responds, is_concurrent, is_container, is_initialize, is_loop, is_response,
    is_terminate, suits,
};
pub use known::Known;
pub use sites::{has_item, is_in_loop, is_outside, is_test, is_tracked, loops_left};
pub use standing::{Standing, standings_of};
pub use wf_def::{Param, Sort};
pub use wf_order::{Order, order_is_exact};
pub use wf_use_table::{Def, Names, RuleFault, Site, Uses, refs};
