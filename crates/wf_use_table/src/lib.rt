//! What is asked for at all sites of a definition, in one table.
//!
//! The table is made in one walk and judges no name; a site is looked up in as long for each. What stands at a site and what it asks for is
//! `wf_refs`'s to say.
#![tactic(auto)]

mod table;

pub use table::{UseTable, refs};
pub use wf_refs::{Def, Names, RuleFault, Site, Uses};
