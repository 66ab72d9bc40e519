//! The values of templates, of trees whose texts are templates, and of conditions, in a look.
//!
//! `eval`, `eval_tree` and `eval_cond` give what stands at a place of a workflow definition (Workflow Definition
//! Language, schema 2016-06-01, "Expressions") in a look, or the first fault from left to right, and draw just the words
//! that the definition counts. What an expression in it comes to is said by `wf_eval_expr`, and what it may ask for by
//! `wf_look`.
//!
//! `specs/TemplateValue.antt`, `specs/TreeValue.antt` and `specs/Truth.antt` say what each comes to, and
//! `specs/Uses.antt` what it asks a look for. No call has a condition.
//!
//! `values_are_local` promises that a value depends only on what the look tells where the expressions ask, and
//! `what_is_given_fits` that every value that is given fits.
//!
//! This crate parses nothing, keeps no rows and decides no order.
#![tactic(auto)]

mod cond;
mod laws;
mod template;
mod tree;

pub use cond::eval_cond;
pub use laws::{values_are_local, what_is_given_fits};
pub use template::eval;
pub use tree::eval_tree;
pub use wf_eval_expr::{Look, Over, strict_row, word_of};
