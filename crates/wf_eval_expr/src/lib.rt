//! The value of an expression in a look.
//!
//! `eval_expr` gives what an expression of a workflow definition (Workflow Definition Language, schema 2016-06-01,
//! "Expressions") comes to in a look, or the first fault from left to right, and draws just the words that the
//! definition counts. What an expression may ask for, and what is got and decided without evaluating, is said by
//! `wf_look`; what functions give of values, of the moment and of words by `wf_functions`.
//!
//! `specs/Value.antt` says what an expression comes to, by the way in which its function comes to its value
//! (`specs/Ways.antt`), and `specs/Uses.antt` what it asks a look for. No call has a condition: an expression with a
//! count of arguments that its function doesn't take has a fault too.
//!
//! `expressions_are_local` promises that a value depends only on what the look tells where the expression asks, and
//! `what_an_expression_gives_fits` that every value that is given fits.
//!
//! This crate knows no text with expressions in it, no tree and no condition: those are `wf_eval`'s. It parses nothing,
//! keeps no rows and decides no order.
#![tactic(auto)]

mod expression;
mod laws;
mod way;

pub use expression::eval_expr;
pub use laws::{expressions_are_local, what_an_expression_gives_fits};
pub use wf_calls::function_named;
pub use wf_look::{Look, Measured, Over, as_text, strict_row, word_of};
