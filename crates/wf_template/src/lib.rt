//! Templates as trees: the texts of a workflow definition that hold expressions, taken apart.
//!
//! In a definition of Azure Logic Apps (Workflow Definition Language, schema 2016-06-01, "Expressions") a text that
//! begins with `@` is an expression, and a text may hold expressions in `@{` and `}`. A `Template` is such a text
//! taken apart, an `Expr` is one expression, a `Tree` is a value whose texts are templates (the inputs of an action),
//! and a `Cond` is the condition of an `If` or an `Until`. Contracts see each of them as a tree over plain lists and
//! numbers, so that what is said and proved above this crate speaks of trees and never of buffers or boxes.
//!
//! An expression may have thousands of accesses, each on the last (`a.b.c..`). `chain_of` gives them in a row, so that
//! a loop walks them; `copy` and the end of an expression's life go along them by a loop too, and take no more of the
//! stack for more accesses.
//!
//! This crate reads and prints no text (`wf_expr` does), evaluates no expression, and knows no function's name or
//! arity. What takes memory takes its allocator, and answers an error where none is left, with everything that it was
//! lent as before; what the call was given by value is then dropped.
#![tactic(auto)]

mod chain;
mod cond;
mod expr;
mod template;
mod tree;
mod tree_fields;

pub use chain::{Access, Chain, Start, chain_of};
pub use cond::{Cond, Conds};
pub use expr::{Expr, Exprs};
pub use template::{Piece, Pieces, Template};
pub use tree::{Tree, Trees};
pub use tree_fields::TreeFields;
