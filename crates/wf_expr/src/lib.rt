//! Reading and printing templates: the texts of a workflow definition that hold expressions.
//!
//! `parse_template` gives the template that a text spells (Workflow Definition Language, schema 2016-06-01,
//! "Expressions"), as the trees of `wf_template`; or the place where the text goes wrong, or the length of the first
//! expression that is too long. `print_expr` gives the text of an expression, which derives it wherever any text does.
//!
//! `specs/Grammar.antt` says what the characters of a text stand for, and `specs/Spells.antt` which template a text
//! spells, where a text goes wrong that spells none, and which text has too long an expression. `no_two_templates`
//! promises that no text has two templates or two such lengths, or spells a template and has such an expression, and
//! `a_template_or_a_fault` that each text spells a template, goes wrong at a place or has such an expression. What is
//! said above this crate of the template of a text is said by a function, `template_in` of `specs/Text.antt`;
//! `the_template_of_a_text` promises that it is the grammar's.
//!
//! This crate evaluates no expression, knows no function's name or arity, and reads no JSON. What takes memory takes
//! its allocator, and answers an error where none is left, with everything that it was lent as before; what the call
//! was given by value is then dropped.
#![tactic(auto)]

mod character;
mod digits;
mod draft;
mod expression_step;
mod fault;
mod follow;
mod front;
mod in_place;
mod kind;
mod law;
mod mode;
mod parse;
mod print;
mod reader;
mod stack;
mod step;
mod text_step;
mod unwritten;
mod word;

pub use fault::ParseFault;
pub use law::{a_template_or_a_fault, no_two_templates, the_template_of_a_text};
pub use parse::parse_template;
pub use print::print_expr;
