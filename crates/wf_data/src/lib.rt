//! What the actions take in and give out that hand on data, and call nothing.
//!
//! Compose, Wait, Response, Terminate, Select, Query, Join and ParseJson (Workflow Definition Language, "Schema reference
//! guide for trigger and action types") have a call each: `compose`, `wait`, `response`, `terminate`, `select`, `query`,
//! `join`, `parse_json`. It evaluates in a look what such an action asks for, and gives what the action keeps as inputs
//! and outputs, or the first fault, because of which it keeps neither. That what is kept fits is tested last, the inputs
//! before the outputs. `run_status` tells how a Terminate ends its run.
//!
//! `specs/Simple.antt`, `specs/Lists.antt` and `specs/Parsed.antt` say what each comes to, in the order of its faults. No
//! call has a condition. Of the look only words may be drawn; what it tells stays as it was.
//!
//! `json_texts_are_undone` promises that ParseJson reads back what was written as JSON.
//!
//! This crate keeps no rows, decides no order and writes no variable, and a schema of a ParseJson is nothing of its own.
#![tactic(auto)]

mod laws;
mod lists;
mod made;
mod parsed;
mod simple;

pub use laws::json_texts_are_undone;
pub use lists::{join, query, select};
pub use made::{Made, fitting, one_member};
pub use parsed::parse_json;
pub use simple::{compose, response, run_status, terminate, wait};
pub use wf_eval::{Look, eval_tree, values_are_local, what_is_given_fits};
pub use wf_json::text;
pub use wf_record::{Row, Status};
