//! Records: what a run leaves, what of it is printed, and what it costs.
//!
//! A `Record` has the name of its run, the digest of its definition, what the run was started with, how it ended, and a
//! `Row` for each action in each iteration of the loops round it. Rows stand in the order of their addresses, each address
//! once; their type `Rows` keeps that, so a record's fields are open and no caller tests them. A row of a connector tells what
//! each of its attempts came to (`Try`).
//!
//! What a record is as a value is said once, in `specs/Record`, and its line is the JSON text of that value and a line feed. The
//! line is written member by member into one buffer: neither the record nor a row is made as a value for it, and no text is copied.
//! `Record::to_val` makes the value for whoever wants to look into it. `specs/Cost` says what a run costs, and `specs/Worked`
//! has a record whose line and cost are worked out.
//!
//! This crate runs nothing and reads no record back.
#![tactic(auto)]

mod attempt;
mod cost;
mod digits;
mod laws;
mod line;
mod plain;
mod record;
mod row;
mod short;
mod status;
mod value;

pub use attempt::{Tries, Try};
pub use cost::{iterations, row_cost};
pub use digits::Digits;
pub use laws::{a_line_is_its_pieces, a_row_is_found_by_its_address, cost_by_counts};
pub use line::{record_line, with_record_line};
pub use record::Record;
pub use row::{Row, Rows};
pub use status::{RunStatus, Status};
