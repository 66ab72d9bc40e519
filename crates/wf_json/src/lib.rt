//! Values from JSON texts, and JSON texts of values (RFC 8259).
//!
//! A file of a workflow, its inputs or a history is read here. What other readers of JSON let pass
//! in silence is refused: a number with a fraction or an exponent, one that 64 bits can't hold, and
//! lists and objects that nest too deep, each with a pointer (RFC 6901) to the place. Where several
//! places are at fault the least pointer by bytes is named, so that the answer doesn't depend on
//! the order of a walk.
//!
//! A value is made straight from the tokens of its text. Only a text in which something is refused is
//! read again, for the least place that has the flaw. Such a reading keeps no value: of each list that is
//! open it keeps the least pointer so far, and of each object the least pointers by name, since a later
//! member of one name stands in place of an earlier one.
//!
//! A value is written without white space, with the members of objects in the byte order of their
//! names: equal values have equal texts.
//!
//! Whoever judges the places of a value in other ways makes and compares pointers by `pointer`.
//!
//! It is no reader of streams, keeps no order of members and no spelling of numbers, and lays
//! nothing out.
#![tactic(auto)]

mod eval_fault;
mod fault;
mod flaws;
mod laws;
pub mod pointer;
mod reading;
mod stop;
mod straight;
mod whole;
mod writing;

pub use eval_fault::fault_text;
pub use fault::JsonFault;
pub use laws::{least_is_least, pointers_lead_to_flaws, read_is_shallow, reads_back};
pub use reading::read;
pub use writing::{quote_to, quoted, text, write, write_fields_to, write_to};
