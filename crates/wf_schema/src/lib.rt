//! Schemas of JSON values: which schema is a value, and where does a value fail one?
//!
//! The schema of a ParseJson action is JSON Schema, and this is the part of it that the engine looks at. A schema is an
//! object. Its `type` is one of seven or a list of them, `properties` an object of schemas, `required` a list of names,
//! `items` a schema, or a list, which is ignored, and `enum` a list of values; each may be absent, and every other member
//! is ignored. All numbers are whole, so `integer` and `number` mean the same.
//!
//! `Schema::read` reads one, or tells the least place at which a value is none; `is_schema` tells alone whether it is one,
//! and takes no memory. `mismatch` tells the least place at which a value isn't as a schema asks. Places are pointers
//! (RFC 6901), and the least is that of their order by bytes.
//!
//! `places_are_where_a_value_fails` is a law, with no code: what a mismatch is, cause by cause.
//!
//! No schema is fetched, and none is named from inside another: `$ref`, `format`, patterns, and bounds of numbers and
//! lengths are among the members that are ignored.
#![tactic(auto)]

mod asked;
mod fault;
mod keywords;
mod laws;
mod part;
mod schema;
mod walk;

pub use fault::SchemaFault;
pub use keywords::is_schema;
pub use laws::places_are_where_a_value_fails;
pub use schema::Schema;
pub use walk::mismatch;
pub use wf_places::{fault_text, pointer, quoted};
