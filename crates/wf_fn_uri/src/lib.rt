//! Functions of the expression language on URLs, their escapes and Base64 (Workflow Definition Language, reference of
//! the functions in expressions).
//!
//! Each function is one public call, `f_` and its name in snake case, from the values of its arguments to its value
//! or to the fault that says why it has none. What it gives is its row in `specs/`, unless memory ran out: an argument
//! of another type than a text is the fault; then comes `BadText`, where the text isn't of the form that the function
//! reads, and last `TooBig`.
//!
//! URLs are read by the crate `url`, after the URL Standard: what is written in another way is given as that standard
//! writes it, a host in lower case for one. Escapes are those of RFC 3986 and Base64 is that of RFC 4648, section 4,
//! with padding; what is decoded has to be UTF-8.
//!
//! Laws stand beside the rows, and say in another way what they mean: `escapes_are_undone`, `base64_is_undone` and
//! `data_urls_carry_their_encoding`.
//!
//! How many arguments a function takes is judged before a call; each call asks for a count of its row.
#![tactic(auto)]

mod encodings;
mod escapes;
mod laws;
mod parts;

pub use encodings::{
    f_base64, f_base64_to_string, f_data_uri, f_data_uri_to_string, f_decode_base64,
};
pub use escapes::{
    f_decode_uri_component, f_encode_uri_component, f_uri_component, f_uri_component_to_string,
};
pub use laws::{base64_is_undone, data_urls_carry_their_encoding, escapes_are_undone};
pub use parts::{
    f_uri_host, f_uri_path, f_uri_path_and_query, f_uri_port, f_uri_query, f_uri_scheme,
};
