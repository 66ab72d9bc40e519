//! Worked values of what actions come to and of what containers decide, beside those of the crates that define it.
//!
//! They say by a value of each type what the other crates' rows say by one or two: what a Select, a Query, a Join, a ParseJson and a
//! Terminate take (`proofs/DataRows`), what makes and changes a variable (`proofs/VariableRows`), and what an If, a Switch, a Foreach and
//! an Until are decided by (`proofs/OpeningRows`); of each status code from 100 to 599 whether it is a success, and whether another attempt
//! follows (`proofs/ConnectRows`, `proofs/RetryRows`); what the schema of a ParseJson judges, and what a fault comes to, whichever it is
//! (`proofs/DoneRows`), and where a value is no schema (`proofs/SchemaRows`). What is owed was worked out by hand from the rules.
//!
//! It has no code and no definition, and no crate stands on it: a row more proves nothing anew.
#![tactic(auto)]
