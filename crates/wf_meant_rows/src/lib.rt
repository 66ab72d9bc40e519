//! Worked values of what a definition means, beside those of `wf_meant` itself.
//!
//! Each is a small definition, or a part of one, with what it comes to, and is computed by the definitions alone. What is owed was worked
//! out by hand from the rules. Which actions a Terminate halts and which containers it cancels: `proofs/GateRows`. How graphs end, by the
//! statuses of their actions: `proofs/StatusRows`, and what containers come to by these: `proofs/CloseRows`. A Switch by a value of each
//! type: `proofs/SwitchRows`. What is told at a point of the start, of layers, and of actions in containers and loops: `proofs/LookRows`.
//! What a record has: `proofs/RecordRows`.
//!
//! `proofs/Cases1` to `Cases5` are 100 random definitions that break no rule, each with its record. They were written once, by a program
//! that isn't kept here: the records are what a reading of the rules in Python gives, made apart from these definitions.
//!
//! It has no code and no definition, and no crate stands on it: a row more proves nothing anew.
#![tactic(auto)]
