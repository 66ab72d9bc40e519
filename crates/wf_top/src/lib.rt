//! The top call: all that the program does, over files, a source and a sink that are handed in.
//!
//! `serve_words` takes the words of a command, reads the files that they name, and writes the whole text of the answer
//! before it answers the status that the program ends with. What it says is stated as a plan: which file is read with
//! which limit, and what follows from its bytes. Everything that is claimed of a command is a clause of this one call.
//!
//! What a file holds of its form, or which line says why it holds none, is `wf_files`'s to say. The crate opens no file and no stream
//! itself, and makes no run: that is left to the objects which it is lent, of which an engine of runs (`wf_told`) promises exactly what is
//! told of runs and of a resubmission.
//!
//! At `session` it does what comes before a talk, which is left to what holds one (`wf_stands`).
//!
//! What may be said of runs is a relation (`specs/Told`), since runs are told by the events that a schedule leads to. `one_thing_is_said`
//! says that it leaves no choice where the definition is one that was read: the files decide on the status and the text.
#![tactic(auto)]

mod accepted;
mod commands;
mod drilling;
mod laws;
mod listing;
mod load;
mod obey;
mod recurring;
mod refusal;
mod resubmitting;
mod runs;
mod said;
mod serve;
mod session;
mod trigger;
mod words;

pub use laws::{
    one_thing_is_said, one_thing_is_told, one_thing_is_told_again, one_thing_is_told_of_a_drill,
    only_a_session_talks,
};
pub use serve::serve_words;
pub use words::{Command, parse_words};

/// The greatest length of a definition's file, in bytes: 4 MiB.
const DEFINITION_LIMIT: u64 = 4_194_304;

/// The greatest length of an inputs file, in bytes: 64 MiB.
const INPUTS_LIMIT: u64 = 67_108_864;

/// The greatest length of a schedule's file, in bytes: 64 MiB.
const SCHEDULE_LIMIT: u64 = 67_108_864;

/// The greatest length of a history's file, in bytes: 64 MiB.
const HISTORY_LIMIT: u64 = 67_108_864;
