//! What a resubmission begins with.
//!
//! A run is resubmitted from the record of an older one and the numbers of some of its actions. What comes of that is said by `wf_meant`;
//! an engine takes up the older run where it would have been without what is redone. `regain` makes that state as lists: the rows that are
//! kept, copied out of the record; an open container for each that is closed again, with what its row says that it had decided; and of each
//! variable who of those whose rows are kept wrote it last. `specs/First` has it as a state of the event machine.
//!
//! Which actions are redone and closed again is asked once for each action (`wf_redo`). Of two writers of a variable one is later in every
//! order of events, so the last is found in one pass over the rows: `specs/Last` says which of two instances is later.
//!
//! It asks that the record has the right shape for the definition, and that the actions may be redone; it tests neither, and runs nothing.
#![tactic(auto)]

mod kept;
mod last;
mod later;
mod regained;
mod reopened;

pub use regained::{Regained, regain};
pub use wf_sight_laws::a_definition_is_an_instance;
