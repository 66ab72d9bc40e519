//! A talk: answers of connectors come in as lines while a run goes on, in whatever order they come.
//!
//! The run is anything that stands (`Stand`): it has inputs, wants answers for some attempts, takes one that is wanted and goes on, and
//! tells its record's line where it wants none any more. Each line of the source is the JSON text of one answer (`read_answer`). What is
//! said of it, a `# want`, a `# refused` or the record's line, is defined line by line over a relation that tells where the run stands
//! (`specs/Says`), and the whole talk by the bytes that were given (`specs/Talks`).
//!
//! `hold` asks the source for one byte at a time. All that is said of a line was taken by the sink before the next byte is asked for, so
//! nothing behind the line that ends the run is taken, and who sends the answers may wait for what is wanted.
//!
//! How a run comes to stand somewhere is no matter of this crate: it knows no definition and no machine.
#![tactic(auto)]

mod fault;
mod holding;
mod laws;
mod line;
mod put;
mod refusing;
mod said;
mod stand;
mod talk;
mod texts;
mod want;

pub use fault::LineFault;
pub use holding::hold;
pub use laws::lines_are_ended_or_last;
pub use line::read_answer;
pub use put::{close, put_all};
pub use refusing::refuse;
pub use stand::{Stand, StandFault};
pub use want::Want;
