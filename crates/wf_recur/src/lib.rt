//! Recurrences: the moments at which a trigger of type Recurrence fires (Workflow Definition Language, "Recurrence trigger").
//!
//! `Recurrence::read` reads what a trigger says of its recurrence, or says why it says none: the trigger is of another
//! type, something in it isn't of the form (the least pointer of what is amiss), or it counts in another zone than UTC.
//! `fires` lists the next moments at which a recurrence is due, at or after a given one.
//!
//! When a recurrence is due is said as a fact on one moment (`specs/Due.antt`), and its next moments as a list that
//! leaves none out (`specs/Next.antt`); there is one such list only, which `the_next_moments_are_one` tells. How they are
//! found rests on three steps: the next multiple of an interval is found by a division, the next of so many months by
//! halving, and the next minute of a schedule by passing over whole intervals, days and hours that aren't due. So the
//! time that a moment takes doesn't grow with how far it is from the start of the recurrence.
//!
//! Daylight saving is none of its matter, as there is none in UTC. This crate reads no clock.
#![tactic(auto)]

mod asked;
mod fault;
mod frequency;
mod interval;
mod laws;
mod moments;
mod months;
mod multiples;
mod part;
mod reading;
mod recurrence;
mod sets;
mod timetable;

pub use fault::RecurrenceFault;
pub use frequency::Frequency;
pub use interval::Interval;
pub use laws::{the_first_due_moments_are_next, the_next_moments_are_one};
pub use moments::fires;
pub use recurrence::{Kind, Recurrence};
