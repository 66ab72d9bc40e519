//! The inputs of a run: what it is handed, and what each attempt of a connector comes to.
//!
//! A run calls nothing. Its inputs file names it, gives its seed and its moment, may choose a trigger and give what the
//! trigger put out, gives parameters, and has an answer for each attempt of an action that would have called a service.
//! `read_inputs` reads such a file from its value, or says why it is none: it isn't of the form (the least pointer of
//! what is amiss), two answers are for one attempt (the least such), or the moment is no timestamp.
//!
//! `Inputs::answer` finds the answer of an attempt by a binary search. That no two answers are for one attempt is kept
//! by the type `Answers`, that the moment is one of the years 1 to 9999 by `Ticks`. Where answers come one by one,
//! while a run goes on, `answer_of` reads each from a value of its own, and `Inputs::add` adds it.
//!
//! This crate knows no definition: whether the trigger is there, which parameters are wanted and which attempts come is
//! asked above. Answers for attempts that don't come are kept and not used.
#![tactic(auto)]

mod answer;
mod asked;
mod fault;
mod gather;
mod inputs;
mod laws;
mod members;
mod one_answer;
mod part;
mod reading;

pub use answer::{Answer, Answers};
pub use fault::{AnswerFault, InputsFault};
pub use inputs::Inputs;
pub use laws::{an_added_answer_is_found, the_first_answers_are_kept, the_least_double_is_told};
pub use one_answer::answer_of;
pub use reading::read_inputs;
pub use wf_fn_time::Ticks;
