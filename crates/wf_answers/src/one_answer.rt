//! One answer, read from a value of its own.
ghost use Rattle.std.specs.Prelude.{◌≡◌, ◌≢◌, IfOk, IfErr, Ok, Err};
ghost use Rattle.wf_answers.specs.AnswerSeen.{answer_tree};
ghost use Rattle.wf_answers.specs.OneAnswer.{one_answer};
ghost use Rattle.wf_answers.specs.declared.fault.AnswerFault.TheVariants.{Memory};
ghost use Rattle.wf_val.specs.Seen.{tree};

use crate::answer::Answer;
use crate::fault::AnswerFault;
use crate::members::as_answer;
use crate::part::Part;
use std::alloc::Global;
use wf_places::least_place;
use wf_val::{Text, Val};

/// The answer that a value is, of the form of those in inputs, or why it is none. Whether it is for an attempt that
/// comes is asked above.
pub fn answer_of(alloc: Global, value: &Val) -> Result<Answer, AnswerFault>
    ensures answer { IfOk result (λ a. one_answer (tree value.now) ≡ Ok (answer_tree a)) }
    ensures fault { IfErr result (λ f. f ≢ Memory → one_answer (tree value.now) ≡ Err f) }
{
    if let Some(pointer) = least_place(alloc, Part::Answer, value)? {
        let pointer = Text::from_string(pointer);
        return Err(AnswerFault::Form { pointer });
    }
    Ok(as_answer(alloc, value)?)
}
