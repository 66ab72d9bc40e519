//! A line of a talk, as the answer that it says.
ghost use Rattle.std.specs.Prelude.{◌≡◌, ◌≢◌, IfErr, IfOk, Err, Ok};
ghost use Rattle.wf_answers.specs.AnswerSeen.{answer_tree};
ghost use Rattle.wf_talk.specs.Line.{read_answer};

use crate::fault::LineFault;
use std::alloc::Global;
use wf_answers::{Answer, answer_of};

/// The answer that a line says. Whether it is wanted is asked by the talk.
pub fn read_answer(alloc: Global, line: &[u8]) -> Result<Answer, LineFault>
    ensures answer { IfOk result (λ a. read_answer line.now ≡ Ok (answer_tree a)) }
    ensures fault { IfErr result (λ f. f ≢ LineFault.Memory → read_answer line.now ≡ Err f) }
{
    let value = wf_json::read(alloc, line)?;
    let answer = answer_of(alloc, &value)?;
    Ok(answer)
}
