//! An answer is taken.
ghost use Rattle.std.specs.Prelude.{◌≡◌, None, OnOk};
ghost use Rattle.wf_answers.specs.Added.{with_added};
ghost use Rattle.wf_answers.specs.AnswerSeen.{answer_tree};
ghost use Rattle.wf_answers.specs.AnswerTree.{find_answer, key_of};
ghost use Rattle.wf_answers.specs.InputsSeen.{inputs_tree};
ghost use Rattle.wf_waits.specs.Kept.{kept_without};

use std::alloc::{AllocError, Global};
use wf_answers::{Answer, Inputs};
use wf_talk::Want;
use wf_waits::Waits;

/// Adds an answer to the inputs, and takes the attempt that it is for from those that wait.
pub(crate) fn add(
    alloc: Global,
    inputs: &mut Inputs,
    waits: &mut Waits,
    answer: Answer,
) -> Result<(), AllocError>
    requires { find_answer (key_of (answer_tree answer)) (inputs_tree inputs.old).answers ≡ None }
    ensures inputs { OnOk result (inputs_tree inputs.new ≡ with_added (inputs_tree inputs.old) (answer_tree answer)) }
    ensures waits { OnOk result (waits.new ≡ kept_without (key_of (answer_tree answer)) waits.old) }
{
    let want = Want {
        address: answer.address.copy(alloc)?,
        attempt: answer.attempt as u64,
    };
    waits.take(alloc, &want);
    inputs.add(answer)
}
