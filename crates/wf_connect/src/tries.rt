//! What a row keeps of an attempt.
ghost use Rattle.std.specs.Prelude.{◌≡◌, option_map};
ghost use Rattle.wf_answers.specs.AnswerSeen.{answer_tree};
ghost use Rattle.wf_connect.specs.Attempts.{try_by, try_of};

use wf_answers::Answer;
use wf_record::Try;
use wf_retry::Outcome;

fn try_by(outcome: Outcome) -> Try
    ensures { result ≡ try_by outcome }
{
    match outcome {
        Outcome::Code(code) => Try::Code(code),
        Outcome::NoConnection => Try::NoConnection,
        Outcome::TimedOut => Try::TimedOut,
    }
}

/// What is kept of an attempt that had this answer, or none.
pub fn try_of(answer: Option<&Answer>) -> Try
    ensures { result ≡ try_of (option_map (λ a. answer_tree a.now) answer.entry) }
{
    match answer {
        Some(answer) => try_by(answer.outcome),
        None => Try::NoAnswer,
    }
}
