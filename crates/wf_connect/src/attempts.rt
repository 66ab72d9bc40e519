//! What an attempt comes to.
ghost use Rattle.std.specs.Prelude.{◌≡◌, IfOk, option_map};
ghost use Rattle.wf_val.specs.Seen.{tree};
ghost use Rattle.wf_answers.specs.AnswerSeen.{answer_tree};
ghost use Rattle.wf_connect.specs.Attempts.{code_by, ends, outputs_by, status_by, tried};
ghost use Rattle.wf_connect.specs.AttemptsSeen.{tried_tree};

use std::alloc::{AllocError, Global};
use wf_answers::Answer;
use wf_record::Status;
use wf_retry::{Outcome, Policy};
use wf_val::{Fields, Text, Val};

/// What comes of an attempt.
#[derive(Drop)]
pub enum Tried {
    /// Another attempt follows.
    Again,
    /// None follows, and so the action ends.
    Final {
        status: Status,
        code: Text,
        outputs: Val,
    },
}

fn status_by(outcome: Outcome) -> Status
    ensures { result ≡ status_by outcome }
{
    match outcome {
        Outcome::Code(code) => {
            if 200 <= code && code <= 299 {
                Status::Succeeded
            } else {
                Status::Failed
            }
        }
        Outcome::NoConnection => Status::Failed,
        Outcome::TimedOut => Status::TimedOut,
    }
}

fn code_by(alloc: Global, outcome: Outcome) -> Result<Text, AllocError>
    ensures { IfOk result (λ t. t ≡ code_by outcome) }
{
    match outcome {
        Outcome::Code(code) => Ok(Text::from_string(format!(in alloc; "{}", code)?)),
        Outcome::NoConnection => Text::of(alloc, "NoConnection"),
        Outcome::TimedOut => Text::of(alloc, "TimedOut"),
    }
}

fn outputs_by(alloc: Global, outcome: Outcome, headers: &Val, body: &Val) -> Result<Val, AllocError>
    ensures { IfOk result (λ v. tree v ≡ outputs_by outcome (tree headers.now) (tree body.now)) }
{
    match outcome {
        Outcome::Code(code) => {
            let mut fields = Fields::new(alloc);
            fields.put(Text::of(alloc, "body")?, body.copy(alloc)?)?;
            fields.put(Text::of(alloc, "headers")?, headers.copy(alloc)?)?;
            fields.put(Text::of(alloc, "statusCode")?, Val::Int(code as i64))?;
            Ok(Val::Obj(fields))
        }
        _ => Ok(Val::Null),
    }
}

fn ends(alloc: Global, answer: &Answer) -> Result<Tried, AllocError>
    ensures { IfOk result (λ t. tried_tree t ≡ ends (answer_tree answer.now)) }
{
    Ok(Tried::Final {
        status: status_by(answer.outcome),
        code: code_by(alloc, answer.outcome)?,
        outputs: outputs_by(alloc, answer.outcome, &answer.headers, &answer.body)?,
    })
}

/// What comes of attempt number `tries`, counted from 1, by the answer that is for it.
pub fn attempt(
    alloc: Global,
    policy: &Policy,
    tries: u32,
    answer: Option<&Answer>,
) -> Result<Tried, AllocError>
    ensures { IfOk result (λ t. tried_tree t ≡ tried policy.now tries (option_map (λ a. answer_tree a.now) answer.entry)) }
{
    match answer {
        None => Ok(Tried::Final {
            status: Status::Failed,
            code: Text::of(alloc, "NoAnswer")?,
            outputs: Val::Null,
        }),
        Some(answer) => {
            if policy.again(tries, answer.outcome) {
                Ok(Tried::Again)
            } else {
                ends(alloc, answer)
            }
        }
    }
}
