//! The attempts of a connector, by the answers that a run was handed.
ghost use Rattle.std.specs.Prelude.{◌≡◌, ℕ, IfOk, length, map, nat_lt, option_map};
ghost use Rattle.wf_answers.specs.AnswerSeen.{answer_tree};
ghost use Rattle.wf_connect.specs.Attempts.{tried};
ghost use Rattle.wf_connect.specs.AttemptsSeen.{tried_tree};
ghost use Rattle.wf_connect.specs.Last.{answered_at, ending, is_final, last_attempt, tries_from, tries_of};
ghost use Rattle.wf_closing.specs.DoneSeen.{begun_tree, done_tree};
ghost use Rattle.wf_closing.specs.Leaf.{ended, tries_in};
ghost use Rattle.wf_retry.specs.Again.{retries};
ghost use Rattle.wf_doing.specs.Places.{named};

use std::alloc::{AllocError, Global};
use wf_answers::{Answer, Answers};
use wf_closing::{Begun, Done, ended_by};
use wf_connect::{Tried, attempt, the_last_attempt_is_the_least, try_of};
use wf_record::Tries;
use wf_retry::Policy;
use wf_val::{Indexes, Name};

/// The answer for an attempt of an action, by a binary search.
pub fn answer_at<'a>(
    answers: &'a Answers,
    name: &Name,
    at: &Indexes,
    attempt: u64,
) -> Option<&'a Answer>
    ensures { option_map (λ a. answer_tree a.now) result ≡ answered_at (map answer_tree answers.now) (named name.now at.now) attempt }
{
    let answers = answers.as_slice();
    let found = answers.binary_search_by(|answer| {
        answer
            .address
            .name
            .order(name)
            .then(answer.address.at.as_slice().cmp(at.as_slice()))
            .then((answer.attempt as u64).cmp(&attempt))
    });
    match found {
        Ok(place) => Some(&answers[place]),
        Err(_) => None,
    }
}

fn is_final(policy: &Policy, attempt: u32, answer: Option<&Answer>) -> bool
    ensures { result ≡ is_final policy.now attempt (option_map (λ a. answer_tree a.now) answer.entry) }
{
    match answer {
        Some(answer) => !policy.again(attempt, answer.outcome),
        None => true,
    }
}

// The number of the last attempt. It asks for one answer after the other, as long as another attempt follows.
fn last_attempt(policy: &Policy, answers: &Answers, name: &Name, at: &Indexes) -> u64
    ensures { result ≡ last_attempt policy.now (answered_at (map answer_tree answers.now) (named name.now at.now)) }
{
    let retries = policy.retries();
    for made in 0..retries {
        let number = made + 1;
        if is_final(policy, number, answer_at(answers, name, at, number as u64)) {
            return number as u64;
        }
    }
    retries as u64 + 1
}

/// Whether a leaf that made so many attempts makes another.
pub fn has_try(begun: &Begun, answers: &Answers, name: &Name, at: &Indexes, made: u64) -> bool
    ensures { result ≡ nat_lt made (length (tries_in (map answer_tree answers.now) (named name.now at.now) (begun_tree begun.now))) }
{
    the_last_attempt_is_the_least();
    match begun {
        Begun::Acted(_) => false,
        Begun::Calling { inputs: _, policy } => made < last_attempt(policy, answers, name, at),
    }
}

// What a row keeps of so many attempts.
fn tries_made(
    alloc: Global,
    answers: &Answers,
    name: &Name,
    at: &Indexes,
    count: u64,
) -> Result<Tries, AllocError>
    ensures { IfOk result (λ tries. tries
        ≡ tries_from (answered_at (map answer_tree answers.now) (named name.now at.now)) count 1) }
{
    let mut tries = Tries::new(alloc);
    for made in 0..count {
        tries.push(try_of(answer_at(answers, name, at, made + 1)))?;
    }
    Ok(tries)
}

// What comes of the last attempt. As none follows it, it is as if none were allowed to.
fn last_tried(
    alloc: Global,
    policy: &Policy,
    answers: &Answers,
    name: &Name,
    at: &Indexes,
) -> Result<Tried, AllocError>
    ensures { IfOk result (λ t. tried_tree t
        ≡ ending policy.now (answered_at (map answer_tree answers.now) (named name.now at.now))) }
{
    the_last_attempt_is_the_least();
    let last = last_attempt(policy, answers, name, at);
    let tried = attempt(alloc, &Policy::Never, 1, answer_at(answers, name, at, last))?;
    Ok(tried)
}

fn copy_of(alloc: Global, done: &Done) -> Result<Done, AllocError>
    ensures { IfOk result (λ d. done_tree d ≡ done_tree done.now) }
{
    Ok(Done {
        status: done.status,
        code: done.code.copy(alloc)?,
        inputs: done.inputs.copy(alloc)?,
        outputs: done.outputs.copy(alloc)?,
        error: done.error.copy(alloc)?,
    })
}

/// What a leaf comes to, by the answers for its attempts.
pub fn ended(
    alloc: Global,
    begun: &Begun,
    answers: &Answers,
    name: &Name,
    at: &Indexes,
) -> Result<Done, AllocError>
    ensures { IfOk result (λ d. done_tree d
        ≡ ended (map answer_tree answers.now) (named name.now at.now) (begun_tree begun.now)) }
{
    match begun {
        Begun::Acted(done) => copy_of(alloc, done),
        Begun::Calling { inputs, policy } => {
            let tried = last_tried(alloc, policy, answers, name, at)?;
            ended_by(alloc, inputs.copy(alloc)?, tried)
        }
    }
}

/// What the row of a leaf keeps of its attempts.
pub fn tries(
    alloc: Global,
    begun: &Begun,
    answers: &Answers,
    name: &Name,
    at: &Indexes,
) -> Result<Tries, AllocError>
    ensures { IfOk result (λ ts. ts ≡ tries_in (map answer_tree answers.now) (named name.now at.now) (begun_tree begun.now)) }
{
    match begun {
        Begun::Acted(_) => Ok(Tries::new(alloc)),
        Begun::Calling { inputs: _, policy } => {
            let count = last_attempt(policy, answers, name, at);
            tries_made(alloc, answers, name, at, count)
        }
    }
}
