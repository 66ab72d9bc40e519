//! What a run is handed.
ghost use Rattle.std.specs.Prelude.{◌≡◌, None, OnErr, OnOk, option_map};
ghost use Rattle.wf_answers.specs.Added.{with_added};
ghost use Rattle.wf_answers.specs.AnswerSeen.{answer_tree};
ghost use Rattle.wf_answers.specs.AnswerTree.{find_answer, key_of};
ghost use Rattle.wf_answers.specs.InputsSeen.{inputs_tree};

use crate::answer::{Answer, Answers, find};
use std::alloc::AllocError;
use wf_fn_time::Ticks;
use wf_val::{Address, Fields, Name, Text, Val};

/// What a run is handed.
#[derive(Drop)]
pub struct Inputs {
    /// The run's name.
    pub run: Name,
    /// What its words are made of.
    pub seed: Text,
    pub moment: Ticks,
    /// The trigger that is to start it, where the inputs name one.
    pub trigger: Option<Name>,
    /// What the trigger puts out.
    pub outputs: Val,
    pub parameters: Fields,
    pub answers: Answers,
}

impl Inputs {
    /// What an attempt at an address came to; none where no answer is for it. It takes as many comparisons as the number
    /// of answers has binary digits.
    pub fn answer(&self, address: &Address, attempt: u32) -> Option<&Answer>
        ensures { option_map (λ a. answer_tree a.now) result ≡ find_answer (address.now, attempt) (inputs_tree self.now).answers }
    {
        find(self.answers.as_slice(), address, attempt)
    }

    /// Adds an answer for an attempt that has none yet, as it comes while a run goes on. It moves every answer for an
    /// attempt behind it.
    #[tactic(auto, using(crate::proofs::AddedLemmas::put_seen))]
    pub fn add(&mut self, answer: Answer) -> Result<(), AllocError>
        requires { find_answer (key_of (answer_tree answer)) (inputs_tree self.old).answers ≡ None }
        ensures ok { OnOk result (inputs_tree self.new ≡ with_added (inputs_tree self.old) (answer_tree answer)) }
        ensures err { OnErr result (self.new ≡ self.old) }
    {
        self.answers.put(answer)
    }
}
