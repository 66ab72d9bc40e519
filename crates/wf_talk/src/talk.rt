//! A talk between its lines.
ghost use Rattle.std.specs.Prelude.{◌≡◌, ◌≢◌, ◌<◌, ◌≤◌, ◌+◌, ◌^◌, ◌++◌, [], IfOk, List, Ok, map, true, Some, None};
ghost use Rattle.wf_answers.specs.AnswerSeen.{answer_tree};
ghost use Rattle.wf_answers.specs.AnswerTree.{Key, key_of};
ghost use Rattle.wf_talk.specs.Byte.{Finishes};
ghost use Rattle.wf_talk.specs.Hearing.{opening, wanting};
ghost use Rattle.wf_talk.specs.Keys.{fresh, is_among, open_lines};
ghost use Rattle.wf_talk.specs.Line.{Accepted, Refused, heard_answer, read_answer};
ghost use Rattle.wf_talk.specs.Says.{Hears, SaysOf, SaysWhere};
ghost use Rattle.wf_talk.specs.Talks.{input_ended};

use crate::fault::{LineFault, fault_words, not_wanted_words};
use crate::line::read_answer;
use crate::said::{End, Last, Said};
use crate::stand::{Stand, StandFault};
use crate::texts::{open_lines, refused_line, summary_line, want_lines};
use crate::want::Want;
use std::alloc::{AllocError, Global};
use wf_answers::Answer;
use wf_lines::without_return;

/// A run that stands, how many lines were taken, and how many of them refused.
#[derive(Drop)]
pub(crate) struct Talk<S> {
    pub(crate) stand: S,
    pub(crate) number: u64,
    pub(crate) refused: u64,
    ghost among: { refused ≤ number },
}

impl<S: Stand> Talk<S> {
    ghost use Rattle.wf_talk.specs.Seen.{after, hearing, number, want_key};

    /// Says where the run stands before any line is taken.
    pub(crate) fn open(&mut self, alloc: Global) -> Result<Said, AllocError>
        requires { self.old.number ≡ 0 }
        ensures same { IfOk result (λ said. said.over ≡ None → S.origin self.new.stand ≡ S.origin self.old.stand) }
        ensures said { IfOk result (λ said. SaysWhere (S.stands (S.origin self.old.stand)) (opening (S.inputs self.old.stand))
            said.text.items (after said.over (hearing S.inputs S.wanted self.new))) }
    {
        let wants = self.stand.wants(alloc)?;
        self.tell(alloc, &wants)
    }

    // Says where the run stands; `wants` are the attempts that wait now and weren't among some earlier ones.
    fn tell(&mut self, alloc: Global, wants: &[Want]) -> Result<Said, AllocError>
        ensures same { IfOk result (λ said. said.over ≡ None → S.origin self.new.stand ≡ S.origin self.old.stand) }
        ensures counted { self.new.number ≡ self.old.number }
        ensures said { IfOk result (λ said. (earlier : List Key) → map want_key wants.now ≡ fresh earlier (S.wanted self.old.stand)
            → SaysWhere (S.stands (S.origin self.old.stand)) (wanting (hearing S.inputs S.wanted self.old) earlier)
            said.text.items (after said.over (hearing S.inputs S.wanted self.new))) }
    {
        if self.stand.is_waiting() {
            let text = want_lines(alloc, wants)?;
            Ok(Said { text, over: None })
        } else {
            self.end(alloc)
        }
    }

    // Says how a run stands that wants no answer.
    fn end(&mut self, alloc: Global) -> Result<Said, AllocError>
        requires { S.wanted self.old.stand ≡ [] }
        ensures over { IfOk result (λ said. said.over ≢ None) }
        ensures counted { self.new.number ≡ self.old.number }
        ensures said { IfOk result (λ said. (earlier : List Key)
            → SaysWhere (S.stands (S.origin self.old.stand)) (wanting (hearing S.inputs S.wanted self.old) earlier)
            said.text.items (after said.over (hearing S.inputs S.wanted self.new))) }
    {
        match self.stand.record_line(alloc) {
            Ok(line) => Said::ended(alloc, line, self.number, self.refused),
            Err(StandFault::TooLarge) => Said::too_large(alloc),
            Err(StandFault::Memory) => Err(AllocError),
        }
    }

    /// Takes a line, and says what it comes to.
    pub(crate) fn hear(&mut self, alloc: Global, line: &[u8]) -> Result<Said, AllocError>
        requires { self.old.number < 2 ^ 32 }
        ensures same { IfOk result (λ said. said.over ≡ None → S.origin self.new.stand ≡ S.origin self.old.stand) }
        ensures counted { IfOk result (λ said. self.new.number ≡ self.old.number + 1) }
        ensures said { IfOk result (λ said. Hears (S.stands (S.origin self.old.stand)) (hearing S.inputs S.wanted self.old) line.now
            said.text.items (after said.over (hearing S.inputs S.wanted self.new))) }
    {
        self.number += 1;
        let text = without_return(line);
        if text.is_empty() {
            return Ok(Said::nothing(alloc));
        }
        match read_answer(alloc, text) {
            Ok(answer) => self.judge(alloc, answer),
            Err(LineFault::Memory) => Err(AllocError),
            Err(fault) => self.refuse(alloc, &fault_words(alloc, &fault)?),
        }
    }

    // Takes the answer of a line that was counted, or refuses it where none is wanted for its attempt.
    fn judge(&mut self, alloc: Global, answer: Answer) -> Result<Said, AllocError>
        requires { self.old.refused < self.old.number }
        ensures same { IfOk result (λ said. said.over ≡ None → S.origin self.new.stand ≡ S.origin self.old.stand) }
        ensures counted { self.new.number ≡ self.old.number }
        ensures said { IfOk result (λ said. SaysOf (S.stands (S.origin self.old.stand)) (hearing S.inputs S.wanted self.old)
            (heard_answer (S.wanted self.old.stand) (Ok (answer_tree answer))) said.text.items
            (after said.over (hearing S.inputs S.wanted self.new))) }
    {
        if self.stand.is_wanted(&answer.address, answer.attempt) {
            self.accept(alloc, answer)
        } else {
            let words = not_wanted_words(alloc, &answer.address, answer.attempt)?;
            self.refuse(alloc, &words)
        }
    }

    // Refuses a line that was counted.
    fn refuse(&mut self, alloc: Global, words: &[u8]) -> Result<Said, AllocError>
        requires { self.old.refused < self.old.number }
        ensures same { S.origin self.new.stand ≡ S.origin self.old.stand }
        ensures counted { self.new.number ≡ self.old.number }
        ensures said { IfOk result (λ said. SaysOf (S.stands (S.origin self.old.stand)) (hearing S.inputs S.wanted self.old)
            (Refused words.now) said.text.items (after said.over (hearing S.inputs S.wanted self.new))) }
    {
        self.refused += 1;
        let text = refused_line(alloc, self.number, words)?;
        Ok(Said { text, over: None })
    }

    // Takes a wanted answer of a line that was counted.
    fn accept(&mut self, alloc: Global, answer: Answer) -> Result<Said, AllocError>
        requires { is_among (key_of (answer_tree answer)) (S.wanted self.old.stand) ≡ true }
        ensures same { IfOk result (λ said. said.over ≡ None → S.origin self.new.stand ≡ S.origin self.old.stand) }
        ensures counted { self.new.number ≡ self.old.number }
        ensures said { IfOk result (λ said. SaysOf (S.stands (S.origin self.old.stand)) (hearing S.inputs S.wanted self.old)
            (Accepted (answer_tree answer)) said.text.items (after said.over (hearing S.inputs S.wanted self.new))) }
    {
        match self.stand.accept(alloc, answer) {
            Ok(wants) => self.tell(alloc, &wants),
            Err(StandFault::TooLarge) => Said::too_large(alloc),
            Err(StandFault::Memory) => Err(AllocError),
        }
    }

    /// Says what is left to say as the input ends behind these bytes of a line.
    pub(crate) fn finish(&mut self, alloc: Global, rest: &[u8]) -> Result<Last, AllocError>
        requires { self.old.number < 2 ^ 32 }
        ensures { IfOk result (λ last. Finishes (S.stands (S.origin self.old.stand)) (hearing S.inputs S.wanted self.old) rest.now
            (number last.end) last.text.items) }
    {
        if rest.is_empty() {
            return self.leave(alloc, Vec::new(alloc));
        }
        let Said { text, over } = self.hear(alloc, rest)?;
        match over {
            Some(end) => Ok(Last { text, end }),
            None => self.leave(alloc, text),
        }
    }

    // Names the attempts that still wait as the input ends, behind a text.
    fn leave(&self, alloc: Global, text: Vec<u8>) -> Result<Last, AllocError>
        ensures end { IfOk result (λ last. last.end ≡ End.InputEnded) }
        ensures text { IfOk result (λ last. last.text.items ≡ text.items ++ (open_lines (S.wanted self.now.stand) ++ input_ended)) }
    {
        let mut text = text;
        let wants = self.stand.wants(alloc)?;
        text.extend_from_slice(&open_lines(alloc, &wants)?)?;
        text.extend_from_slice(b"input ended\n")?;
        Ok(Last {
            text,
            end: End::InputEnded,
        })
    }
}
