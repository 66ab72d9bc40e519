//! A run that stands where it can't go on without an answer from outside, or has ended.
ghost use Rattle.std.specs.Prelude.{◌≡◌, ◌≢◌, [], IfErr, IfOk, List, OnOk, map, not, true};
ghost use Rattle.wf_answers.specs.Added.{with_added};
ghost use Rattle.wf_answers.specs.AnswerSeen.{answer_tree};
ghost use Rattle.wf_answers.specs.AnswerTree.{Key, key_of};
ghost use Rattle.wf_answers.specs.Inputs.{InputsTree};
ghost use Rattle.wf_talk.specs.Keys.{fresh, is_among, is_empty};
ghost use Rattle.wf_talk.specs.Seen.{want_key};
ghost use Rattle.wf_talk.specs.Standing.{Standing, TooLarge, Waits, Ends};

use crate::want::Want;
use std::alloc::{AllocError, Global};
use wf_answers::Answer;
use wf_val::Address;

/// Why a run doesn't go on.
#[derive(Drop)]
pub enum StandFault {
    /// It costs too much.
    TooLarge,
    /// Memory ran out.
    Memory,
}

impl From<AllocError> for StandFault {
    ghost use Rattle.std.specs.Prelude.{◌≡◌};
    ghost use Rattle.wf_talk.specs.declared.stand.StandFault.{StandFault};

    ghost from_gives = { λ _ e. e ≡ StandFault.Memory };

    fn from(_error: AllocError) -> StandFault {
        StandFault::Memory
    }
}

/// A run that goes on as answers come.
pub trait Stand {
    // What the run goes by, which no answer changes.
    ghost Origin: { Type 0 };

    // Where it stands with some inputs.
    ghost stands: { Origin → InputsTree → Standing → Type 0 };

    ghost origin: { Self → Origin };

    // The inputs, with the answers that were accepted.
    ghost inputs: { Self → InputsTree };

    // The attempts that wait for their answers, in their order; none where nothing may happen any more.
    ghost wanted: { Self → List Key };

    /// Whether any answer is wanted.
    fn is_waiting(&self) -> bool
        ensures some { result ≡ not (is_empty (wanted self.now)) }
        ensures waits { result ≡ true → stands (origin self.now) (inputs self.now) (Waits (wanted self.now)) };

    /// The record's line of a run that wants no answer any more.
    fn record_line(&mut self, alloc: Global) -> Result<Vec<u8>, StandFault>
        requires { wanted self.old ≡ [] }
        ensures line { IfOk result (λ line. stands (origin self.old) (inputs self.old) (Ends line.items)) }
        ensures fault { IfErr result (λ f. f ≢ StandFault.Memory → stands (origin self.old) (inputs self.old) TooLarge) };

    /// The attempts that wait for their answers.
    fn wants(&self, alloc: Global) -> Result<Vec<Want>, AllocError>
        ensures { IfOk result (λ wants. map want_key wants.items ≡ wanted self.now) };

    fn is_wanted(&self, address: &Address, attempt: u32) -> bool
        ensures { result ≡ is_among (address.now, attempt) (wanted self.now) };

    /// Takes an answer that is wanted, and goes on. The attempts are answered that wait now and didn't wait before.
    fn accept(&mut self, alloc: Global, answer: Answer) -> Result<Vec<Want>, StandFault>
        requires { is_among (key_of (answer_tree answer)) (wanted self.old) ≡ true }
        ensures same { origin self.new ≡ origin self.old }
        ensures added { OnOk result (inputs self.new ≡ with_added (inputs self.old) (answer_tree answer)) }
        ensures fresh { IfOk result (λ wants. map want_key wants.items ≡ fresh (wanted self.old) (wanted self.new)) }
        ensures fault { IfErr result (λ f. f ≢ StandFault.Memory
            → stands (origin self.old) (with_added (inputs self.old) (answer_tree answer)) TooLarge) };
}
