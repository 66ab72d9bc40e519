//! Where a run stands that has some of its answers, and what holds a talk about it.
//!
//! A run of which not all answers are there goes on until nothing may happen but attempts that have none (`wf_quiet`). `specs/Moment` says
//! to which moments a run comes, and what it has cost there; `specs/Stands` where it stands: attempts wait for their answers, or it has
//! left its record, which is the definition's meaning by the answers that are there, or it costs too much. What is said of that to someone
//! who sends answers is a talk (`wf_talk`).
//!
//! `Converses` is what holds such talks. The top call is lent one, and knows nothing of how a run is kept; `wf_session` has the one that
//! there is.
#![tactic(auto)]

ghost use Rattle.std.specs.Prelude.{◌≡◌, ◌⊎◌, ◌<◌};
ghost use Rattle.wf_outside.specs.Outside.{Rose};
ghost use Rattle.wf_answers.specs.InputsSeen.{inputs_tree};
ghost use Rattle.wf_answered.specs.ReadSeen.{def_tree};
ghost use Rattle.wf_talk.specs.Talks.{Talks};
ghost use Rattle.wf_answered.specs.StartsSeen.{start_tree};
ghost use Rattle.wf_stands.specs.Stands.{Stands};

use std::alloc::Global;
use wf_answered::Start;
pub use wf_answered::{answers_stay_answered, one_more_answer_is_known};
use wf_answers::Inputs;
pub use wf_doing::answer_at;
use wf_outside::{Sink, Source};
pub use wf_rules::Checked;

/// What holds the talk of a run whose answers come from outside.
pub trait Converses {
    /// The talk of the run of a definition that starts so, with these inputs at first: it is told which attempts wait for their answers,
    /// answers are heard line by line, and at the end the record is told, or why there is none. The status that the talk ends with.
    fn converse<I: Source, O: Sink>(
        &self,
        alloc: Global,
        checked: &Checked,
        start: Start,
        inputs: Inputs,
        input: &mut I,
        out: &mut O,
    ) -> u8
        ensures talks { Talks (Stands (def_tree checked.now.def) (start_tree start)) (inputs_tree inputs) (I.left input.old) (I.left input.new)
            (O.taken out.old) (O.taken out.new) result }
        ensures only { result ≡ 4 → Rose (O.faults out.old) (O.faults out.new) }
        ensures always { O.faults out.old < O.faults out.new → result ≡ 4 }
        ensures three { result ≡ 3 → Rose (I.faults input.old) (I.faults input.new) }
        ensures source { I.faults input.old < I.faults input.new → (result ≡ 3) ⊎ (result ≡ 4) ⊎ (result ≡ 5) };
}
