//! A run with one more answer.
//!
//! What a connector's attempts come to is told by the inputs of a run (`wf_answers`). Where an answer isn't there yet, a run stops before
//! the attempt that it is for (`wf_quiet`), and goes on once it comes. This crate says which attempts have an answer (`specs/Answered`),
//! and that an answer which is added changes nothing of what was done by those that were there: each action is told the same and begins
//! the same, each container decides the same, and a connector makes the same attempts, as far as they are answered, and ends with the same
//! row once its last one is.
//!
//! It has no code. Each public function calls the laws below that it rests on, and its contract is a law.
#![tactic(auto)]

ghost use Rattle.std.specs.Prelude.{◌≡◌, ◌≢◌, None, true, ℕ};
ghost use Rattle.wf_answered.specs.Answered.{answered};
ghost use Rattle.wf_answers.specs.Added.{with_added};
ghost use Rattle.wf_answers.specs.AnswerTree.{AnswerTree, find_answer, key_of};
ghost use Rattle.wf_answers.specs.Inputs.{InputsTree};
ghost use Rattle.wf_def.specs.DefTree.{DefTree};
ghost use Rattle.wf_meant.specs.Environment.{fresh};
ghost use Rattle.wf_layers.specs.Address.{Address};
ghost use Rattle.wf_meant.specs.Look.{instance};
ghost use Rattle.wf_meant.specs.Source.{source};
ghost use Rattle.wf_quiet.specs.Quiet.{AreAmong, KnowsMore};
ghost use Rattle.wf_meant.specs.Starts.{StartTree};

pub use wf_meant::Start;

/// Once an answer is added that wasn't there, a run has the same source of rows but for what attempts come to that had no answer.
pub fn one_more_answer_is_known()
    ensures { (d : DefTree) → (start : StartTree) → (inputs : InputsTree) → (a : AnswerTree)
        → find_answer (key_of a) inputs.answers ≡ None
        → KnowsMore (answered d inputs) (source d (fresh start inputs)) (source d (fresh start (with_added inputs a))) }
{
    wf_answers::an_added_answer_is_found();
    wf_connect::the_last_attempt_is_the_least();
}

/// What is answered stays so, the attempt that the added answer is for is answered, and no other attempt becomes so.
pub fn answers_stay_answered()
    ensures stay { (d : DefTree) → (inputs : InputsTree) → (a : AnswerTree)
        → AreAmong (answered d inputs) (answered d (with_added inputs a)) }
    ensures added { (d : DefTree) → (inputs : InputsTree) → (a : AnswerTree) → (x : Address) → (attempt : ℕ)
        → (instance d x, attempt) ≡ key_of a → answered d (with_added inputs a) x attempt ≡ true }
    ensures others { (d : DefTree) → (inputs : InputsTree) → (a : AnswerTree) → (x : Address) → (attempt : ℕ)
        → (instance d x, attempt) ≢ key_of a → answered d (with_added inputs a) x attempt ≡ answered d inputs x attempt }
{
    wf_answers::an_added_answer_is_found();
}
