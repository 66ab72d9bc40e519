//! A run with the answers that are there leads to one quiet state, whatever order its events are taken in.
//!
//! The laws of order (`wf_layers`) say that a run's rows don't depend on the order of its events. Of a run that waits for answers
//! (`wf_quiet`) more has to be known: which leaves are running, what is open, and how many iterations have begun. The laws here say that
//! all of it is the same, so that an engine may keep its state and go on as an answer comes: it ends where a run that began afresh would.
//!
//! It has no code. Each public function has an empty body, and its contract is a law.
#![tactic(auto)]

ghost use Rattle.std.specs.Prelude.{List, length, ◌≡◌, ℕ};
ghost use Rattle.wf_layers.specs.Address.{Address};
ghost use Rattle.wf_layers.specs.Definition.{Graph};
ghost use Rattle.wf_layers.specs.Laws.{IsInstance};
ghost use Rattle.wf_layers.specs.Machine.{Event, State, fresh};
ghost use Rattle.wf_layers.specs.Source.{Source};
ghost use Rattle.wf_quiet.specs.Quiet.{AnsweredRun, Answers, AreAmong, IsQuiet, IsQuietState, KnowsMore};
ghost use Rattle.wf_one_quiet.specs.Behind.{IsBehind};

/// Each state that a run with the answers reaches is behind a quiet one: all that has happened in it has happened there.
pub fn answered_states_are_behind<Row, Begun, Decision, Verdict>()
    ensures { (answered : Answers) (d : Graph) (m : Source Row Begun Decision Verdict) (depth : ℕ → ℕ) → IsInstance d m depth
        → (q : State Row Begun Decision Verdict) → IsQuietState answered d m q
        → (es : List Event) (s : State Row Begun Decision Verdict) → AnsweredRun answered d m fresh es s → IsBehind s q }
{}

/// The quiet state is one: what has a row, is running or is open there, and how far, doesn't depend on the order of events; nor does their
/// number.
pub fn one_quiet_state<Row, Begun, Decision, Verdict>()
    ensures state { (answered : Answers) (d : Graph) (m : Source Row Begun Decision Verdict) (depth : ℕ → ℕ) → IsInstance d m depth
        → (s s' : State Row Begun Decision Verdict) → IsQuietState answered d m s → IsQuietState answered d m s' → s ≡ s' }
    ensures tables { (answered : Answers) (d : Graph) (m : Source Row Begun Decision Verdict) (depth : ℕ → ℕ) → IsInstance d m depth
        → (s s' : State Row Begun Decision Verdict) → IsQuietState answered d m s → IsQuietState answered d m s'
        → (x : Address) → (s.rows x ≡ s'.rows x) × (s.running x ≡ s'.running x) × (s.opens x ≡ s'.opens x) }
    ensures events { (answered : Answers) (d : Graph) (m : Source Row Begun Decision Verdict) (depth : ℕ → ℕ) → IsInstance d m depth
        → (s s' : State Row Begun Decision Verdict) (quiet : IsQuietState answered d m s) (quiet' : IsQuietState answered d m s')
        → length quiet.events ≡ length quiet'.events }
{}

/// A run with the answers that has reached a state can go on from it to the quiet state, if there is one.
pub fn answered_runs_go_on_to_the_quiet_state<Row, Begun, Decision, Verdict>()
    ensures { (answered : Answers) (d : Graph) (m : Source Row Begun Decision Verdict) (depth : ℕ → ℕ) → IsInstance d m depth
        → (q : State Row Begun Decision Verdict) → IsQuietState answered d m q
        → (es : List Event) (s : State Row Begun Decision Verdict) → AnsweredRun answered d m fresh es s
        → (more : List Event) × AnsweredRun answered d m s more q }
{}

/// So an engine may keep its state and go on as more answers come: once nothing may happen any more but attempts without an answer, it is
/// where a run that began afresh with all of them comes to.
pub fn kept_states_go_on_to_the_quiet_state<Row, Begun, Decision, Verdict>()
    ensures quiet { (answered more_answered : Answers) (d : Graph) (m more : Source Row Begun Decision Verdict)
        → KnowsMore answered m more → AreAmong answered more_answered
        → (es : List Event) (s : State Row Begun Decision Verdict) → AnsweredRun answered d m fresh es s
        → (fs : List Event) (q : State Row Begun Decision Verdict) → AnsweredRun more_answered d more s fs q
        → IsQuiet more_answered d more q → IsQuietState more_answered d more q }
    ensures afresh { (answered more_answered : Answers) (d : Graph) (m more : Source Row Begun Decision Verdict) (depth : ℕ → ℕ)
        → IsInstance d more depth → KnowsMore answered m more → AreAmong answered more_answered
        → (es : List Event) (s : State Row Begun Decision Verdict) → AnsweredRun answered d m fresh es s
        → (fs : List Event) (q : State Row Begun Decision Verdict) → AnsweredRun more_answered d more s fs q
        → IsQuiet more_answered d more q
        → (begun : State Row Begun Decision Verdict) → IsQuietState more_answered d more begun → q ≡ begun }
{}
