//! A run of which some answers aren't there yet, and how it goes on as they come.
//!
//! An engine that is given its answers one by one takes each enabled event but the attempts that have no answer, until nothing else is
//! enabled: it is quiet (`specs/Quiet`). As an answer comes, the source of answers becomes another, one that knows more, and the engine
//! goes on from the state that it has. The laws say that it may: the run so far is a run of the new source, what is enabled and what is
//! counted beside the tables (`wf_kept`) stays, and the store of a variable is told by its rows, whatever source they came from.
//!
//! It has no code. Each public function has an empty body, and its contract is a law. That a quiet state is one, whatever order its events
//! were taken in, is not said here.
#![tactic(auto)]

ghost use Rattle.std.specs.Prelude.{[], ◌++◌, ◌∷◌, ◌≡◌, Bool, List, None, Option, Some, false, ℕ};
ghost use Rattle.wf_layers.specs.Address.{Address, Table, address};
ghost use Rattle.wf_layers.specs.Definition.{Graph};
ghost use Rattle.wf_layers.specs.Laws.{IsInstance};
ghost use Rattle.wf_layers.specs.Machine.{Event, IsOver, Run, State, Step, Try, fresh};
ghost use Rattle.wf_layers.specs.Meaning.{meaning};
ghost use Rattle.wf_layers.specs.Source.{Source};
ghost use Rattle.wf_layers.specs.Variables.{IsLastWritten, OneOrder};
ghost use Rattle.wf_kept.specs.Counted.{AreCounts};
ghost use Rattle.wf_kept.specs.Event.{AreLeft};
ghost use Rattle.wf_kept.specs.Reached.{IsReached};
ghost use Rattle.wf_kept.specs.Ready.{IsReady};
ghost use Rattle.wf_kept.specs.Stored.{IsStored};
ghost use Rattle.wf_quiet.specs.Example.{WaitsAndGoesOn};
ghost use Rattle.wf_quiet.specs.Quiet.{Answers, AnsweredRun, AreAmong, HasAnswer, IsQuiet, IsWanted, KnowsMore, MadeAreAnswered};

/// A run with the answers that are there is a run.
pub fn answered_runs_are_runs<Row, Begun, Decision, Verdict>()
    ensures { (answered : Answers) (d : Graph) (m : Source Row Begun Decision Verdict) (es : List Event)
        (s s' : State Row Begun Decision Verdict) → AnsweredRun answered d m s es s' → Run d m s es s' }
{}

/// It begins with no event, and grows by one that, if it is an attempt, has its answer; and one goes on where another has led.
pub fn answered_runs_grow<Row, Begun, Decision, Verdict>()
    ensures begun { (answered : Answers) (d : Graph) (m : Source Row Begun Decision Verdict) (s : State Row Begun Decision Verdict)
        → AnsweredRun answered d m s [] s }
    ensures grown { (answered : Answers) (d : Graph) (m : Source Row Begun Decision Verdict) (es : List Event)
        (s mid : State Row Begun Decision Verdict) → AnsweredRun answered d m s es mid
        → (e : Event) (s' : State Row Begun Decision Verdict) → HasAnswer answered mid e → Step d m mid e s'
        → AnsweredRun answered d m s (es ++ e ∷ []) s' }
    ensures joined { (answered : Answers) (d : Graph) (m : Source Row Begun Decision Verdict) (es fs : List Event)
        (s mid s' : State Row Begun Decision Verdict) → AnsweredRun answered d m s es mid → AnsweredRun answered d m mid fs s'
        → AnsweredRun answered d m s (es ++ fs) s' }
{}

/// In a state to which it leads, what running leaves have made is answered.
pub fn answered_runs_have_their_answers<Row, Begun, Decision, Verdict>()
    ensures { (answered : Answers) (d : Graph) (m : Source Row Begun Decision Verdict) (es : List Event)
        (s : State Row Begun Decision Verdict) → AnsweredRun answered d m fresh es s → MadeAreAnswered answered m s }
{}

/// As more answers come, the run so far is one of the source that knows more, and leads to the same state.
pub fn answered_runs_go_on<Row, Begun, Decision, Verdict>()
    ensures { (answered more_answered : Answers) (d : Graph) (m more : Source Row Begun Decision Verdict) → KnowsMore answered m more
        → AreAmong answered more_answered → (es : List Event) (s : State Row Begun Decision Verdict) → AnsweredRun answered d m fresh es s
        → AnsweredRun more_answered d more fresh es s }
{}

/// What is enabled in that state stays, and so do the counts beside its tables.
pub fn what_is_ready_stays<Row, Begun, Decision, Verdict>()
    ensures ready { (answered : Answers) (d : Graph) (m more : Source Row Begun Decision Verdict) → KnowsMore answered m more
        → (s : State Row Begun Decision Verdict) → MadeAreAnswered answered m s
        → (ready : Table Event) → IsReady d m s ready → IsReady d more s ready }
    ensures counts { (answered : Answers) (d : Graph) (m more : Source Row Begun Decision Verdict) → KnowsMore answered m more
        → (s : State Row Begun Decision Verdict) → MadeAreAnswered answered m s
        → (waits lacks : Table ℕ) → AreCounts d m s waits lacks → AreCounts d more s waits lacks }
    ensures left { (answered : Answers) (d : Graph) (m more : Source Row Begun Decision Verdict) → KnowsMore answered m more
        → (s : State Row Begun Decision Verdict) → MadeAreAnswered answered m s
        → (left : (Address → ℕ)) → AreLeft d m s left → AreLeft d more s left }
{}

/// A value that is what the last writer wrote, by the rows of a state to which a run leads, is what the variable's store holds there.
pub fn stores_are_told_by_their_rows<Row, Begun, Decision, Verdict, Value>()
    ensures { (d : Graph) (depth : ℕ → ℕ) (m : Source Row Begun Decision Verdict) (writes : Address → Row → Option Value)
        → IsInstance d m depth → OneOrder d m writes (meaning m depth d)
        → (es : List Event) (s : State Row Begun Decision Verdict) → Run d m fresh es s
        → (v : Option Value) → IsLastWritten d m writes s.rows v → IsStored d depth m writes s v }
{}

/// An attempt that waits for its answer goes on waiting, whatever else happens; and by a source that knows more, where it has no answer
/// there either.
pub fn waiting_attempts_stay<Row, Begun, Decision, Verdict>()
    ensures stay { (answered : Answers) (d : Graph) (m : Source Row Begun Decision Verdict) (s : State Row Begun Decision Verdict)
        (x : Address) (k : ℕ) → IsWanted answered d m s x k → (e : Event) (s' : State Row Begun Decision Verdict)
        → HasAnswer answered s e → Step d m s e s' → IsWanted answered d m s' x k }
    ensures more { (answered : Answers) (d : Graph) (m more : Source Row Begun Decision Verdict) → KnowsMore answered m more
        → (s : State Row Begun Decision Verdict) → MadeAreAnswered answered m s → (x : Address) (k : ℕ) → IsWanted answered d m s x k
        → (more_answered : Answers) → more_answered x k ≡ false → IsWanted more_answered d more s x k }
{}

/// What may happen in a quiet state is an attempt that waits for its answer; each attempt that waits may be made; and at an address one
/// waits at most.
pub fn quiet_states_want_their_attempts<Row, Begun, Decision, Verdict>()
    ensures wanted { (answered : Answers) (d : Graph) (m : Source Row Begun Decision Verdict) (s : State Row Begun Decision Verdict)
        → IsQuiet answered d m s → (e : Event) (s' : State Row Begun Decision Verdict) → Step d m s e s'
        → (n : ℕ) × (i : List ℕ) × (k : ℕ) × (e ≡ Try n i) × IsWanted answered d m s (address n i) k }
    ensures enabled { (answered : Answers) (d : Graph) (m : Source Row Begun Decision Verdict) (s : State Row Begun Decision Verdict)
        (x : Address) (k : ℕ) → IsWanted answered d m s x k
        → (s' : State Row Begun Decision Verdict) × Step d m s (Try x.name x.at) s' }
    ensures one { (answered : Answers) (d : Graph) (m : Source Row Begun Decision Verdict) (s : State Row Begun Decision Verdict)
        (x : Address) (k l : ℕ) → IsWanted answered d m s x k → IsWanted answered d m s x l → k ≡ l }
{}

/// A quiet state that waits for nothing is over.
pub fn a_quiet_state_that_wants_nothing_is_over<Row, Begun, Decision, Verdict>()
    ensures { (answered : Answers) (d : Graph) (m : Source Row Begun Decision Verdict) (s : State Row Begun Decision Verdict)
        → IsQuiet answered d m s → ((x : Address) (k : ℕ) → IsWanted answered d m s x k → ⊥) → IsOver d m s }
{}

/// The ready set tells a quiet state, since nothing in it has its answer; and in a quiet state it has what is wanted, address by address.
pub fn quiet_states_are_told_by_the_ready_set<Row, Begun, Decision, Verdict>()
    ensures quiet { (answered : Answers) (d : Graph) (depth : ℕ → ℕ) (m : Source Row Begun Decision Verdict)
        (s : State Row Begun Decision Verdict) → IsReached d depth m s → (ready : Table Event) → IsReady d m s ready
        → ((x : Address) (e : Event) → ready x ≡ Some e → HasAnswer answered s e → ⊥) → IsQuiet answered d m s }
    ensures wanted { (answered : Answers) (d : Graph) (depth : ℕ → ℕ) (m : Source Row Begun Decision Verdict)
        (s : State Row Begun Decision Verdict) → IsReached d depth m s → (ready : Table Event) → IsReady d m s ready
        → IsQuiet answered d m s → (x : Address) (e : Event) → ready x ≡ Some e → (k : ℕ) × IsWanted answered d m s x k }
    ensures ready { (answered : Answers) (d : Graph) (depth : ℕ → ℕ) (m : Source Row Begun Decision Verdict)
        (s : State Row Begun Decision Verdict) → IsReached d depth m s → (ready : Table Event) → IsReady d m s ready
        → (x : Address) (k : ℕ) → IsWanted answered d m s x k → ready x ≡ Some (Try x.name x.at) }
{}

/// The premises are met by a leaf that makes three attempts, beside one that makes none: with the first answer alone the run waits for the
/// second, the other leaf done; with all three it goes on from there to its end.
pub fn one_example_waits_and_goes_on()
    ensures { (d : Graph) × (depth : ℕ → ℕ) × (m : Source ℕ ℕ ℕ Bool) × (more : Source ℕ ℕ ℕ Bool) × (answered : Answers)
        × (more_answered : Answers) × (s : State ℕ ℕ ℕ Bool)
        × WaitsAndGoesOn d depth m more answered more_answered s (address 0 []) 2
        × (s.rows (address 0 []) ≡ None) × (s.rows (address 1 []) ≡ Some 0) }
{}
