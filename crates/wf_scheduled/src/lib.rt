//! The run under a schedule, of any definition.
//!
//! In each state of the event machine (`wf_layers`) some events may happen next. A schedule is a list of numbers, and turn k takes the
//! event at the place that its number k names among those that may happen, in the order of their addresses, counted around; after the
//! schedule's end each turn takes the first (`specs/Turns`). So a schedule leads to one list of events. What is said of a run beside its
//! rows is said of this list alone, whatever the states on the way (`specs/Counts`): how many events there are, which attempt a Try makes
//! and which iteration a Begin begins, and how many leaves were running at a time at most. Behind each event the state has what the event
//! came to (`specs/Happened`).
//!
//! It has no code. Each public function has an empty body, and its contract is a law. How an engine keeps its states and finds the event at
//! a place is the engine's part; that the rows of a run don't depend on the schedule is said by `wf_layers`.
#![tactic(auto)]

ghost use Rattle.std.specs.Prelude.{[], ◌++◌, ◌+◌, ◌∷◌, ◌≡◌, List, length, max, ℕ};
ghost use Rattle.wf_lists.specs.KeyOrder.{IsInKeyOrder, find_key};
ghost use Rattle.wf_layers.specs.Address.{Address};
ghost use Rattle.wf_layers.specs.Definition.{Graph};
ghost use Rattle.wf_layers.specs.Enabled.{events};
ghost use Rattle.wf_layers.specs.Machine.{Event, Run, State, Step, fresh, place_of};
ghost use Rattle.wf_layers.specs.Meaning.{meaning};
ghost use Rattle.wf_layers.specs.Source.{Source};
ghost use Rattle.wf_kept.specs.Reached.{IsReached};
ghost use Rattle.wf_scheduled.specs.Counts.{AreNumbered, AreRunning, HasNotBegun, most_from, number_of, running_from};
ghost use Rattle.wf_scheduled.specs.Happened.{HasHappened};
ghost use Rattle.wf_scheduled.specs.Turns.{AreEnabled, IsRun, Turn, Turns, address_cmp};

/// A list in order that has at each address what the table of events has there has exactly the events that may happen.
pub fn what_is_listed_may_happen<Row, Begun, Decision, Verdict>()
    ensures { (d : Graph) (depth : ℕ → ℕ) (m : Source Row Begun Decision Verdict) (s : State Row Begun Decision Verdict)
        → IsReached d depth m s → (listed : List Event) → IsInKeyOrder address_cmp place_of listed
        → ((x : Address) → find_key address_cmp place_of x listed ≡ events m s d [] x) → AreEnabled d m s listed }
{}

/// A schedule leads a run to one list of events.
pub fn a_schedule_leads_one_run<Row, Begun, Decision, Verdict>()
    ensures { (d : Graph) (depth : ℕ → ℕ) (m : Source Row Begun Decision Verdict) (first : State Row Begun Decision Verdict)
        → IsReached d depth m first → (schedule : List ℕ) (es es' : List Event) → IsRun d m schedule first es → IsRun d m schedule first es'
        → es ≡ es' }
{}

/// Its turns are steps of the machine, so that all laws of runs hold of it.
pub fn turns_are_steps<Row, Begun, Decision, Verdict>()
    ensures { (d : Graph) (m : Source Row Begun Decision Verdict) (schedule : List ℕ) (k : ℕ) (s s' : State Row Begun Decision Verdict)
        (es : List Event) → Turns d m schedule k s es s' → Run d m s es s' }
{}

/// And they go on by one at the end.
pub fn turns_grow<Row, Begun, Decision, Verdict>()
    ensures { (d : Graph) (m : Source Row Begun Decision Verdict) (schedule : List ℕ) (k : ℕ) (s mid s' : State Row Begun Decision Verdict)
        (es : List Event) (e : Event) → Turns d m schedule k s es mid → Turn d m schedule (k + length es) mid e s'
        → Turns d m schedule k s (es ++ e ∷ []) s' }
{}

/// A running leaf has made as many attempts, and of an open loop as many iterations have begun, as the events so far say.
pub fn attempts_and_iterations_are_numbered<Row, Begun, Decision, Verdict>()
    ensures fresh { HasNotBegun (fresh {Row = Row} {Begun = Begun} {Decision = Decision} {Verdict = Verdict}) }
    ensures numbered { (d : Graph) (m : Source Row Begun Decision Verdict) (first s : State Row Begun Decision Verdict) (es : List Event)
        → HasNotBegun first → Run d m first es s → AreNumbered es s }
{}

/// What has just happened is there, as the definition means it.
pub fn what_has_happened_is_there<Row, Begun, Decision, Verdict>()
    ensures { (d : Graph) (depth : ℕ → ℕ) (m : Source Row Begun Decision Verdict) (first before s : State Row Begun Decision Verdict)
        (es : List Event) (e : Event) → IsReached d depth m before → HasNotBegun first → Run d m first es before → Step d m before e s
        → HasHappened m (meaning m depth d) s e (number_of es e) }
{}

/// As many leaves are running as the events so far say.
pub fn running_leaves_are_counted<Row, Begun, Decision, Verdict>()
    ensures { (d : Graph) (m : Source Row Begun Decision Verdict) (first s : State Row Begun Decision Verdict) (es : List Event)
        → HasNotBegun first → Run d m first es s → (places : List Address) → AreRunning s places → length places ≡ running_from 0 es }
{}

/// The peak behind one event more.
pub fn the_peak_grows()
    ensures { (es : List Event) (e : Event) → most_from 0 (es ++ e ∷ []) ≡ max (most_from 0 es) (running_from 0 (es ++ e ∷ [])) }
{}
