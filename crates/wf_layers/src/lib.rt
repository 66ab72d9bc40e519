//! What a run of a workflow means doesn't depend on the order in which its actions end.
//!
//! A workflow definition (Workflow Definition Language, schema 2016-06-01) says what an action waits for, and no more of the order: two
//! actions that don't wait for one another may end in either, and the iterations of a Foreach may go side by side. This crate defines, for
//! any graph of actions in containers and loops, and for any source of answers, what the rows of a run are (`specs/Meaning`), and what an
//! event machine may do in each state (`specs/Machine`). Its laws say that whatever list of enabled events is taken, the machine's rows are
//! those of the meaning, and that it ends; and that resubmitting a run from chosen actions gives the rows of a fresh run that sees old
//! answers in what is kept and new ones in what is redone.
//!
//! It has no code. Each public function has an empty body, and its contract is a law; the statements stand in `specs/`, where each begins
//! with a sentence in plain words. A concrete engine is an instance: it names its rows, what a leaf's Start gives, its decisions and its
//! tests, supplies a `Source` of answers, and shows that each answer looks only at what is earlier. docs/ORDER.md tells the definitions and
//! laws with pictures, what an instance supplies, and what the laws don't say.
//!
//! It isn't an engine: no row has a content here, nothing is parsed, evaluated or run, and no memory is taken.
#![tactic(auto)]

ghost use Rattle.std.specs.Prelude.{[], ◌∷◌, ◌≡◌, Bool, List, None, Option, Some, false, length, true, ℕ};
ghost use Rattle.wf_layers.specs.Address.{Address, SeenIn, Table, address, is_within};
ghost use Rattle.wf_layers.specs.Answered.{RunsSoFarAreRuns};
ghost use Rattle.wf_layers.specs.Bound.{total};
ghost use Rattle.wf_layers.specs.Definition.{Closed, Graph, IsDepth, Kind, Leaf, Turns};
ghost use Rattle.wf_layers.specs.Laws.{AllRowsAtTheEnd, EventsAreCounted, EventsAreExact, EventsAtTheEnd, EventsChangeOnlyThere, EventsOfRunsAreFew, FactsOfStates, IsFresh, IsInstance, MeaningObeysTheRule, OneEventAtAnAddress, PartIsUnique, RowsAreTheMeanings, RowsAreUnique, RowsStandAtInstances, RowsWhereCalledFor, RunsGrow, StoreHoldsTheLast, TestsInOrder, VariablesInOrder};
ghost use Rattle.wf_layers.specs.Machine.{Event, IsOver, Run, State, fresh};
ghost use Rattle.wf_layers.specs.Meaning.{meaning};
ghost use Rattle.wf_layers.specs.Listed.{Lists};
ghost use Rattle.wf_layers.specs.Premises.{MeetsPremises, MeetsPremisesAgain};
ghost use Rattle.wf_layers.specs.Record.{HasRecord, RecordsAreOne};
ghost use Rattle.wf_layers.specs.Redo.{IsRedo, OutOfLoops, closed_again, redone};
ghost use Rattle.wf_layers.specs.Resubmission.{IsOldTable, IsResubmission, IsSetResubmission, IsSplit, MayBeResubmittedAgain, OldAnswersGiveTheOldRows, OldTablesAgree, OthersKept, ResubmissionIsFresh, ResumedAtTheEnd, ResumedChanges, ResumedEnds, ResumedExact, ResumedFacts, ResumedFew, ResumedInOrder, ResumedOneEvent, ResumedRows, ResumedStore, kept, pin};
ghost use Rattle.wf_layers.specs.Seen.{Answers, Once, Waits};
ghost use Rattle.wf_layers.specs.Shape.{HasShape, Reading, ReadsBack};
ghost use Rattle.wf_layers.specs.Source.{Sound, Source};
ghost use Rattle.wf_layers.specs.Waiting.{Counts};
ghost use Rattle.wf_layers.specs.Variables.{IsIdle, OneOrder, WritersHaveOrder};

/// What an action waits for is earlier than it, so that its gate looks only at what is earlier.
pub fn what_is_waited_for_is_seen()
    ensures { (d : Graph) → Once d → Closed d d → Waits d d 0 }
{}

/// So the premise of the laws follows where names stand once, an action waits only for actions of its own graph, and each answer looks only
/// at what is earlier.
pub fn local_answers_are_sound<Row, Begun, Decision, Verdict>()
    ensures { (d : Graph) (m : Source Row Begun Decision Verdict) → Once d → Closed d d → Answers d m d 0 → Sound m (SeenIn d) d 0 }
{}

/// The layered meaning obeys the local rule at every address.
pub fn meaning_obeys_the_rule<Row, Begun, Decision, Verdict>()
    ensures { (d : Graph) (m : Source Row Begun Decision Verdict) (depth : ℕ → ℕ) → IsDepth d depth → Sound m (SeenIn d) d 0
        → MeaningObeysTheRule d m depth }
{}

/// The meaning has rows exactly at the addresses that its own decisions call for.
pub fn rows_stand_where_called_for<Row, Begun, Decision, Verdict>()
    ensures { (d : Graph) (m : Source Row Begun Decision Verdict) (depth : ℕ → ℕ) → IsDepth d depth → Sound m (SeenIn d) d 0 → IsFresh m
        → RowsWhereCalledFor d m depth }
{}

/// And each stands at an instance: its address has one index for every loop round its action.
pub fn rows_stand_at_instances<Row, Begun, Decision, Verdict>()
    ensures { (d : Graph) (m : Source Row Begun Decision Verdict) (depth : ℕ → ℕ) → IsDepth d depth → Sound m (SeenIn d) d 0 → IsFresh m
        → RowsStandAtInstances d m depth }
{}

/// Two tables that obey the local rule are the same. So the meaning does not depend on the depths that were taken.
pub fn rows_are_unique<Row, Begun, Decision, Verdict>()
    ensures { (d : Graph) (m : Source Row Begun Decision Verdict) (depth : ℕ → ℕ) → IsDepth d depth → Sound m (SeenIn d) d 0
        → RowsAreUnique d m }
{}

/// And so are two that obey it on a part of the definition, there.
pub fn part_is_unique<Row, Begun, Decision, Verdict>()
    ensures { (d : Graph) (m : Source Row Begun Decision Verdict) (depth : ℕ → ℕ) → IsDepth d depth → Sound m (SeenIn d) d 0
        → PartIsUnique d m }
{}

/// Whatever order events are taken in, each row is the meaning's.
pub fn rows_are_the_meanings<Row, Begun, Decision, Verdict>()
    ensures { (d : Graph) (m : Source Row Begun Decision Verdict) (depth : ℕ → ℕ) → IsInstance d m depth → RowsAreTheMeanings d m depth }
{}

/// Each state that a run reaches has the facts of `specs/Facts`.
pub fn facts_of_states<Row, Begun, Decision, Verdict>()
    ensures { (d : Graph) (m : Source Row Begun Decision Verdict) (depth : ℕ → ℕ) → IsInstance d m depth → FactsOfStates d m depth }
{}

/// In a state that a run reaches, at most one event is enabled at an address.
pub fn one_event_at_an_address<Row, Begun, Decision, Verdict>()
    ensures { (d : Graph) (m : Source Row Begun Decision Verdict) (depth : ℕ → ℕ) → IsInstance d m depth → OneEventAtAnAddress d m depth }
{}

/// Where nothing is enabled, every row of the meaning is there.
pub fn all_rows_are_there_at_the_end<Row, Begun, Decision, Verdict>()
    ensures { (d : Graph) (m : Source Row Begun Decision Verdict) (depth : ℕ → ℕ) → IsInstance d m depth → AllRowsAtTheEnd d m depth }
{}

/// At each moment the events so far and those that are left are all that the meaning's rows give the definition. So each run ends.
pub fn events_are_counted<Row, Begun, Decision, Verdict>()
    ensures { (d : Graph) (m : Source Row Begun Decision Verdict) (depth : ℕ → ℕ) → IsInstance d m depth → EventsAreCounted d m depth }
{}

/// And each run that is over has exactly that many, in whatever order.
pub fn runs_have_as_many_events<Row, Begun, Decision, Verdict>()
    ensures { (d : Graph) (m : Source Row Begun Decision Verdict) (depth : ℕ → ℕ) → IsInstance d m depth → EventsAtTheEnd d m depth }
{}

/// At each moment the events so far are few: 32 times their number is at most the cost of what is placed, begun and tried, where a row, a
/// running leaf, an open container, an attempt and an iteration cost at least 64 each. So an engine that bounds the cost bounds its steps.
pub fn events_are_few<Row, Begun, Decision, Verdict, RowAt, LeafAt, OpenAt>()
    ensures { (d : Graph) (m : Source Row Begun Decision Verdict) (depth : ℕ → ℕ) → IsInstance d m depth
        → EventsOfRunsAreFew RowAt LeafAt OpenAt d m depth }
{}

/// The table of events has at each address exactly the event that is enabled there.
pub fn events_are_exact<Row, Begun, Decision, Verdict>()
    ensures { (d : Graph) (m : Source Row Begun Decision Verdict) (depth : ℕ → ℕ) → IsInstance d m depth → EventsAreExact d m }
{}

/// As an event is taken, what is enabled changes at few addresses: at its own; where it gives an action a row, at those that wait for the
/// action and at the container round it; and in a graph that it enters. So an engine may keep the list of enabled events, and look at these
/// alone.
pub fn events_change_only_there<Row, Begun, Decision, Verdict>()
    ensures { (d : Graph) (m : Source Row Begun Decision Verdict) (depth : ℕ → ℕ) → IsInstance d m depth → EventsChangeOnlyThere d m }
{}

/// A run goes on by one event at its end. So what is proved of runs is proved of a state that is stepped on.
pub fn runs_grow<Row, Begun, Decision, Verdict>()
    ensures { (d : Graph) (m : Source Row Begun Decision Verdict) → RunsGrow d m }
{}

/// A run whose answers come one by one is a run with all answers, so that all laws hold of it: what each event takes of the answers is
/// known as it is taken.
pub fn runs_so_far_are_runs<Row, Begun, Decision, Verdict>()
    ensures { (d : Graph) (m : Source Row Begun Decision Verdict) → RunsSoFarAreRuns d m }
{}

/// How many entries of an action's `runAfter`, and how many actions of a graph, have no row: none exactly where all have ended, and one
/// less as one ends.
pub fn what_is_waited_for_is_counted<Row>()
    ensures { Counts Row }
{}

/// As an action is decided, the finished accesses of a variable are those that it sees.
pub fn variables_in_order<Row, Begun, Decision, Verdict>()
    ensures { (d : Graph) (m : Source Row Begun Decision Verdict) (depth : ℕ → ℕ) → IsInstance d m depth → VariablesInOrder d m depth }
{}

/// As an Until is tested, the finished accesses in it or with an order are those that it sees and those of its iterations so far, and all
/// of these are there.
pub fn tests_in_order<Row, Begun, Decision, Verdict>()
    ensures { (d : Graph) (m : Source Row Begun Decision Verdict) (depth : ℕ → ℕ) → IsInstance d m depth → TestsInOrder d m depth }
{}

/// A store that each finished writer overwrites holds the last finished writer's value; and, as an action is decided, while a leaf runs and
/// as an Until is tested, that of the last writer that it sees.
pub fn store_holds_the_last<Row, Begun, Decision, Verdict, Value>()
    ensures { (d : Graph) (m : Source Row Begun Decision Verdict) (depth : ℕ → ℕ) (writes : Address → Row → Option Value)
        → IsInstance d m depth → StoreHoldsTheLast d m depth writes }
{}

/// From a set of chosen actions: all inside a redone action is redone, all inside a kept one is kept, and nothing kept or closed again
/// stands after what is redone or closed again.
pub fn order_of_a_resubmission()
    ensures { (d : Graph) (chosen redo again : ℕ → Bool) → IsRedo d chosen redo again → IsSplit d redo again }
{}

/// For each set of actions without actions of loops there is what it redoes and what it closes again; it can be computed.
pub fn a_set_has_its_parts()
    ensures { (d : Graph) (depth : ℕ → ℕ) (chosen : ℕ → Bool) → Once d → Closed d d → IsDepth d depth → OutOfLoops chosen d
        → IsRedo d chosen (redone d depth chosen) (closed_again d depth chosen) }
{}

/// From a set of chosen actions that ran, in no loop, all that the laws of resubmission ask of the order is there.
pub fn a_set_is_resubmitted<Row, Begun, Decision, Verdict>()
    ensures { (d : Graph) (depth : ℕ → ℕ) (a b : Source Row Begun Decision Verdict) (chosen redo again : ℕ → Bool)
        (recall : Address → Decision)
        → IsDepth d depth → Sound a (SeenIn d) d 0 → IsFresh a → IsSetResubmission d depth a b chosen redo again recall
        → IsResubmission d depth a b redo again recall × OthersKept d a redo again (meaning a depth d) recall }
{}

/// The resubmitted record is that of a fresh run in the environment with one layer more.
pub fn resubmission_is_fresh<Row, Begun, Decision, Verdict>()
    ensures { (d : Graph) (depth : ℕ → ℕ) (a b : Source Row Begun Decision Verdict) (redo again : ℕ → Bool) (recall : Address → Decision)
        → IsDepth d depth → Sound a (SeenIn d) d 0 → Sound b (SeenIn d) d 0 → IsFresh a → IsResubmission d depth a b redo again recall
        → ResubmissionIsFresh d depth a b redo again recall }
{}

/// With the old answers everywhere, the resubmitted record is the old one.
pub fn old_answers_give_the_old_rows<Row, Begun, Decision, Verdict>()
    ensures { (d : Graph) (depth : ℕ → ℕ) (a b : Source Row Begun Decision Verdict) (redo again : ℕ → Bool) (recall : Address → Decision)
        → IsDepth d depth → Sound a (SeenIn d) d 0 → Sound b (SeenIn d) d 0 → IsFresh a → ((x : Address) → a.old x ≡ None)
        → IsResubmission d depth a b redo again recall
        → OldAnswersGiveTheOldRows d depth a b redo again recall }
{}

/// A resubmitted record may be resubmitted again.
pub fn a_resubmitted_record_may_be_resubmitted<Row, Begun, Decision, Verdict>()
    ensures { (d : Graph) (depth : ℕ → ℕ) (a b : Source Row Begun Decision Verdict) (redo again : ℕ → Bool) (recall : Address → Decision)
        → IsDepth d depth → Sound a (SeenIn d) d 0 → Sound b (SeenIn d) d 0 → IsFresh a → IsResubmission d depth a b redo again recall
        → MayBeResubmittedAgain d depth a b redo again recall }
{}

/// A meaning's table has the right shape: rows stand at exactly the addresses that its own rows call for.
pub fn a_meaning_has_the_right_shape<Row, Begun, Decision, Verdict>()
    ensures { (d : Graph) (m : Source Row Begun Decision Verdict) (depth : ℕ → ℕ) (read : Reading Row)
        → IsDepth d depth → Sound m (SeenIn d) d 0 → IsFresh m → ReadsBack d m (meaning m depth d) read
        → HasShape d m read (meaning m depth d) }
{}

/// A meaning's table is one from which a resubmission may go on.
pub fn a_meaning_may_be_resumed<Row, Begun, Decision, Verdict>()
    ensures { (d : Graph) (depth : ℕ → ℕ) (a b : Source Row Begun Decision Verdict) (redo again : ℕ → Bool) (recall : Address → Decision)
        → IsDepth d depth → Sound a (SeenIn d) d 0 → IsFresh a → IsResubmission d depth a b redo again recall
        → OthersKept d a redo again (meaning a depth d) recall
        → IsOldTable d a redo again (meaning a depth d) recall }
{}

/// And so is any table of the right shape, whether a run gave it or not, in which each chosen action ran, and whose branches are recalled
/// as its rows say.
pub fn a_table_of_the_right_shape_may_be_resumed<Row, Begun, Decision, Verdict>()
    ensures { (d : Graph) (a : Source Row Begun Decision Verdict) (chosen redo again : ℕ → Bool) (r : Table Row) (read : Reading Row)
        (recall : Address → Decision)
        → IsFresh a → IsRedo d chosen redo again → HasShape d a read r
        → ((n : ℕ) (row : Row) → chosen n ≡ true → r (address n []) ≡ Some row → IsIdle a row → ⊥)
        → ((n : ℕ) (row : Row) → again n ≡ true → r (address n []) ≡ Some row → a.taken (recall (address n [])) ≡ read.taken n row)
        → IsOldTable d a redo again r recall }
{}

/// Old tables that agree on what the definition has give the same rows.
pub fn old_tables_agree<Row, Begun, Decision, Verdict>()
    ensures { (d : Graph) (depth : ℕ → ℕ) (a b : Source Row Begun Decision Verdict) (redo again : ℕ → Bool) (recall : Address → Decision)
        → IsDepth d depth → Sound b (SeenIn d) d 0 → OldTablesAgree d depth a b redo again recall }
{}

/// From the state of a resubmission of an old table, whether a run gave it or not, and whatever order events are taken in, each row is the
/// resubmitted record's.
pub fn resumed_rows<Row, Begun, Decision, Verdict>()
    ensures { (d : Graph) (depth : ℕ → ℕ) (a b : Source Row Begun Decision Verdict) (redo again : ℕ → Bool) (r : Table Row)
        (recall : Address → Decision)
        → IsDepth d depth → Closed d d → Sound b (SeenIn d) d 0 → IsOldTable d a redo again r recall
        → ResumedRows d depth a b redo again r recall }
{}

/// And where nothing is enabled, all of its rows are there.
pub fn resumed_at_the_end<Row, Begun, Decision, Verdict>()
    ensures { (d : Graph) (depth : ℕ → ℕ) (a b : Source Row Begun Decision Verdict) (redo again : ℕ → Bool) (r : Table Row)
        (recall : Address → Decision)
        → IsDepth d depth → Closed d d → Turns d → Sound b (SeenIn d) d 0 → IsOldTable d a redo again r recall
        → ResumedAtTheEnd d depth a b redo again r recall }
{}

/// And each such run ends.
pub fn resumed_ends<Row, Begun, Decision, Verdict>()
    ensures { (d : Graph) (depth : ℕ → ℕ) (a b : Source Row Begun Decision Verdict) (redo again : ℕ → Bool) (r : Table Row)
        (recall : Address → Decision)
        → IsDepth d depth → Closed d d → Sound b (SeenIn d) d 0 → IsOldTable d a redo again r recall
        → ResumedEnds d depth a b redo again r recall }
{}

/// And its events are few.
pub fn resumed_events_are_few<Row, Begun, Decision, Verdict, RowAt, LeafAt, OpenAt>()
    ensures { (d : Graph) (depth : ℕ → ℕ) (a b : Source Row Begun Decision Verdict) (redo again : ℕ → Bool) (r : Table Row)
        (recall : Address → Decision)
        → IsDepth d depth → Closed d d → Sound b (SeenIn d) d 0 → IsOldTable d a redo again r recall
        → ResumedFew RowAt LeafAt OpenAt d depth a b redo again r recall }
{}

/// Kept rows are the old ones.
pub fn kept_rows_are_old<Row, Begun, Decision, Verdict>()
    ensures { (d : Graph) (depth : ℕ → ℕ) (a b : Source Row Begun Decision Verdict) (redo again : ℕ → Bool) (r : Table Row)
        (recall : Address → Decision)
        → IsDepth d depth → Sound b (SeenIn d) d 0 → IsOldTable d a redo again r recall
        → (x : Address) → kept redo again x.name ≡ true → meaning (pin a b redo again r recall) depth d x ≡ r x }
{}

/// And each state that such a run reaches has the facts of `specs/Facts`, with the resubmitted rows.
pub fn facts_of_resumed_states<Row, Begun, Decision, Verdict>()
    ensures { (d : Graph) (depth : ℕ → ℕ) (a b : Source Row Begun Decision Verdict) (redo again : ℕ → Bool) (r : Table Row)
        (recall : Address → Decision)
        → IsDepth d depth → Closed d d → Sound b (SeenIn d) d 0 → IsOldTable d a redo again r recall
        → ResumedFacts d depth a b redo again r recall }
{}

/// In it, too, at most one event is enabled at an address.
pub fn one_event_of_resumed_states<Row, Begun, Decision, Verdict>()
    ensures { (d : Graph) (depth : ℕ → ℕ) (a b : Source Row Begun Decision Verdict) (redo again : ℕ → Bool) (r : Table Row)
        (recall : Address → Decision)
        → IsDepth d depth → Closed d d → Sound b (SeenIn d) d 0 → IsOldTable d a redo again r recall
        → ResumedOneEvent d depth a b redo again r recall }
{}

/// And the table of events is exact there.
pub fn events_of_resumed_states_are_exact<Row, Begun, Decision, Verdict>()
    ensures { (d : Graph) (depth : ℕ → ℕ) (a b : Source Row Begun Decision Verdict) (redo again : ℕ → Bool) (r : Table Row)
        (recall : Address → Decision)
        → IsDepth d depth → Closed d d → Sound b (SeenIn d) d 0 → IsOldTable d a redo again r recall
        → ResumedExact d a b redo again r recall }
{}

/// And it changes only where it may.
pub fn events_of_resumed_states_change_only_there<Row, Begun, Decision, Verdict>()
    ensures { (d : Graph) (depth : ℕ → ℕ) (a b : Source Row Begun Decision Verdict) (redo again : ℕ → Bool) (r : Table Row)
        (recall : Address → Decision)
        → IsDepth d depth → Closed d d → Sound b (SeenIn d) d 0 → IsOldTable d a redo again r recall
        → ResumedChanges d a b redo again r recall }
{}

/// As an action is decided there, or an Until tested, the finished accesses of a variable are those that it sees.
pub fn resumed_in_order<Row, Begun, Decision, Verdict>()
    ensures { (d : Graph) (depth : ℕ → ℕ) (a b : Source Row Begun Decision Verdict) (redo again : ℕ → Bool) (r : Table Row)
        (recall : Address → Decision)
        → IsDepth d depth → Closed d d → Sound b (SeenIn d) d 0 → IsOldTable d a redo again r recall
        → ResumedInOrder d depth a b redo again r recall }
{}

/// And a store that begins with the last kept writer's value holds the value of the last writer that it sees.
pub fn resumed_store_holds_the_last<Row, Begun, Decision, Verdict, Value>()
    ensures { (d : Graph) (depth : ℕ → ℕ) (a b : Source Row Begun Decision Verdict) (redo again : ℕ → Bool) (r : Table Row)
        (recall : Address → Decision) (writes : Address → Row → Option Value)
        → IsDepth d depth → Closed d d → Sound b (SeenIn d) d 0 → IsOldTable d a redo again r recall
        → ResumedStore d depth a b redo again r recall writes }
{}

/// The premises are met by one definition with an If, an Until, a Foreach two of whose iterations go side by side, a counter that is
/// incremented in the If that reads it and in the Until that tests it, a Skipped leaf, one with two attempts and one that is halted. There
/// is a run of it to the end, event by event, and it has 33 events, as its meaning says.
pub fn one_example_meets_the_premises()
    ensures { (d : Graph) × (m : Source ℕ ℕ ℕ Bool) × (depth : ℕ → ℕ) × (writes : (Address → ℕ → Option ℕ)) × (read : Reading ℕ)
        × (turns : (ℕ → ℕ)) × (tries : (Address → ℕ → ℕ)) × (knows : (Address → ℕ → ℕ → Bool))
        × MeetsPremises d m depth writes read turns tries knows × (meaning m depth d (address 5 (1 ∷ [])) ≡ Some 4)
        × (total m (meaning m depth d) d [] ≡ 33)
        × (es : List Event) × (s : State ℕ ℕ ℕ Bool) × Run d m fresh es s × IsOver d m s × (length es ≡ 33) }
{}

/// And its resubmission from the Increment in the If, with a layer in which it adds two, meets them again: 25 events, and the Until has one
/// iteration fewer.
pub fn its_resubmission_meets_the_premises()
    ensures { (d : Graph) × (m : Source ℕ ℕ ℕ Bool) × (depth : ℕ → ℕ) × (writes : (Address → ℕ → Option ℕ)) × (read : Reading ℕ)
        × (b : Source ℕ ℕ ℕ Bool) × (c : Source ℕ ℕ ℕ Bool) × (chosen : (ℕ → Bool)) × (recall : (Address → ℕ))
        × IsInstance d m depth × MeetsPremisesAgain d m depth writes read b c chosen recall
        × (total (pin m b (redone d depth chosen) (closed_again d depth chosen) (meaning m depth d) recall)
        (meaning (pin m b (redone d depth chosen) (closed_again d depth chosen) (meaning m depth d) recall) depth d) d [] ≡ 25)
        × (meaning (pin m b (redone d depth chosen) (closed_again d depth chosen) (meaning m depth d) recall) depth d
        (address 5 (0 ∷ [])) ≡ Some 4) }
{}

/// Tables that have rows only in the definition, and there the same ones, are equal. So what is said of a record's table holds however the
/// record is kept.
pub fn tables_are_one<Row>()
    ensures { (d : Graph) (t u : Table Row) → ((x : Address) → is_within d [] x ≡ false → (t x ≡ None) × (u x ≡ None))
        → ((x : Address) → is_within d [] x ≡ true → t x ≡ u x) → t ≡ u }
{}

/// A table has one record at most, its rows in one sorted list.
pub fn records_are_one<Row>()
    ensures { RecordsAreOne Row }
{}

/// And a meaning's table has one, since its rows stand at finitely many addresses.
pub fn a_meaning_has_a_record<Row, Begun, Decision, Verdict>()
    ensures { (d : Graph) (m : Source Row Begun Decision Verdict) (depth : ℕ → ℕ) → IsDepth d depth → Sound m (SeenIn d) d 0 → IsFresh m
        → HasRecord (meaning m depth d) }
{}

/// And so has that of a resubmission of an old table that is given as a list.
pub fn a_resubmission_has_a_record<Row, Begun, Decision, Verdict, Entry>()
    ensures { (d : Graph) (depth : ℕ → ℕ) (a b : Source Row Begun Decision Verdict) (redo again : ℕ → Bool) (r : Table Row)
        (recall : Address → Decision)
        → IsDepth d depth → Sound b (SeenIn d) d 0 → (at : Entry → Address) (row : Entry → Row) (rows : List Entry) → Lists at row r rows
        → HasRecord (meaning (pin a b redo again r recall) depth d) }
{}
