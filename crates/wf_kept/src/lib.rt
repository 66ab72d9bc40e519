//! What an engine keeps of a state beside its tables, so that no event looks at more than it changes.
//!
//! The machine of `wf_layers` says which event each action has by walking over what the action waits for and over the graphs that it
//! holds. An engine that did so at each step would take a time that grows with the square of a run. So it keeps counts: of each action
//! of an open graph, how much it still waits for; of each graph in an open container, how many of its actions lack a row
//! (`specs/Counted`); and of a Foreach, how many begun iterations aren't finished. By these the event of an action is told without a walk
//! (`specs/Event`), and the ready set, which has the enabled events, is looked at anew at a few addresses alone (`specs/Ready`). The laws
//! say, of each kind of event and whatever the source of answers is, what an engine has to change so that all of it is that of the next
//! state. They hold of each state that is reached (`specs/Reached`), by a run that begins or by one that goes on from an old record.
//!
//! Further laws say what an engine owes as it asks what an action does. What the action sees is there as the definition means it; what open
//! containers keep is what they would decide by the rows that are there; and a store that each writer of a variable overwrites
//! (`specs/Stored`) holds what the last writer that the action sees wrote. And the events that a state has taken (`specs/Taken`) are few by
//! the cost of what is in it, so that an engine that bounds this cost bounds its steps.
//!
//! It has no code. Each public function has an empty body, and its contract is a law. How an engine keeps its counts, and that it changes
//! them as said here, is the engine's part.
#![tactic(auto)]

ghost use Rattle.std.specs.Prelude.{[], ◌*◌, ◌+◌, ◌≡◌, ◌≤◌, Bool, List, None, Option, Some, false, length, suc, true, ℕ};
ghost use Rattle.wf_layers.specs.Address.{Address, SeenIn, Table, address};
ghost use Rattle.wf_layers.specs.Bound.{Costs, TellsTurns, left};
ghost use Rattle.wf_layers.specs.Changes.{is_named};
ghost use Rattle.wf_layers.specs.Definition.{Closed, Graph, IsDepth, Kind, Leaf, Need, Until, holds, kind_of, needs_of};
ghost use Rattle.wf_layers.specs.Enabled.{own_event};
ghost use Rattle.wf_layers.specs.Facts.{Facts};
ghost use Rattle.wf_layers.specs.Laws.{Exact, IsInstance};
ghost use Rattle.wf_layers.specs.Listed.{Lists, sum_of};
ghost use Rattle.wf_layers.specs.Machine.{Event, IsContainer, IsDecided, IsThere, MayTest, Opening, Run, Running, State, Step, fresh};
ghost use Rattle.wf_layers.specs.Meaning.{meaning};
ghost use Rattle.wf_layers.specs.Resubmission.{IsOldTable, pin, resumed};
ghost use Rattle.wf_layers.specs.Source.{Sound, Source};
ghost use Rattle.wf_layers.specs.Variables.{IsLastSeen, IsLastWritten, OneOrder, SeenByTest, written};
ghost use Rattle.wf_kept.specs.Counted.{AreCounts, AreLacksAfter, waits_after};
ghost use Rattle.wf_kept.specs.Event.{AreLeft, AreLeftAfter, counted_event};
ghost use Rattle.wf_kept.specs.Quiet.{is_quiet};
ghost use Rattle.wf_kept.specs.Reached.{IsNoLoop, IsReached, IsResumption};
ghost use Rattle.wf_kept.specs.Ready.{IsEdited, IsReady, IsRefreshed};
ghost use Rattle.wf_kept.specs.Stored.{IsStored, MayRead, kept_rows};
ghost use Rattle.wf_kept.specs.Taken.{HasTaken};

/// A step leads from a reached state to a reached one.
pub fn steps_reach_states<Row, Begun, Decision, Verdict>()
    ensures { (d : Graph) (depth : ℕ → ℕ) (m : Source Row Begun Decision Verdict) (s : State Row Begun Decision Verdict)
        → IsReached d depth m s → (e : Event) (s' : State Row Begun Decision Verdict) → Step d m s e s' → IsReached d depth m s' }
{}

/// The table of events has at each address exactly the event that is enabled there.
pub fn events_of_reached_states_are_exact<Row, Begun, Decision, Verdict>()
    ensures { (d : Graph) (depth : ℕ → ℕ) (m : Source Row Begun Decision Verdict) (s : State Row Begun Decision Verdict)
        → IsReached d depth m s → Exact d m s }
{}

/// As an event is taken, counts that are edited as said by `waits_after` and `AreLacksAfter` are those of the new state.
pub fn counts_are_kept<Row, Begun, Decision, Verdict>()
    ensures { (d : Graph) (depth : ℕ → ℕ) (m : Source Row Begun Decision Verdict) (s : State Row Begun Decision Verdict)
        → IsReached d depth m s → (e : Event) (s' : State Row Begun Decision Verdict) → Step d m s e s'
        → (waits waits' lacks lacks' : Table ℕ) → AreCounts d m s waits lacks
        → ((n : ℕ) (i : List ℕ) (after : List Need) (kind : Kind) → IsThere d m s' n i after kind
        → waits' (address n i) ≡ waits_after d m s e waits (address n i))
        → AreLacksAfter d m s e s' lacks lacks' → AreCounts d m s' waits' lacks' }
{}

/// And so are the numbers of unfinished iterations.
pub fn unfinished_are_kept<Row, Begun, Decision, Verdict>()
    ensures { (d : Graph) (depth : ℕ → ℕ) (m : Source Row Begun Decision Verdict) (s : State Row Begun Decision Verdict)
        → IsReached d depth m s → (e : Event) (s' : State Row Begun Decision Verdict) → Step d m s e s'
        → (waits lacks : Table ℕ) (left left' : Address → ℕ) → AreCounts d m s' waits lacks → AreLeft d m s left
        → AreLeftAfter d m s e s' lacks left left' → AreLeft d m s' left' }
{}

/// By the counts the event of an action is the one that its rule gives.
pub fn events_are_counted<Row, Begun, Decision, Verdict>()
    ensures { (d : Graph) (m : Source Row Begun Decision Verdict) (s : State Row Begun Decision Verdict) (waits lacks : Table ℕ)
        (left : Address → ℕ) → AreCounts d m s waits lacks → AreLeft d m s left
        → (n : ℕ) (i : List ℕ) (after : List Need) (kind : Kind) → IsThere d m s n i after kind
        → counted_event d m s waits lacks left after kind n i ≡ own_event m s after kind n i }
{}

/// In each event what is left of the events falls by one: the measure of a loop that drives a run.
pub fn one_less_is_left<Row, Begun, Decision, Verdict>()
    ensures { (d : Graph) (depth : ℕ → ℕ) (m : Source Row Begun Decision Verdict) (s : State Row Begun Decision Verdict)
        → IsReached d depth m s → (e : Event) (s' : State Row Begun Decision Verdict) → Step d m s e s'
        → left m (meaning m depth d) s d [] ≡ suc (left m (meaning m depth d) s' d []) }
{}

/// A Start, a Try and a Test change no count.
pub fn quiet_events_leave_counts<Row, Begun, Decision, Verdict>()
    ensures { (d : Graph) (depth : ℕ → ℕ) (m : Source Row Begun Decision Verdict) (s : State Row Begun Decision Verdict)
        → IsReached d depth m s → (e : Event) (s' : State Row Begun Decision Verdict) → Step d m s e s' → is_quiet e ≡ true
        → (waits lacks : Table ℕ) → AreCounts d m s waits lacks → AreCounts d m s' waits lacks }
{}

/// Who waits for an action of an open graph stands in that graph.
pub fn followers_are_there<Row, Begun, Decision, Verdict>()
    ensures { (d : Graph) (depth : ℕ → ℕ) (m : Source Row Begun Decision Verdict) (s : State Row Begun Decision Verdict)
        → IsReached d depth m s → (n : ℕ) (i : List ℕ) (after : List Need) (kind : Kind) → IsThere d m s n i after kind
        → (q : ℕ) → is_named (needs_of d q) n ≡ true → (before : List Need) × (other : Kind) × IsThere d m s q i before other }
{}

/// A ready set that is looked at anew at some addresses, and left alone elsewhere, is that of the new state, where each of them stands in
/// an open graph, and each that stands there and may have changed is one of them.
pub fn the_ready_set_is_refreshed<Row, Begun, Decision, Verdict>()
    ensures { (d : Graph) (depth : ℕ → ℕ) (m : Source Row Begun Decision Verdict) (s : State Row Begun Decision Verdict)
        → IsReached d depth m s → (e : Event) (s' : State Row Begun Decision Verdict) → Step d m s e s'
        → (R : Address → Bool) (ready ready' : Table Event) → IsReady d m s ready → IsRefreshed d m R s e s' ready ready'
        → IsReady d m s' ready' }
{}

/// An edited ready set is that of the new state.
pub fn the_ready_set_is_kept<Row, Begun, Decision, Verdict>()
    ensures { (d : Graph) (depth : ℕ → ℕ) (m : Source Row Begun Decision Verdict) (s : State Row Begun Decision Verdict)
        → IsReached d depth m s → (e : Event) (s' : State Row Begun Decision Verdict) → Step d m s e s'
        → (ready ready' : Table Event) → IsReady d m s ready → IsEdited d m s e s' ready ready' → IsReady d m s' ready' }
{}

/// Each reached state has the facts of states (`wf_layers`, `specs/Facts`), with the meaning's rows.
pub fn reached_states_have_the_facts<Row, Begun, Decision, Verdict>()
    ensures { (d : Graph) (depth : ℕ → ℕ) (m : Source Row Begun Decision Verdict) (s : State Row Begun Decision Verdict)
        → IsReached d depth m s → Facts d m (meaning m depth d) s }
{}

/// An action of an open graph is the definition's of its number: of that kind, waiting for what it names there.
pub fn kinds_are_known<Row, Begun, Decision, Verdict>()
    ensures { (d : Graph) (depth : ℕ → ℕ) (m : Source Row Begun Decision Verdict) (s : State Row Begun Decision Verdict)
        → IsReached d depth m s → (n : ℕ) (i : List ℕ) (after : List Need) (kind : Kind) → IsThere d m s n i after kind
        → (kind_of d n ≡ Some kind) × (needs_of d n ≡ after) }
{}

/// What starts, opens or is skipped in a reached state is asked anew, and so is all inside it: none of it is kept from an old record, or
/// closed again as it was decided there.
pub fn what_is_decided_is_new<Row, Begun, Decision, Verdict>()
    ensures itself { (d : Graph) (depth : ℕ → ℕ) (m : Source Row Begun Decision Verdict) (s : State Row Begun Decision Verdict)
        → IsReached d depth m s → (n : ℕ) (i : List ℕ) (after : List Need) (kind : Kind) → IsDecided d m s n i after kind
        → (m.pinned n ≡ false) × (m.reclosed n ≡ false) }
    ensures inside { (d : Graph) (depth : ℕ → ℕ) (m : Source Row Begun Decision Verdict) (s : State Row Begun Decision Verdict)
        → IsReached d depth m s → (n : ℕ) (i : List ℕ) (after : List Need) (kind : Kind) → IsDecided d m s n i after kind
        → (q : ℕ) → holds kind q ≡ true → (m.pinned q ≡ false) × (m.reclosed q ≡ false) }
{}

/// A state from which an old record is gone on is reached, no event is taken there yet, and a store that has what the last of its writers
/// wrote is its own.
pub fn resumptions_are_reached<Row, Begun, Decision, Verdict, Value>()
    ensures reached { (d : Graph) (depth : ℕ → ℕ) (m : Source Row Begun Decision Verdict) (s : State Row Begun Decision Verdict)
        → IsResumption d depth m s → IsReached d depth m s }
    ensures untaken { (d : Graph) (depth : ℕ → ℕ) (m : Source Row Begun Decision Verdict) (s : State Row Begun Decision Verdict)
        → IsResumption d depth m s → HasTaken d depth m s 0 }
    ensures stored { (d : Graph) (depth : ℕ → ℕ) (m : Source Row Begun Decision Verdict) (s : State Row Begun Decision Verdict)
        → IsResumption d depth m s → (writes : Address → Row → Option Value) (v : Option Value) → IsLastWritten d m writes s.rows v
        → IsStored d depth m writes s v }
{}

/// In it only Scopes and Choices are open, in no loop, and no iteration has begun.
pub fn resumptions_open_no_loop<Row, Begun, Decision, Verdict>()
    ensures { (d : Graph) (depth : ℕ → ℕ) (m : Source Row Begun Decision Verdict) (s : State Row Begun Decision Verdict)
        → IsResumption d depth m s → (n : ℕ) (i : List ℕ) (w : Opening Decision Verdict) → s.opens (address n i) ≡ Some w
        → (kind : Kind) → kind_of d n ≡ Some kind → (i ≡ []) × (w.next ≡ 0) × IsNoLoop kind }
{}

/// What an action sees is there as the meaning has it: as it is decided, while it is running or open, and, for an Until, as it is tested,
/// also what the test sees.
pub fn what_is_seen_is_there<Row, Begun, Decision, Verdict>()
    ensures decided { (d : Graph) (depth : ℕ → ℕ) (m : Source Row Begun Decision Verdict) (s : State Row Begun Decision Verdict)
        → IsReached d depth m s → (n : ℕ) (i : List ℕ) (after : List Need) (kind : Kind) → IsDecided d m s n i after kind
        → (y : Address) → SeenIn d (address n i) y → s.rows y ≡ meaning m depth d y }
    ensures running { (d : Graph) (depth : ℕ → ℕ) (m : Source Row Begun Decision Verdict) (s : State Row Begun Decision Verdict)
        → IsReached d depth m s → (x : Address) (w : Running Begun) → s.running x ≡ Some w
        → (y : Address) → SeenIn d x y → s.rows y ≡ meaning m depth d y }
    ensures opened { (d : Graph) (depth : ℕ → ℕ) (m : Source Row Begun Decision Verdict) (s : State Row Begun Decision Verdict)
        → IsReached d depth m s → (x : Address) (w : Opening Decision Verdict) → s.opens x ≡ Some w
        → (y : Address) → SeenIn d x y → s.rows y ≡ meaning m depth d y }
    ensures tested { (d : Graph) (depth : ℕ → ℕ) (m : Source Row Begun Decision Verdict) (s : State Row Begun Decision Verdict)
        → IsReached d depth m s → (n : ℕ) (i : List ℕ) (after : List Need) (most : ℕ) (g : Graph) (w : Opening Decision Verdict) (j : ℕ)
        → IsThere d m s n i after (Until most g) → s.opens (address n i) ≡ Some w → MayTest m (Until most g) i w s.rows j
        → (y : Address) → SeenByTest d n i g j y → s.rows y ≡ meaning m depth d y }
{}

/// What an open container decided is what it would decide by the rows that are there now.
pub fn open_containers_keep_what_they_decide<Row, Begun, Decision, Verdict>()
    ensures { (d : Graph) (depth : ℕ → ℕ) (m : Source Row Begun Decision Verdict) (s : State Row Begun Decision Verdict)
        → IsReached d depth m s → (x : Address) (w : Opening Decision Verdict) → s.opens x ≡ Some w → w.decision ≡ m.decide x s.rows }
{}

/// What is running or open stands in an open graph, and is nothing else: a leaf that has no row and isn't open, and a container that has no
/// row and isn't running.
pub fn running_and_open_instances_stand<Row, Begun, Decision, Verdict>()
    ensures running { (d : Graph) (depth : ℕ → ℕ) (m : Source Row Begun Decision Verdict) (s : State Row Begun Decision Verdict)
        → IsReached d depth m s → (x : Address) (w : Running Begun) → s.running x ≡ Some w
        → ((after : List Need) × IsThere d m s x.name x.at after Leaf) × (s.rows x ≡ None) × (s.opens x ≡ None) }
    ensures opened { (d : Graph) (depth : ℕ → ℕ) (m : Source Row Begun Decision Verdict) (s : State Row Begun Decision Verdict)
        → IsReached d depth m s → (x : Address) (w : Opening Decision Verdict) → s.opens x ≡ Some w
        → ((after : List Need) × (kind : Kind) × IsContainer kind × IsThere d m s x.name x.at after kind) × (s.rows x ≡ None)
        × (s.running x ≡ None) }
{}

/// As a run begins a store has no value; as an old record is gone on from it has what the last kept writer wrote, if any.
pub fn stores_begin<Row, Begun, Decision, Verdict, Value>()
    ensures begun { (d : Graph) (depth : ℕ → ℕ) (m : Source Row Begun Decision Verdict) (writes : Address → Row → Option Value)
        → IsInstance d m depth → IsStored d depth m writes fresh None }
    ensures resumed { (d : Graph) (depth : ℕ → ℕ) (a b : Source Row Begun Decision Verdict) (writes : Address → Row → Option Value)
        (redo again : ℕ → Bool) (r : Table Row) (recall : Address → Decision) (v : Option Value)
        → IsDepth d depth → Closed d d → Sound b (SeenIn d) d 0 → IsOldTable d a redo again r recall
        → IsLastWritten d (pin a b redo again r recall) writes (kept_rows redo again r) v
        → IsStored d depth (pin a b redo again r recall) writes (resumed d redo again r recall) v }
{}

/// And each event makes of it what `written` says.
pub fn stores_go_on<Row, Begun, Decision, Verdict, Value>()
    ensures { (d : Graph) (depth : ℕ → ℕ) (m : Source Row Begun Decision Verdict) (writes : Address → Row → Option Value)
        (s : State Row Begun Decision Verdict) (v : Option Value) → IsStored d depth m writes s v
        → (e : Event) (s' : State Row Begun Decision Verdict) → Step d m s e s'
        → IsStored d depth m writes s' (written d m writes e s' v) }
{}

/// A state that has a store is reached.
pub fn states_with_stores_are_reached<Row, Begun, Decision, Verdict, Value>()
    ensures { (d : Graph) (depth : ℕ → ℕ) (m : Source Row Begun Decision Verdict) (writes : Address → Row → Option Value)
        (s : State Row Begun Decision Verdict) (v : Option Value) → IsStored d depth m writes s v → IsReached d depth m s }
{}

/// Where the writers of a variable are in one order, its store holds what the last writer that an action sees wrote: as the action is
/// decided, while it is running, and, for an Until, as it is tested, what the last writer that the test sees wrote. It is told by the rows
/// that are there, for each action that may read the variable.
pub fn stores_hold_the_last<Row, Begun, Decision, Verdict, Value>()
    ensures written { (d : Graph) (depth : ℕ → ℕ) (m : Source Row Begun Decision Verdict) (writes : Address → Row → Option Value)
        → OneOrder d m writes (meaning m depth d) → (s : State Row Begun Decision Verdict) (v : Option Value)
        → IsStored d depth m writes s v → IsLastWritten d m writes s.rows v }
    ensures decided { (d : Graph) (depth : ℕ → ℕ) (m : Source Row Begun Decision Verdict) (writes : Address → Row → Option Value)
        → OneOrder d m writes (meaning m depth d) → (s : State Row Begun Decision Verdict) (v : Option Value)
        → IsStored d depth m writes s v → (n : ℕ) (i : List ℕ) (after : List Need) (kind : Kind) → IsDecided d m s n i after kind
        → MayRead d writes n kind i → IsLastSeen d m writes s.rows (SeenIn d (address n i)) v }
    ensures running { (d : Graph) (depth : ℕ → ℕ) (m : Source Row Begun Decision Verdict) (writes : Address → Row → Option Value)
        → OneOrder d m writes (meaning m depth d) → (s : State Row Begun Decision Verdict) (v : Option Value)
        → IsStored d depth m writes s v → (n : ℕ) (i : List ℕ) (w : Running Begun) → s.running (address n i) ≡ Some w
        → MayRead d writes n Leaf i → IsLastSeen d m writes s.rows (SeenIn d (address n i)) v }
    ensures tested { (d : Graph) (depth : ℕ → ℕ) (m : Source Row Begun Decision Verdict) (writes : Address → Row → Option Value)
        → OneOrder d m writes (meaning m depth d) → (s : State Row Begun Decision Verdict) (v : Option Value)
        → IsStored d depth m writes s v → (n : ℕ) (i : List ℕ) (after : List Need) (most : ℕ) (g : Graph) (w : Opening Decision Verdict)
        (j : ℕ) → IsThere d m s n i after (Until most g) → s.opens (address n i) ≡ Some w → MayTest m (Until most g) i w s.rows j
        → MayRead d writes n (Until most g) i → IsLastSeen d m writes s.rows (SeenByTest d n i g j) v }
{}

/// And two stores of one state hold the same, whatever list of events each has: so a store belongs to its state.
pub fn stores_are_one<Row, Begun, Decision, Verdict, Value>()
    ensures { (d : Graph) (depth : ℕ → ℕ) (m : Source Row Begun Decision Verdict) (writes : Address → Row → Option Value)
        → OneOrder d m writes (meaning m depth d) → (s : State Row Begun Decision Verdict) (v u : Option Value)
        → IsStored d depth m writes s v → IsStored d depth m writes s u → v ≡ u }
{}

/// The events that a state has taken are as many as each run to it has; and a step takes one more.
pub fn events_are_taken_one_by_one<Row, Begun, Decision, Verdict>()
    ensures begun { (d : Graph) (depth : ℕ → ℕ) (m : Source Row Begun Decision Verdict) → IsInstance d m depth
        → (es : List Event) (s : State Row Begun Decision Verdict) → Run d m fresh es s → HasTaken d depth m s (length es) }
    ensures resumed { (d : Graph) (depth : ℕ → ℕ) (a b : Source Row Begun Decision Verdict) (redo again : ℕ → Bool) (r : Table Row)
        (recall : Address → Decision) → IsDepth d depth → Closed d d → Sound b (SeenIn d) d 0 → IsOldTable d a redo again r recall
        → (es : List Event) (s : State Row Begun Decision Verdict)
        → Run d (pin a b redo again r recall) (resumed d redo again r recall) es s
        → HasTaken d depth (pin a b redo again r recall) s (length es) }
    ensures goes_on { (d : Graph) (depth : ℕ → ℕ) (m : Source Row Begun Decision Verdict) (s : State Row Begun Decision Verdict)
        → IsReached d depth m s → (k : ℕ) → HasTaken d depth m s k → (e : Event) (s' : State Row Begun Decision Verdict)
        → Step d m s e s' → HasTaken d depth m s' (suc k) }
    ensures once { (d : Graph) (depth : ℕ → ℕ) (m : Source Row Begun Decision Verdict) (s : State Row Begun Decision Verdict) (k l : ℕ)
        → HasTaken d depth m s k → HasTaken d depth m s l → k ≡ l }
{}

/// 32 times the number of events that a state has taken is at most the cost of what is placed, begun and tried, in whatever lists the
/// state is kept.
pub fn events_taken_are_few<Row, Begun, Decision, Verdict, RowAt, LeafAt, OpenAt>()
    ensures { (d : Graph) (depth : ℕ → ℕ) (m : Source Row Begun Decision Verdict) (s : State Row Begun Decision Verdict)
        → IsReached d depth m s → (k : ℕ) → HasTaken d depth m s k → (turns : (Row → ℕ)) → TellsTurns d m (meaning m depth d) turns
        → (row_at : (RowAt → Address)) (row : (RowAt → Row)) (leaf_at : (LeafAt → Address)) (leaf : (LeafAt → Running Begun))
        (open_at : (OpenAt → Address)) (opening : (OpenAt → Opening Decision Verdict))
        (of_row : (RowAt → ℕ)) (of_leaf : (LeafAt → ℕ)) (of_open : (OpenAt → ℕ)) → Costs turns row leaf opening of_row of_leaf of_open
        → (rows : List RowAt) (leaves : List LeafAt) (opens : List OpenAt) → Lists row_at row s.rows rows
        → Lists leaf_at leaf s.running leaves → Lists open_at opening s.opens opens
        → 32 * k ≤ sum_of of_row rows + sum_of of_leaf leaves + sum_of of_open opens }
{}
