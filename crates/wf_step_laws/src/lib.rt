//! What the edits of an engine make of what it keeps: laws over tables alone.
//!
//! `wf_kept` says which counts and which ready set a state has after an event, by what may change where. An engine edits its lists at a
//! few keys: the laws here say that such edits, one record of them for each form of event (`specs/Edits`), are those that `wf_kept` asks
//! for. So the engine's own proofs are of lists and keys, and not of runs.
//!
//! It has no code. Each public function has an empty body, and its contract is a law.
#![tactic(auto)]

ghost use Rattle.std.specs.Prelude.{[], ◌++◌, ◌∷◌, ◌≡◌, ◌≤◌, List, None, Some, cond, false, nat_eq, suc, true, ℕ};
ghost use Rattle.wf_layers.specs.Address.{Address, Table, address};
ghost use Rattle.wf_layers.specs.Changes.{is_named, places};
ghost use Rattle.wf_layers.specs.Definition.{Graph, Kind, kind_of, needs_of};
ghost use Rattle.wf_layers.specs.Machine.{Begin, Event, Open, Opening, State, Step, place_of};
ghost use Rattle.wf_layers.specs.Source.{Source};
ghost use Rattle.wf_layers.specs.Waiting.{times};
ghost use Rattle.wf_kept.specs.Counted.{AreCounts};
ghost use Rattle.wf_kept.specs.Event.{AreLeft};
ghost use Rattle.wf_kept.specs.Reached.{IsReached};
ghost use Rattle.wf_kept.specs.Ready.{IsReady};
ghost use Rattle.wf_step_laws.specs.Edits.{HasOneHolder, IsEntered, IsPlaced, is_foreach, opened_graph, size_of, turned_graph};

/// Where an action gets its row, what is edited as `IsPlaced` says is what the new state's counts and ready set are.
pub fn rows_are_counted<Row, Begun, Decision, Verdict>()
    ensures { (d : Graph) (depth : ℕ → ℕ) (m : Source Row Begun Decision Verdict) (s : State Row Begun Decision Verdict)
        → IsReached d depth m s → (e : Event) (s' : State Row Begun Decision Verdict) → Step d m s e s' → places e ≡ true
        → ((q : ℕ) → times (needs_of d q) (place_of e).name ≤ 1) → HasOneHolder d (place_of e).name
        → (waits waits' lacks lacks' : Table ℕ) (left left' : (Address → ℕ)) (ready ready' : Table Event)
        → AreCounts d m s waits lacks → AreLeft d m s left → IsReady d m s ready
        → IsPlaced d m (place_of e) s' waits waits' lacks lacks' left left' ready ready'
        → AreCounts d m s' waits' lacks' × AreLeft d m s' left' × IsReady d m s' ready' }
{}

/// As a container opens, what is edited as `IsEntered` says, of the graph that it enters, if any, is what the new state has.
pub fn openings_are_counted<Row, Begun, Decision, Verdict>()
    ensures { (d : Graph) (depth : ℕ → ℕ) (m : Source Row Begun Decision Verdict) (s : State Row Begun Decision Verdict)
        → IsReached d depth m s → (n : ℕ) (i : List ℕ) (s' : State Row Begun Decision Verdict) → Step d m s (Open n i) s'
        → (kind : Kind) → kind_of d n ≡ Some kind → (w : Opening Decision Verdict) → s'.opens (address n i) ≡ Some w
        → (waits waits' lacks lacks' : Table ℕ) (left left' : (Address → ℕ)) (ready ready' : Table Event)
        → AreCounts d m s waits lacks → AreLeft d m s left → IsReady d m s ready
        → IsEntered d m (address n i) (opened_graph m.taken kind w.decision) i 0 s' waits waits' lacks lacks' left left' ready ready'
        → AreCounts d m s' waits' lacks' × AreLeft d m s' left' × IsReady d m s' ready' }
{}

/// And as an iteration of a loop begins; of a Foreach one iteration more is unfinished, unless its graph is empty.
pub fn iterations_are_counted<Row, Begun, Decision, Verdict>()
    ensures { (d : Graph) (depth : ℕ → ℕ) (m : Source Row Begun Decision Verdict) (s : State Row Begun Decision Verdict)
        → IsReached d depth m s → (n : ℕ) (i : List ℕ) (s' : State Row Begun Decision Verdict) → Step d m s (Begin n i) s'
        → (kind : Kind) → kind_of d n ≡ Some kind → (u : Opening Decision Verdict) → s.opens (address n i) ≡ Some u
        → (now : ℕ) (waits waits' lacks lacks' : Table ℕ) (left left' : (Address → ℕ)) (ready ready' : Table Event)
        → AreCounts d m s waits lacks → AreLeft d m s left → IsReady d m s ready
        → (is_foreach (kind_of d n) ≡ true
        → now ≡ cond (nat_eq (size_of (turned_graph kind)) 0) (left (address n i)) (suc (left (address n i))))
        → IsEntered d m (address n i) (turned_graph kind) (i ++ u.next ∷ []) now s' waits waits' lacks lacks' left left' ready ready'
        → AreCounts d m s' waits' lacks' × AreLeft d m s' left' × IsReady d m s' ready' }
{}

/// Who names an action that gets its row is another one, and has no row, doesn't run and isn't open.
pub fn who_waits_is_idle<Row, Begun, Decision, Verdict>()
    ensures { (d : Graph) (depth : ℕ → ℕ) (m : Source Row Begun Decision Verdict) (s : State Row Begun Decision Verdict)
        → IsReached d depth m s → (e : Event) (s' : State Row Begun Decision Verdict) → Step d m s e s' → places e ≡ true
        → (q : ℕ) → is_named (needs_of d q) (place_of e).name ≡ true
        → (nat_eq q (place_of e).name ≡ false) × (s.rows (address q (place_of e).at) ≡ None)
        × (s.running (address q (place_of e).at) ≡ None) × (s.opens (address q (place_of e).at) ≡ None) }
{}

/// And so it is afterwards: whatever gets a row with the action, none that names it does.
pub fn who_waits_stays_idle<Row, Begun, Decision, Verdict>()
    ensures { (d : Graph) (depth : ℕ → ℕ) (m : Source Row Begun Decision Verdict) (s : State Row Begun Decision Verdict)
        → IsReached d depth m s → (e : Event) (s' : State Row Begun Decision Verdict) → Step d m s e s' → places e ≡ true
        → (q : ℕ) → is_named (needs_of d q) (place_of e).name ≡ true
        → (s'.rows (address q (place_of e).at) ≡ None) × (s'.running (address q (place_of e).at) ≡ None)
        × (s'.opens (address q (place_of e).at) ≡ None) }
{}
