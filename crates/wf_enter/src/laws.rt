//! That what is edited as a graph is entered is what the laws of counting ask for.
ghost use Rattle.std.specs.Prelude.{◌≡◌, ◌∷◌, ◌++◌, [], List, Some, ℕ};
ghost use Rattle.wf_layers.specs.Address.{Address, Table, address};
ghost use Rattle.wf_layers.specs.Definition.{Graph, Kind, kind_of};
ghost use Rattle.wf_layers.specs.Machine.{Begin, Event, Open, Opening, State, Step};
ghost use Rattle.wf_layers.specs.Source.{Source};
ghost use Rattle.wf_kept.specs.Reached.{IsReached};
ghost use Rattle.wf_step_laws.specs.Edits.{IsEntered, opened_graph, turned_graph};
ghost use Rattle.wf_events.specs.Plan.{PlanTree};
ghost use Rattle.wf_events.specs.PlanOf.{IsPlanOf};
ghost use Rattle.wf_enter.specs.Entered.{IsEnteredBy};
ghost use Rattle.wf_enter.specs.Graphs.{opened_at, turned_at};

/// In a state to which a run leads, edits by a plan are those of which `openings_are_counted` speaks, where a container opens, and those of
/// which `iterations_are_counted` does, where an iteration begins.
pub fn graphs_are_entered<Row, Begun, Decision, Verdict>()
    ensures opened { (d : Graph) (depth : (ℕ → ℕ)) (m : Source Row Begun Decision Verdict) (s : State Row Begun Decision Verdict)
        → IsReached d depth m s → (n : ℕ) (i : List ℕ) (s' : State Row Begun Decision Verdict) → Step d m s (Open n i) s'
        → (p : PlanTree) → IsPlanOf d p → (kind : Kind) → kind_of d n ≡ Some kind
        → (w : Opening Decision Verdict) → s'.opens (address n i) ≡ Some w
        → (waits waits' lacks lacks' : Table ℕ) (left left' : (Address → ℕ)) (ready ready' : Table Event)
        → IsEnteredBy m p (address n i) (opened_at p n (m.taken w.decision)) i 0 s' waits waits' lacks lacks' left left' ready ready'
        → IsEntered d m (address n i) (opened_graph m.taken kind w.decision) i 0 s' waits waits' lacks lacks' left left' ready ready' }
    ensures begun { (d : Graph) (depth : (ℕ → ℕ)) (m : Source Row Begun Decision Verdict) (s : State Row Begun Decision Verdict)
        → IsReached d depth m s → (n : ℕ) (i : List ℕ) (s' : State Row Begun Decision Verdict) → Step d m s (Begin n i) s'
        → (p : PlanTree) → IsPlanOf d p → (kind : Kind) → kind_of d n ≡ Some kind
        → (u : Opening Decision Verdict) → s.opens (address n i) ≡ Some u
        → (now : ℕ) (waits waits' lacks lacks' : Table ℕ) (left left' : (Address → ℕ)) (ready ready' : Table Event)
        → IsEnteredBy m p (address n i) (turned_at p n) (i ++ u.next ∷ []) now s' waits waits' lacks lacks' left left' ready ready'
        → IsEntered d m (address n i) (turned_graph kind) (i ++ u.next ∷ []) now s' waits waits' lacks lacks' left left' ready ready' }
{}
