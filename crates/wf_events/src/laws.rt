//! That a plan tells of an action, and of what is edited as it gets its row, what the laws of counting say.
ghost use Rattle.std.specs.Prelude.{◌≡◌, ◌-◌, ◌&&◌, List, None, cond, option_map, true, ℕ};
ghost use Rattle.wf_layers.specs.Address.{Address, Table, address, is_own, same_at};
ghost use Rattle.wf_layers.specs.Changes.{is_named, places};
ghost use Rattle.wf_layers.specs.Definition.{Graph, Kind, Need, needs_of};
ghost use Rattle.wf_layers.specs.Machine.{Event, Opening, State, Step, place_of};
ghost use Rattle.wf_layers.specs.Source.{Source};
ghost use Rattle.wf_tables.specs.Counted.{less};
ghost use Rattle.wf_tables.specs.Event.{counted_idle, counted_open};
ghost use Rattle.wf_tables.specs.Reached.{IsReached};
ghost use Rattle.wf_step_laws.specs.Edits.{IsPlaced};
ghost use Rattle.wf_tables.specs.Instances.{instance_of};
ghost use Rattle.wf_tables.specs.Known.{is_among};
ghost use Rattle.wf_tables.specs.Plan.{PlanTree, shape_of};
ghost use Rattle.wf_tables.specs.PlanOf.{IsPlanOf};
ghost use Rattle.wf_tables.specs.PlanSeen.{list_at};
ghost use Rattle.wf_events.specs.Events.{idle_kind, open_kind};
ghost use Rattle.wf_events.specs.Looked.{idle_at, open_at};
ghost use Rattle.wf_events.specs.Round.{is_finished, is_graph, look_out, round_at};
ghost use Rattle.wf_tables.specs.Tables.{event_at};

/// By the shape of its kind the event of an open container, and of an action that is decided, is the one that the counts give.
pub fn shapes_tell_events<Row, Begun, Decision, Verdict>()
    ensures opened { (d : Graph) (m : Source Row Begun Decision Verdict) (s : State Row Begun Decision Verdict) (waits lacks : Table ℕ)
        (left : (Address → ℕ)) (n : ℕ) (i : List ℕ) (kind : Kind) (w : Opening Decision Verdict)
        → option_map (λ k. event_at k n i) (open_kind m lacks (left (address n i)) (shape_of kind) n i w)
        ≡ counted_open d m s waits lacks left kind n i w }
    ensures idle { (d : Graph) (m : Source Row Begun Decision Verdict) (s : State Row Begun Decision Verdict) (waits lacks : Table ℕ)
        (left : (Address → ℕ)) (n : ℕ) (i : List ℕ) (after : List Need) (kind : Kind)
        → option_map (λ k. event_at k n i) (idle_kind m s.rows waits after (shape_of kind) n i)
        ≡ counted_idle d m s waits lacks left after kind n i None }
{}

/// Where an action gets its row in a state to which a run leads, and those that name it are idle afterwards, what `count_row` and `settle`
/// make of the tables, by the graph that `round_of` gives, are the edits of which `rows_are_counted` speaks.
pub fn rows_are_placed<Row, Begun, Decision, Verdict>()
    ensures { (d : Graph) (depth : (ℕ → ℕ)) (m : Source Row Begun Decision Verdict) (s : State Row Begun Decision Verdict)
        → IsReached d depth m s → (e : Event) (s' : State Row Begun Decision Verdict) → Step d m s e s' → places e ≡ true
        → (p : PlanTree) → IsPlanOf d p
        → (waits waits' lacks lacks' : Table ℕ) (left left' : (Address → ℕ)) (ready ready' : Table Event)
        → ((q : ℕ) → is_named (needs_of d q) (place_of e).name ≡ true → (s'.rows (address q (place_of e).at) ≡ None)
        × (s'.running (address q (place_of e).at) ≡ None) × (s'.opens (address q (place_of e).at) ≡ None))
        → ((x : Address) → waits' x
        ≡ cond (is_among x.name (list_at p.followers (place_of e).name) && same_at (place_of e).at x.at) (less 1 (waits x)) (waits x))
        → ((x : Address) → lacks' x ≡ cond (is_graph (round_at p (instance_of (place_of e))) x) (less 1 (lacks x)) (lacks x))
        → ((x : Address) → left' x ≡ cond (is_finished (round_at p (instance_of (place_of e))) lacks' x) (left x - 1) (left x))
        → ((x : Address) → ready' x
        ≡ cond (is_among x.name (list_at p.followers (place_of e).name) && same_at (place_of e).at x.at) (idle_at m s'.rows waits' p x)
        (look_out (open_at m s'.opens lacks' left' p) (round_at p (instance_of (place_of e)))
        (λ y. cond (is_own (place_of e).name (place_of e).at y) None (ready y)) x))
        → IsPlaced d m (place_of e) s' waits waits' lacks lacks' left left' ready ready' }
{}
