//! What is seen is what is meant. Each call tells a caller so, and does nothing.
ghost use Rattle.std.specs.Prelude.{◌≡◌, ℕ};
ghost use Rattle.wf_views.specs.Known.{IsInformed, IsInformedAtTest};
ghost use Rattle.wf_layers.specs.Address.{Address};
ghost use Rattle.wf_layers.specs.Definition.{Graph, Kind};
ghost use Rattle.wf_layers.specs.Seen.{Once};
ghost use Rattle.wf_def.specs.DefTree.{DefTree};
ghost use Rattle.wf_views.specs.Environment.{Environment, facts_of, last_facts};
ghost use Rattle.wf_views.specs.Answering.{AnswersAs, RowSource};
ghost use Rattle.wf_views.specs.Look.{name_of, told_at, told_in_test, told_to_outputs};
ghost use Rattle.wf_views.specs.Points.{graph_of};
ghost use Rattle.wf_sight.specs.Laws.{run_of, with_variables};
ghost use Rattle.wf_sight.specs.Sight.{KnownTree, seen_at, seen_by_outputs, seen_in_test};

/// Where what is known is what the machine promises of any source by which the definition answers, an action sees what the meaning tells
/// it, but that a variable's value is what the row of its last writer gives; so does the test of an Until; and the section `outputs` in
/// whatever rows there are. Of what open containers decided only that of loops is seen, and no loop is closed again.
pub fn what_is_seen_is_told()
    ensures at { (d : DefTree) (e : Environment) (m : RowSource) → AnswersAs d e m → (x : Address) (kind : Kind) (depth : ℕ → ℕ)
        (known : KnownTree) → Once (graph_of d)
        → IsInformed (graph_of d) depth m known.rows known.opens x.name x.at kind
        → seen_at d (run_of e (facts_of e (name_of d x.name))) x known ≡ with_variables d known (told_at d e x known.rows) }
    ensures in_test { (d : DefTree) (e : Environment) (m : RowSource) → AnswersAs d e m → (u : Address) (most : ℕ) (g : Graph) (k : ℕ)
        (depth : ℕ → ℕ) (known : KnownTree) → Once (graph_of d)
        → IsInformedAtTest (graph_of d) depth m known.rows known.opens u.name u.at most g k
        → seen_in_test d (run_of e (facts_of e (name_of d u.name))) u k known ≡ with_variables d known (told_in_test d e u k known.rows) }
    ensures by_outputs { (d : DefTree) (e : Environment) (known : KnownTree)
        → seen_by_outputs d (run_of e (last_facts e)) known ≡ with_variables d known (told_to_outputs d e known.rows) }
{}
