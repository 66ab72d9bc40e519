//! What is known of the containers of a definition. Each call tells a caller so, and does nothing.
ghost use Rattle.std.specs.Prelude.{◌≡◌, ℕ, Option, Some, length};
ghost use Rattle.wf_answers.specs.Inputs.{InputsTree};
ghost use Rattle.wf_closing.specs.Inside.{AreJudged};
ghost use Rattle.wf_def.specs.ActionTree.{ActionTree, action_kind};
ghost use Rattle.wf_def.specs.AllActions.{all_actions, numbered};
ghost use Rattle.wf_def.specs.DefTree.{DefTree};
ghost use Rattle.wf_def.specs.Names.{graph_names};
ghost use Rattle.wf_closing.specs.Leaf.{BegunTree};
ghost use Rattle.wf_asks.specs.Known.{IsInformed, IsInformedAtTest};
ghost use Rattle.wf_layers.specs.Address.{Address, Table};
ghost use Rattle.wf_layers.specs.Definition.{Graph, Kind};
ghost use Rattle.wf_layers.specs.Seen.{Once};
ghost use Rattle.wf_sight.specs.Laws.{run_of};
ghost use Rattle.wf_sight.specs.Sight.{KnownTree, seen_at, seen_in_test};
ghost use Rattle.wf_sight.specs.Variables.{variable_in};
ghost use Rattle.wf_closing.specs.Environment.{Environment, facts_of, fresh};
ghost use Rattle.wf_closing.specs.Answering.{AnswersAs, RowSource};
ghost use Rattle.wf_closing.specs.Look.{decided_by, name_of, told_at, told_in_test};
ghost use Rattle.wf_closing.specs.Points.{graph_of};
ghost use Rattle.wf_closing.specs.Source.{is_halted, source};
ghost use Rattle.wf_closing.specs.Decisions.{DecisionTree};
ghost use Rattle.wf_closing.specs.Verdicts.{VerdictTree};
ghost use Rattle.wf_order.specs.Table.{order_of};
ghost use Rattle.wf_record.specs.Record.{Row};
ghost use Rattle.wf_closing.specs.Read.{IsRead};
ghost use Rattle.wf_closing.specs.Starts.{StartTree};
ghost use Rattle.wf_doing.specs.Acting.{attempts_by, begun_by, closed_by, finished_by, tested_by};
ghost use Rattle.wf_doing.specs.Halting.{any_halts, terminates_in};
ghost use Rattle.wf_sight.specs.Found.{FindsTold};
ghost use Rattle.wf_doing.specs.Variables.{deciding_uses, starting_uses, testing_uses, tracking_uses};

/// Of each action of a definition the steps of its own graphs give how these ended.
pub fn containers_are_judged()
    ensures { (d : DefTree) → IsRead d → (n : ℕ) (a : ActionTree) → numbered n d.top ≡ Some a → AreJudged (action_kind a) }
{
    wf_closing::steps_give_the_status();
    wf_sight::numbers_stand_once();
    wf_sight::entries_stay_in_their_graph();
    wf_sight::actions_have_depths();
}

/// The Terminates of a definition halt an action where its definition says so.
pub fn terminates_halt()
    ensures { (d : DefTree) (e : Environment) (y : ℕ) (known : Table Row)
        → any_halts (order_of (length (graph_names d.top)) (graph_of d)) y known (terminates_in (all_actions d.top))
        ≡ is_halted d e y known }
{}

/// What an action does by what it is told is what the source of its definition says, where it is told what the definition means.
pub fn what_is_done_is_the_source()
    ensures start { (d : DefTree) (e : Environment) (x : Address) (known : Table Row)
        → begun_by (numbered x.name d.top) (told_at d e x known) ≡ (source d e).start x known }
    ensures tries { (d : DefTree) (s : StartTree) (i : InputsTree) (x : Address) (b : BegunTree)
        → attempts_by (numbered x.name d.top) i.answers x.at b ≡ (source d (fresh s i)).tries x b }
    ensures finish { (d : DefTree) (s : StartTree) (i : InputsTree) (x : Address) (b : BegunTree) (known : Table Row)
        → finished_by (numbered x.name d.top) (told_at d (fresh s i) x known) i.answers x.at b ≡ (source d (fresh s i)).finish x b known }
    ensures test { (d : DefTree) (e : Environment) (u : Address) (k : ℕ) (known : Table Row)
        → tested_by (numbered u.name d.top) (told_in_test d e u k known) ≡ (source d e).test u k known }
    ensures close { (d : DefTree) (e : Environment) (x : Address) (decision : DecisionTree) (n : ℕ) (verdict : Option VerdictTree)
        (known : Table Row)
        → closed_by (numbered x.name d.top) (told_at d e x known) x.at decision n verdict known
        ≡ (source d e).close x decision n verdict known }
{}

/// So a leaf starts, a container decides and a test gives what the definition means, wherever what is known is what the machine promises
/// as it asks, by any source by which the definition answers, and what is found of each variable that is asked for is what the definition
/// means it to be. What an action ends with asks for no more than its tracked properties do.
pub fn what_is_done_is_meant()
    ensures start { (d : DefTree) (e : Environment) (m : RowSource) → AnswersAs d e m → (x : Address) (kind : Kind) (depth : ℕ → ℕ)
        (known : KnownTree) → Once (graph_of d)
        → IsInformed (graph_of d) depth m known.rows known.opens x.name x.at kind
        → FindsTold (λ k. variable_in d known.rows known.store k)
        (told_at d e x known.rows) (starting_uses (numbered x.name d.top))
        → begun_by (numbered x.name d.top) (seen_at d (run_of e (facts_of e (name_of d x.name))) x known)
        ≡ (source d e).start x known.rows }
    ensures decide { (d : DefTree) (e : Environment) (m : RowSource) → AnswersAs d e m → (x : Address) (kind : Kind) (depth : ℕ → ℕ)
        (known : KnownTree) → Once (graph_of d)
        → IsInformed (graph_of d) depth m known.rows known.opens x.name x.at kind
        → FindsTold (λ k. variable_in d known.rows known.store k) (told_at d e x known.rows)
        (deciding_uses (numbered x.name d.top))
        → decided_by (numbered x.name d.top) (seen_at d (run_of e (facts_of e (name_of d x.name))) x known)
        ≡ (source d e).decide x known.rows }
    ensures test { (d : DefTree) (e : Environment) (m : RowSource) → AnswersAs d e m → (u : Address) (most : ℕ) (g : Graph) (j : ℕ)
        (depth : ℕ → ℕ) (known : KnownTree)
        → Once (graph_of d)
        → IsInformedAtTest (graph_of d) depth m known.rows known.opens u.name u.at most g j
        → FindsTold (λ k. variable_in d known.rows known.store k) (told_in_test d e u j known.rows)
        (testing_uses (numbered u.name d.top))
        → tested_by (numbered u.name d.top)
        (seen_in_test d (run_of e (facts_of e (name_of d u.name))) u j known)
        ≡ (source d e).test u j known.rows }
    ensures finish { (d : DefTree) (s : StartTree) (i : InputsTree) (m : RowSource) → AnswersAs d (fresh s i) m → (x : Address)
        (kind : Kind) (depth : ℕ → ℕ) (known : KnownTree) (b : BegunTree) → Once (graph_of d)
        → IsInformed (graph_of d) depth m known.rows known.opens x.name x.at kind
        → FindsTold (λ k. variable_in d known.rows known.store k) (told_at d (fresh s i) x known.rows)
        (tracking_uses (numbered x.name d.top))
        → finished_by (numbered x.name d.top)
        (seen_at d (run_of (fresh s i) (facts_of (fresh s i) (name_of d x.name))) x known) i.answers x.at b
        ≡ (source d (fresh s i)).finish x b known.rows }
    ensures close { (d : DefTree) (e : Environment) (m : RowSource) → AnswersAs d e m → (x : Address) (kind : Kind) (depth : ℕ → ℕ)
        (known : KnownTree) (decision : DecisionTree) (n : ℕ) (verdict : Option VerdictTree)
        → Once (graph_of d) → IsInformed (graph_of d) depth m known.rows known.opens x.name x.at kind
        → FindsTold (λ k. variable_in d known.rows known.store k) (told_at d e x known.rows)
        (tracking_uses (numbered x.name d.top))
        → closed_by (numbered x.name d.top) (seen_at d (run_of e (facts_of e (name_of d x.name))) x known)
        x.at decision n verdict known.rows
        ≡ (source d e).close x decision n verdict known.rows }
{
    wf_closing::what_an_action_does_is_local();
    wf_closing::what_a_container_decides_is_local();
    wf_sight::what_is_seen_is_told();
}
