//! Counts, as an action gets its row.
ghost use Rattle.std.specs.Prelude.{◌≡◌, ◌≤◌, ◌+◌, ◌-◌, ◌&&◌, cond};
ghost use Rattle.wf_layers.specs.Address.{Address, same_at};
ghost use Rattle.wf_tables.specs.Counted.{less};
ghost use Rattle.wf_tables.specs.Known.{is_among, opens_in};
ghost use Rattle.wf_tables.specs.Once.{AreDistinct};
ghost use Rattle.wf_tables.specs.PlanSeen.{list_at, plan_tree};
ghost use Rattle.wf_events.specs.Round.{is_finished, is_graph, puts};
ghost use Rattle.wf_tables.specs.Tables.{count_in, left_in};

use crate::round::Round;
use wf_room::Roomy;
use wf_tables::{CountAt, Instance, Opens, Plan, lack_less, lower};

// What the graph round an action lacks, and the iterations that its Foreach has unfinished. The graph is given back.
fn count_round<D: Drop, V: Drop>(
    lacks: &mut Roomy<CountAt>,
    opens: &mut Opens<D, V>,
    round: Option<Round>,
) -> Option<Round>
    requires { puts round ≤ opens.old.1 }
    ensures lacks { (x : Address) → count_in lacks.new.0 x
        ≡ cond (is_graph round x) (less 1 (count_in lacks.old.0 x)) (count_in lacks.old.0 x) }
    ensures left { (x : Address) → left_in opens.new.0 x
        ≡ cond (is_finished round (count_in lacks.new.0) x) (left_in opens.old.0 x - 1) (left_in opens.old.0 x) }
    ensures opens { opens_in (λ d. d) (λ v. v) opens.new.0 ≡ opens_in (λ d. d) (λ v. v) opens.old.0 }
    ensures room { opens.old.1 ≤ opens.new.1 + 1 }
    ensures round { result ≡ round }
{
    match round {
        Some(round) => {
            let graph = lack_less(lacks, opens, round.graph, &round.container, round.is_turn);
            Some(Round {
                graph,
                container: round.container,
                is_turn: round.is_turn,
            })
        }
        None => None,
    }
}

/// An action gets its row: those that name it wait for one less, the graph round it lacks one less, and where that lacks none any more and
/// is an iteration of a Foreach, that has one unfinished iteration less. The graph is given back. No memory is taken.
pub fn count_row<D: Drop, V: Drop>(
    plan: &Plan,
    waits: &mut Roomy<CountAt>,
    lacks: &mut Roomy<CountAt>,
    opens: &mut Opens<D, V>,
    place: Instance,
    round: Option<Round>,
) -> Option<Round>
    requires followers { AreDistinct (list_at (plan_tree plan.now).followers place.action) }
    requires room { puts round ≤ opens.old.1 }
    ensures waits { (x : Address) → count_in waits.new.0 x
        ≡ cond (is_among x.name (list_at (plan_tree plan.now).followers place.action) && same_at place.at x.at)
        (less 1 (count_in waits.old.0 x)) (count_in waits.old.0 x) }
    ensures lacks { (x : Address) → count_in lacks.new.0 x
        ≡ cond (is_graph round x) (less 1 (count_in lacks.old.0 x)) (count_in lacks.old.0 x) }
    ensures left { (x : Address) → left_in opens.new.0 x
        ≡ cond (is_finished round (count_in lacks.new.0) x) (left_in opens.old.0 x - 1) (left_in opens.old.0 x) }
    ensures opens { opens_in (λ d. d) (λ v. v) opens.new.0 ≡ opens_in (λ d. d) (λ v. v) opens.old.0 }
    ensures room { opens.old.1 ≤ opens.new.1 + 1 }
    ensures round { result ≡ round }
{
    let _lowered = lower(waits, plan.followers(place.action), place);
    count_round(lacks, opens, round)
}
