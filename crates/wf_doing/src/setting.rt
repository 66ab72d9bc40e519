//! What the actions of a run go by, and what they see of it.
ghost use Rattle.std.specs.Prelude.{◌≡◌, IfOk, map};
ghost use Rattle.wf_asks.specs.Instances.{address_of};
ghost use Rattle.wf_def.specs.ActionSeen.{action_tree};
ghost use Rattle.wf_closing.specs.Environment.{first_facts};
ghost use Rattle.wf_closing.specs.Source.{tracked_of};
ghost use Rattle.wf_sight.specs.Laws.{run_of};
ghost use Rattle.wf_sight.specs.Seen.{known_tree};
ghost use Rattle.wf_sight.specs.SightSeen.{run_tree, sight_drawn, sight_told};
ghost use Rattle.wf_template.specs.DataSeen.{data_member};
ghost use Rattle.wf_doing.specs.Seen.{environment_of, seen, seen_by_test};

use std::alloc::{AllocError, Global};
use wf_answers::Inputs;
use wf_asks::{Instance, Known};
use wf_closing::{Decision, Start, Verdict};
use wf_def::Action;
use wf_record::Row;
use wf_sight::{Places, Run, Sight};
use wf_template::Tree;
use wf_val::Text;

/// A definition, and a run of it that isn't made from another.
#[derive(Drop)]
pub struct Setting<'a> {
    pub places: &'a Places<'a>,
    pub start: &'a Start,
    pub inputs: &'a Inputs,
}

fn run<'a>(setting: &Setting<'a>) -> Run<'a>
    ensures { run_tree result ≡ run_of (environment_of setting.now) (first_facts (environment_of setting.now)) }
{
    Run {
        start: setting.start,
        name: &setting.start.run,
        seed: &setting.start.seed,
        moment: setting.inputs.moment,
    }
}

/// What an action sees as it starts or ends, and a container as it opens or closes.
pub(crate) fn sight<'a>(
    alloc: Global,
    setting: &Setting<'a>,
    place: &Instance,
    known: Known<'a, Row, Decision, Verdict>,
) -> Result<Sight<'a>, AllocError>
    ensures told { IfOk result (λ s. sight_told s ≡ seen setting.now (address_of place.now)
        (known_tree known.entry.rows.now.0 known.entry.opens.now.0 known.entry.store.now.0)) }
    ensures drawn { IfOk result (λ s. sight_drawn s ≡ 0) }
{
    Sight::at(alloc, setting.places, &run(setting), place, known)
}

/// What the test of an Until sees after the iteration of an index.
pub(crate) fn sight_in_test<'a>(
    alloc: Global,
    setting: &Setting<'a>,
    place: &Instance,
    index: u64,
    known: Known<'a, Row, Decision, Verdict>,
) -> Result<Sight<'a>, AllocError>
    ensures told { IfOk result (λ s. sight_told s ≡ seen_by_test setting.now (address_of place.now) index
        (known_tree known.entry.rows.now.0 known.entry.opens.now.0 known.entry.store.now.0)) }
    ensures drawn { IfOk result (λ s. sight_drawn s ≡ 0) }
{
    Sight::in_test(alloc, setting.places, &run(setting), place, index, known)
}

#[tactic(auto, using(crate::proofs::PartLemmas::tracked_is))]
pub(crate) fn tracked_of(action: &Action) -> &[(Text, Tree)]
    ensures { map data_member result.now ≡ tracked_of (action_tree action.now) }
{
    action.tracked.as_slice()
}
