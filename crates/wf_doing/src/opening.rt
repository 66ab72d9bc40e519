//! What an action does as it starts, a container as it opens, and an Until as it is tested.
ghost use Rattle.std.specs.Prelude.{◌≡◌, IfOk};
ghost use Rattle.wf_asks.specs.Instances.{address_of};
ghost use Rattle.wf_def.specs.ActionSeen.{action_tree, kind_tree};
ghost use Rattle.wf_def.specs.ActionTree.{action_kind};
ghost use Rattle.wf_def.specs.AllActions.{numbered};
ghost use Rattle.wf_closing.specs.DoneSeen.{begun_tree};
ghost use Rattle.wf_closing.specs.Leaf.{begun};
ghost use Rattle.wf_closing.specs.Containers.{tested};
ghost use Rattle.wf_closing.specs.Look.{decided_by};
ghost use Rattle.wf_closing.specs.DecisionSeen.{decision_tree, verdict_tree};
ghost use Rattle.wf_closing.specs.Decisions.{decided};
ghost use Rattle.wf_sight.specs.Seen.{known_tree};
ghost use Rattle.wf_sight.specs.SightSeen.{sight_drawn, sight_told};
ghost use Rattle.wf_doing.specs.Acting.{begun_by, tested_by};
ghost use Rattle.wf_doing.specs.Seen.{definition_of, seen, seen_by_test};

use crate::rows::unknown;
use crate::setting::{Setting, sight, sight_in_test};
use std::alloc::{AllocError, Global};
use wf_asks::{Instance, Known};
use wf_closing::{Begun, Decision, Verdict, begin, open, test};
use wf_def::{Action, Kind};
use wf_record::Row;
use wf_sight::{Sight, kind_of};

fn begun<'a>(
    alloc: Global,
    setting: &Setting<'a>,
    action: &Action,
    place: &Instance,
    known: Known<'a, Row, Decision, Verdict>,
) -> Result<Begun, AllocError>
    ensures { IfOk result (λ b. begun_tree b ≡ begun
        (seen setting.now (address_of place.now) (known_tree known.entry.rows.now.0 known.entry.opens.now.0 known.entry.store.now.0))
        (action_kind (action_tree action.now))) }
{
    let mut sight = sight(alloc, setting, place, known)?;
    begin(alloc, kind_of(action), &mut sight)
}

/// What a leaf has from its start on.
pub fn start<'a>(
    alloc: Global,
    setting: &Setting<'a>,
    place: &Instance,
    known: Known<'a, Row, Decision, Verdict>,
) -> Result<Begun, AllocError>
    ensures { IfOk result (λ b. begun_tree b ≡ begun_by (numbered place.now.action (definition_of setting.now).top)
        (seen setting.now (address_of place.now) (known_tree known.entry.rows.now.0 known.entry.opens.now.0 known.entry.store.now.0))) }
{
    match setting.places.action(place.action) {
        None => Ok(Begun::Acted(unknown(alloc)?)),
        Some(action) => begun(alloc, setting, action, place, known),
    }
}

fn decided<'a>(
    alloc: Global,
    setting: &Setting<'a>,
    action: &Action,
    place: &Instance,
    known: Known<'a, Row, Decision, Verdict>,
) -> Result<Decision, AllocError>
    ensures { IfOk result (λ d. decision_tree d ≡ decided
        (seen setting.now (address_of place.now) (known_tree known.entry.rows.now.0 known.entry.opens.now.0 known.entry.store.now.0))
        (action_kind (action_tree action.now))) }
{
    let mut sight = sight(alloc, setting, place, known)?;
    open(alloc, kind_of(action), &mut sight)
}

/// What a container finds as it opens.
pub fn decide<'a>(
    alloc: Global,
    setting: &Setting<'a>,
    place: &Instance,
    known: Known<'a, Row, Decision, Verdict>,
) -> Result<Decision, AllocError>
    ensures { IfOk result (λ d. decision_tree d ≡ decided_by (numbered place.now.action (definition_of setting.now).top)
        (seen setting.now (address_of place.now) (known_tree known.entry.rows.now.0 known.entry.opens.now.0 known.entry.store.now.0))) }
{
    match setting.places.action(place.action) {
        None => Ok(Decision::Nothing),
        Some(action) => decided(alloc, setting, action, place, known),
    }
}

// The test of an Until in what it sees, where no word is drawn yet.
fn tested_in(alloc: Global, kind: &Kind, sight: &mut Sight<'_>) -> Result<Verdict, AllocError>
    requires { sight_drawn sight.now ≡ 0 }
    ensures { IfOk result (λ v. verdict_tree v ≡ tested (sight_told sight.old) (kind_tree kind.now)) }
{
    match kind {
        Kind::Until {
            test: condition,
            count: _,
            fails: _,
            graph: _,
        } => test(alloc, condition, sight),
        _ => Ok(Verdict::Met(true)),
    }
}

fn tested<'a>(
    alloc: Global,
    setting: &Setting<'a>,
    action: &Action,
    place: &Instance,
    index: u64,
    known: Known<'a, Row, Decision, Verdict>,
) -> Result<Verdict, AllocError>
    ensures { IfOk result (λ v. verdict_tree v ≡ tested
        (seen_by_test setting.now (address_of place.now) index
        (known_tree known.entry.rows.now.0 known.entry.opens.now.0 known.entry.store.now.0))
        (action_kind (action_tree action.now))) }
{
    let mut sight = sight_in_test(alloc, setting, place, index, known)?;
    tested_in(alloc, kind_of(action), &mut sight)
}

/// What the test of an Until gives after the iteration of an index.
pub fn test_until<'a>(
    alloc: Global,
    setting: &Setting<'a>,
    place: &Instance,
    index: u64,
    known: Known<'a, Row, Decision, Verdict>,
) -> Result<Verdict, AllocError>
    ensures { IfOk result (λ v. verdict_tree v ≡ tested_by (numbered place.now.action (definition_of setting.now).top)
        (seen_by_test setting.now (address_of place.now) index
        (known_tree known.entry.rows.now.0 known.entry.opens.now.0 known.entry.store.now.0))) }
{
    match setting.places.action(place.action) {
        None => Ok(Verdict::Met(true)),
        Some(action) => tested(alloc, setting, action, place, index, known),
    }
}
