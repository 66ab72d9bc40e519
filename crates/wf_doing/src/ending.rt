//! The row with which an action ends.
ghost use Rattle.std.specs.Prelude.{◌≡◌, ◌<◌, ◌^◌, [], IfOk, Some, map, nat_lt, option_map};
ghost use Rattle.wf_answers.specs.InputsSeen.{inputs_tree};
ghost use Rattle.wf_asks.specs.Instances.{address_of, rows_in};
ghost use Rattle.wf_closing.specs.Inside.{AreJudged, inside_of};
ghost use Rattle.wf_closing.specs.InsideSeen.{inside_tree};
ghost use Rattle.wf_def.specs.ActionSeen.{action_tree};
ghost use Rattle.wf_def.specs.ActionTree.{ActionTree, action_kind, action_name};
ghost use Rattle.wf_def.specs.AllActions.{numbered};
ghost use Rattle.wf_closing.specs.Done.{view as view_tree};
ghost use Rattle.wf_closing.specs.DoneSeen.{begun_tree, done_tree};
ghost use Rattle.wf_closing.specs.Tracked.{tracked_value, with_own};
ghost use Rattle.wf_closing.specs.Source.{tracked_of};
ghost use Rattle.wf_closing.specs.DecisionSeen.{decision_tree, verdict_tree};
ghost use Rattle.wf_sight.specs.ViewsSeen.{row_content};
ghost use Rattle.wf_sight.specs.Seen.{known_tree};
ghost use Rattle.wf_val.specs.Seen.{tree};
ghost use Rattle.wf_doing.specs.Acting.{attempts_by, closed_by, finished_by, tracked_row};
ghost use Rattle.wf_doing.specs.Seen.{definition_of, seen};

use crate::attempts::{ended, has_try, tries};
use crate::own::Own;
use crate::rows::{unknown_row, without_address};
use crate::setting::{Setting, sight, tracked_of};
use std::alloc::{AllocError, Global};
use wf_asks::{Instance, Known};
use wf_closing::{Begun, Decision, Done, Inside, Verdict, tracked, view};
use wf_def::Action;
use wf_record::{Row, Tries};
use wf_sight::{kind_of, name_of};
use wf_val::{Fields, Val};

// Tracked properties, which see what their action came to.
fn evaluated<'a>(
    alloc: Global,
    setting: &Setting<'a>,
    action: &Action,
    place: &Instance,
    view: Val,
    known: Known<'a, Row, Decision, Verdict>,
) -> Result<Val, AllocError>
    ensures { IfOk result (λ v. tree v ≡ tracked_value (with_own (tree view)
        (seen setting.now (address_of place.now) (known_tree known.entry.rows.now.0 known.entry.opens.now.0 known.entry.store.now.0)))
        (tracked_of (action_tree action.now))) }
{
    let sight = sight(alloc, setting, place, known)?;
    let mut look = Own { sight, view };
    tracked(alloc, tracked_of(action), &mut look)
}

// Most actions have none: then what the action came to isn't copied for them to see.
fn properties<'a>(
    alloc: Global,
    setting: &Setting<'a>,
    action: &Action,
    place: &Instance,
    done: &Done,
    known: Known<'a, Row, Decision, Verdict>,
) -> Result<Val, AllocError>
    ensures { IfOk result (λ v. tree v ≡ tracked_value (with_own (view_tree (action_name (action_tree action.now)) (done_tree done.now))
        (seen setting.now (address_of place.now) (known_tree known.entry.rows.now.0 known.entry.opens.now.0 known.entry.store.now.0)))
        (tracked_of (action_tree action.now))) }
{
    if tracked_of(action).is_empty() {
        return Ok(Val::Obj(Fields::new(alloc)));
    }
    let view = view(alloc, name_of(action), done)?;
    evaluated(alloc, setting, action, place, view, known)
}

fn with_tracked<'a>(
    alloc: Global,
    setting: &Setting<'a>,
    action: &Action,
    place: &Instance,
    done: Done,
    attempts: Tries,
    known: Known<'a, Row, Decision, Verdict>,
) -> Result<Row, AllocError>
    ensures { IfOk result (λ r. row_content r ≡ tracked_row
        (seen setting.now (address_of place.now) (known_tree known.entry.rows.now.0 known.entry.opens.now.0 known.entry.store.now.0))
        (action_tree action.now) (done_tree done) attempts) }
{
    let value = properties(alloc, setting, action, place, &done, known)?;
    Ok(without_address(alloc, done, value, attempts))
}

fn finished<'a>(
    alloc: Global,
    setting: &Setting<'a>,
    action: &Action,
    place: &Instance,
    begun: &Begun,
    known: Known<'a, Row, Decision, Verdict>,
) -> Result<Row, AllocError>
    ensures { IfOk result (λ r. row_content r ≡ finished_by (Some (action_tree action.now))
        (seen setting.now (address_of place.now) (known_tree known.entry.rows.now.0 known.entry.opens.now.0 known.entry.store.now.0))
        (inputs_tree setting.now.inputs.now).answers place.now.at (begun_tree begun.now)) }
{
    let answers = &setting.inputs.answers;
    let done = ended(alloc, begun, answers, name_of(action), &place.at)?;
    let attempts = tries(alloc, begun, answers, name_of(action), &place.at)?;
    with_tracked(alloc, setting, action, place, done, attempts, known)
}

/// The row with which a leaf ends.
pub fn finish<'a>(
    alloc: Global,
    setting: &Setting<'a>,
    place: &Instance,
    begun: &Begun,
    known: Known<'a, Row, Decision, Verdict>,
) -> Result<Row, AllocError>
    ensures { IfOk result (λ r. row_content r ≡ finished_by (numbered place.now.action (definition_of setting.now).top)
        (seen setting.now (address_of place.now) (known_tree known.entry.rows.now.0 known.entry.opens.now.0 known.entry.store.now.0))
        (inputs_tree setting.now.inputs.now).answers place.now.at (begun_tree begun.now)) }
{
    match setting.places.action(place.action) {
        None => unknown_row(alloc),
        Some(action) => finished(alloc, setting, action, place, begun, known),
    }
}

fn closed<'a>(
    alloc: Global,
    setting: &Setting<'a>,
    action: &Action,
    inside: &Inside,
    place: &Instance,
    decision: &Decision,
    count: u64,
    verdict: Option<&Verdict>,
    known: Known<'a, Row, Decision, Verdict>,
) -> Result<Row, AllocError>
    requires inside { inside_tree inside.now ≡ inside_of (action_kind (action_tree action.now)) }
    requires judged { AreJudged (action_kind (action_tree action.now)) }
    requires count { count < 2 ^ 63 }
    ensures { IfOk result (λ r. row_content r ≡ closed_by (Some (action_tree action.now))
        (seen setting.now (address_of place.now) (known_tree known.entry.rows.now.0 known.entry.opens.now.0 known.entry.store.now.0))
        place.now.at (decision_tree decision.now) count (option_map (λ v. verdict_tree v.now) verdict.entry)
        (rows_in row_content known.entry.rows.now.0)) }
{
    let done = wf_closing::close(
        alloc,
        kind_of(action),
        inside,
        &place.at,
        decision,
        count,
        verdict,
        known.rows,
    )?;
    with_tracked(
        alloc,
        setting,
        action,
        place,
        done,
        Tries::new(alloc),
        known,
    )
}

/// The row with which a container closes: by what it found, how many iterations an Until had, and its last test.
pub fn close<'a>(
    alloc: Global,
    setting: &Setting<'a>,
    inside: &Inside,
    place: &Instance,
    decision: &Decision,
    count: u64,
    verdict: Option<&Verdict>,
    known: Known<'a, Row, Decision, Verdict>,
) -> Result<Row, AllocError>
    requires inside { (a : ActionTree) → numbered place.now.action (definition_of setting.now).top ≡ Some a
        → inside_tree inside.now ≡ inside_of (action_kind a) }
    requires judged { (a : ActionTree) → numbered place.now.action (definition_of setting.now).top ≡ Some a → AreJudged (action_kind a) }
    requires count { count < 2 ^ 63 }
    ensures { IfOk result (λ r. row_content r ≡ closed_by (numbered place.now.action (definition_of setting.now).top)
        (seen setting.now (address_of place.now) (known_tree known.entry.rows.now.0 known.entry.opens.now.0 known.entry.store.now.0))
        place.now.at (decision_tree decision.now) count (option_map (λ v. verdict_tree v.now) verdict.entry)
        (rows_in row_content known.entry.rows.now.0)) }
{
    match setting.places.action(place.action) {
        None => unknown_row(alloc),
        Some(action) => closed(
            alloc, setting, action, inside, place, decision, count, verdict, known,
        ),
    }
}

/// Whether a running leaf that made so many attempts makes another.
pub fn makes_another(setting: &Setting<'_>, place: &Instance, begun: &Begun, made: u64) -> bool
    ensures { result ≡ nat_lt made (attempts_by (numbered place.now.action (definition_of setting.now).top)
        (inputs_tree setting.now.inputs.now).answers place.now.at (begun_tree begun.now)) }
{
    match setting.places.action(place.action) {
        None => false,
        Some(action) => has_try(
            begun,
            &setting.inputs.answers,
            name_of(action),
            &place.at,
            made,
        ),
    }
}
