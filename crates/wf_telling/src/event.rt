//! What is told of an event.
ghost use Rattle.std.specs.Prelude.{◌≡◌, IfOk, option_map};
ghost use Rattle.wf_answers.specs.InputsSeen.{inputs_tree};
ghost use Rattle.wf_def.specs.ActionSeen.{action_tree};
ghost use Rattle.wf_def.specs.AllActions.{numbered};
ghost use Rattle.wf_trace.specs.DoneSeen.{begun_tree};
ghost use Rattle.wf_trace.specs.DecisionSeen.{decision_tree, verdict_tree};
ghost use Rattle.wf_asks.specs.Known.{open_tree};
ghost use Rattle.wf_tables.specs.Tables.{event_tree, leaf_tree};
ghost use Rattle.wf_doing.specs.ViewsSeen.{row_content};
ghost use Rattle.wf_doing.specs.Seen.{definition_of, environment_of};
ghost use Rattle.wf_telling.specs.Lines.{action_line, line_by};
ghost use Rattle.wf_telling.specs.Telling.{IsTold};

use crate::containers::{begin, close, open, test};
use crate::leaves::{attempt, end, start};
use std::alloc::{AllocError, Global};
use wf_asks::OpenAt;
use wf_def::Action;
use wf_doing::{Setting, kind_of, name_of};
use wf_record::Row;
use wf_tables::{EventAt, EventKind, LeafAt};
use wf_trace::{Begun, Decision, Verdict, skip_line};

// Of an event of this action.
fn action_line(
    alloc: Global,
    setting: &Setting<'_>,
    action: &Action,
    event: &EventAt,
    row: Option<&Row>,
    leaf: Option<&LeafAt<Begun>>,
    container: Option<&OpenAt<Decision, Verdict>>,
) -> Result<Vec<u8>, AllocError>
    ensures { IfOk result (λ line. line.items
        ≡ action_line (inputs_tree setting.now.inputs.now).answers (action_tree action.now) (event_tree event.now)
        (option_map (λ r. row_content r.now) row.entry) (option_map (λ l. leaf_tree begun_tree l.now) leaf.entry)
        (option_map (λ o. open_tree decision_tree verdict_tree o.now) container.entry)) }
{
    let name = name_of(action);
    let at = &event.instance.at;
    match event.kind {
        EventKind::Start => start(alloc, name, at, leaf),
        EventKind::Try => attempt(alloc, &setting.inputs.answers, name, at, leaf),
        EventKind::End => end(alloc, name, at, row),
        EventKind::Skip => skip_line(alloc, name, at),
        EventKind::Open => open(alloc, name, at, kind_of(action), container),
        EventKind::Begin => begin(alloc, name, at, container),
        EventKind::Test => test(alloc, name, at, container),
        EventKind::Close => close(alloc, name, at, row),
    }
}

fn line(
    alloc: Global,
    setting: &Setting<'_>,
    event: &EventAt,
    row: Option<&Row>,
    leaf: Option<&LeafAt<Begun>>,
    container: Option<&OpenAt<Decision, Verdict>>,
) -> Result<Vec<u8>, AllocError>
    ensures { IfOk result (λ line. line.items ≡ line_by (inputs_tree setting.now.inputs.now).answers
        (numbered event.now.instance.action (definition_of setting.now).top) (event_tree event.now)
        (option_map (λ r. row_content r.now) row.entry) (option_map (λ l. leaf_tree begun_tree l.now) leaf.entry)
        (option_map (λ o. open_tree decision_tree verdict_tree o.now) container.entry)) }
{
    match setting.places.action(event.instance.action) {
        Some(action) => action_line(alloc, setting, action, event, row, leaf, container),
        None => Ok(Vec::new(alloc)),
    }
}

/// What is told of an event that has just happened, by what stands at its instance now: what the definition means to be told of the event
/// of its number, where that is what stands there.
pub fn tell(
    alloc: Global,
    setting: &Setting<'_>,
    event: &EventAt,
    row: Option<&Row>,
    leaf: Option<&LeafAt<Begun>>,
    container: Option<&OpenAt<Decision, Verdict>>,
) -> Result<Vec<u8>, AllocError>
    ensures { IfOk result (λ line. IsTold (definition_of setting.now) (environment_of setting.now)
        (option_map (λ r. row_content r.now) row.entry) (option_map (λ l. leaf_tree begun_tree l.now) leaf.entry)
        (option_map (λ o. open_tree decision_tree verdict_tree o.now) container.entry) (event_tree event.now) line.items) }
{
    let line = line(alloc, setting, event, row, leaf, container)?;
    Ok(line)
}
