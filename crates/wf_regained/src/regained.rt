//! What a resubmission begins with.
ghost use Rattle.std.specs.Prelude.{◌≡◌, ℕ, IfOk, map};
ghost use Rattle.wf_asks.specs.Known.{opens_in, store_in, writer};
ghost use Rattle.wf_def.specs.ActionSeen.{action_tree};
ghost use Rattle.wf_def.specs.AllActions.{all_actions};
ghost use Rattle.wf_turns.specs.Leaf.{BegunTree};
ghost use Rattle.wf_turns.specs.Environment.{Environment};
ghost use Rattle.wf_layers.specs.Address.{Address};
ghost use Rattle.wf_layers.specs.Shape.{HasShape};
ghost use Rattle.wf_layers.specs.Source.{Source};
ghost use Rattle.wf_layers.specs.Variables.{IsLastWritten};
ghost use Rattle.wf_turns.specs.Points.{graph_of};
ghost use Rattle.wf_turns.specs.Resubmitted.{rows_by};
ghost use Rattle.wf_turns.specs.Source.{source};
ghost use Rattle.wf_sight_laws.specs.Tables.{AreWhole};
ghost use Rattle.wf_opening.specs.DecisionSeen.{decision_tree, verdict_tree};
ghost use Rattle.wf_opening.specs.Decisions.{DecisionTree};
ghost use Rattle.wf_opening.specs.Verdicts.{VerdictTree};
ghost use Rattle.wf_turns.specs.ReadSeen.{def_tree};
ghost use Rattle.wf_record.specs.Record as record_of;
ghost use Rattle.wf_record.specs.Seen.{record_tree};
ghost use Rattle.wf_resubmit.specs.Chosen.{MayBeRedone};
ghost use Rattle.wf_sight_laws.specs.Writes.{writes};
ghost use Rattle.wf_turns.specs.Reading.{reading};
ghost use Rattle.wf_sight_laws.specs.Seen.{rows_seen};
ghost use Rattle.wf_regained.specs.First.{first_state};
ghost use Rattle.wf_regained.specs.Last.{AreInLine};

use crate::kept::{kept_numbers, kept_rows};
use crate::last::last_writers;
use crate::reopened::reopened;
use std::alloc::{AllocError, Global};
use wf_asks::{Opens, Rows, Store};
use wf_def::{Action, all_actions};
use wf_opening::{Decision, Verdict};
use wf_record::{Record, Row};
use wf_sight_laws::{Checked, Places};
use wf_val::Schedule;

/// What a resubmission begins with: the rows that are kept, the containers that are closed again, and the last writers among the rows.
#[derive(Drop)]
pub struct Regained {
    pub rows: Rows<Row>,
    pub opens: Opens<Decision, Verdict>,
    pub store: Store,
}

// The rows that are kept.
fn rows_kept(
    alloc: Global,
    places: &Places<'_>,
    checked: &Checked,
    log: &Record,
    from: &[u32],
    actions: &[&Action],
) -> Result<Rows<Row>, AllocError>
    requires placed { places.now ≡ checked.now.def }
    requires all { map (λ a. action_tree a.now) actions.now ≡ all_actions (def_tree checked.now.def).top }
    requires redone { MayBeRedone (graph_of (def_tree checked.now.def)) from.now }
    requires shape { (e : Environment) → HasShape (graph_of (def_tree checked.now.def)) (source (def_tree checked.now.def) e)
        (reading (def_tree checked.now.def)) (rows_by (def_tree checked.now.def) (record_tree log.now).rows) }
    ensures { IfOk result (λ rows. (x : Address) → rows_seen rows.0 x
        ≡ (first_state (def_tree checked.now.def) (record_tree log.now) from.now).rows x) }
{
    checked.def.always_read();
    checked.always_checked();
    wf_redo::a_set_is_redone();
    wf_sight_laws::depths_are_how_many_are_before();
    wf_turns::numbers_are_had();
    wf_turns::numbers_are_below();
    wf_turns::numbers_stand_once();
    wf_turns::entries_stay_in_their_graph();
    wf_turns::read_actions_have_their_numbers();
    wf_turns::names_stand_once();
    let Ok(count) = u32::try_from(actions.len()) else {
        return Err(AllocError);
    };
    let kept = kept_numbers(alloc, &checked.order, from, count)?;
    let rows = kept_rows(alloc, places, &kept, log.rows.as_slice())?;
    Ok(rows)
}

// The containers that are closed again.
fn opens_again(
    alloc: Global,
    checked: &Checked,
    log: &Record,
    from: &[u32],
    actions: &[&Action],
) -> Result<Opens<Decision, Verdict>, AllocError>
    requires all { map (λ a. action_tree a.now) actions.now ≡ all_actions (def_tree checked.now.def).top }
    requires redone { MayBeRedone (graph_of (def_tree checked.now.def)) from.now }
    ensures { IfOk result (λ opens. (x : Address) → opens_in decision_tree verdict_tree opens.0 x
        ≡ (first_state (def_tree checked.now.def) (record_tree log.now) from.now).opens x) }
{
    checked.def.always_read();
    checked.always_checked();
    wf_redo::a_set_is_redone();
    wf_sight_laws::depths_are_how_many_are_before();
    wf_turns::numbers_are_had();
    wf_turns::numbers_are_below();
    wf_turns::numbers_stand_once();
    wf_turns::entries_stay_in_their_graph();
    wf_turns::read_actions_have_their_numbers();
    wf_turns::names_stand_once();
    let opens = reopened(alloc, &checked.order, from, log, actions)?;
    Ok(opens)
}

// Who wrote each variable last.
fn store_of(
    alloc: Global,
    places: &Places<'_>,
    checked: &Checked,
    rows: &Rows<Row>,
) -> Result<Store, AllocError>
    requires placed { places.now ≡ checked.now.def }
    requires in_line { AreInLine (def_tree checked.now.def) (rows_seen rows.now.0) }
    ensures { IfOk result (λ store. (m : Source record_of.Row BegunTree DecisionTree VerdictTree) → (v : ℕ)
        → IsLastWritten (graph_of (def_tree checked.now.def)) m (writer (writes (def_tree checked.now.def)) v) (rows_seen rows.now.0)
        (store_in store.0 v)) }
{
    checked.def.always_read();
    wf_seen_laws::what_is_seen_is_earlier();
    wf_sight_laws::depths_are_how_many_are_before();
    wf_order::order_is_exact();
    wf_order::before_is_an_order();
    wf_turns::numbers_are_had();
    wf_turns::numbers_stand_once();
    wf_turns::numbers_are_below();
    wf_turns::entries_stay_in_their_graph();
    let _count = rows.len();
    let store = last_writers(alloc, checked, places, rows)?;
    Ok(store)
}

/// What a resubmission of a record begins with from the actions of these numbers. Who wrote last doesn't depend on where the answers of the
/// resubmission come from.
pub fn regain(
    alloc: Global,
    places: &Places<'_>,
    checked: &Checked,
    log: &Record,
    from: &Schedule,
) -> Result<Regained, AllocError>
    requires placed { places.now ≡ checked.now.def }
    requires redone { MayBeRedone (graph_of (def_tree checked.now.def)) from.now }
    requires shape { (e : Environment) → HasShape (graph_of (def_tree checked.now.def)) (source (def_tree checked.now.def) e)
        (reading (def_tree checked.now.def)) (rows_by (def_tree checked.now.def) (record_tree log.now).rows) }
    requires whole { AreWhole (def_tree checked.now.def) (rows_by (def_tree checked.now.def) (record_tree log.now).rows) }
    ensures rows { IfOk result (λ g. (x : Address) → rows_seen g.rows.0 x
        ≡ (first_state (def_tree checked.now.def) (record_tree log.now) from.now).rows x) }
    ensures opens { IfOk result (λ g. (x : Address) → opens_in decision_tree verdict_tree g.opens.0 x
        ≡ (first_state (def_tree checked.now.def) (record_tree log.now) from.now).opens x) }
    ensures last { IfOk result (λ g. (m : Source record_of.Row BegunTree DecisionTree VerdictTree) → (v : ℕ)
        → IsLastWritten (graph_of (def_tree checked.now.def)) m (writer (writes (def_tree checked.now.def)) v) (rows_seen g.rows.0)
        (store_in g.store.0 v)) }
{
    checked.def.always_read();
    checked.always_checked();
    wf_sight_laws::a_definition_is_answered();
    wf_sight_laws::numbered_writers_are_in_one_order();
    let actions = all_actions(alloc, &checked.def.top)?;
    let rows = rows_kept(alloc, places, checked, log, from.as_slice(), &actions)?;
    let opens = opens_again(alloc, checked, log, from.as_slice(), &actions)?;
    let store = store_of(alloc, places, checked, &rows)?;
    Ok(Regained { rows, opens, store })
}
