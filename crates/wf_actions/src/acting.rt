//! What the actions of a run do, as the machine asks for it.
ghost use Rattle.std.specs.Prelude.{◌≡◌, ◌<◌, ◌^◌, ℕ, IfOk, option_map};
ghost use Rattle.wf_val.specs.Cut.{cut_u64};
ghost use Rattle.wf_asks.specs.Instances.{address_of};
ghost use Rattle.wf_asks.specs.Known.{is_among};
ghost use Rattle.wf_asks.specs.Statuses.{status_tree};
ghost use Rattle.wf_paying.specs.Inside.{inside_of};
ghost use Rattle.wf_paying.specs.InsideSeen.{inside_tree};
ghost use Rattle.wf_def.specs.ActionSeen.{action_tree};
ghost use Rattle.wf_def.specs.ActionTree.{action_kind};
ghost use Rattle.wf_def.specs.AllActions.{numbered};
ghost use Rattle.wf_paying.specs.Seen as setting;
ghost use Rattle.wf_catalog.specs.DoneSeen.{begun_tree};
ghost use Rattle.wf_layers.specs.Definition.{Leaf};
ghost use Rattle.wf_catalog.specs.Rows as rows;
ghost use Rattle.wf_opening.specs.DecisionSeen.{decision_tree, verdict_tree};
ghost use Rattle.wf_paying.specs.Paying.{cost_of_row};
ghost use Rattle.wf_catalog.specs.ReadSeen.{def_tree};
ghost use Rattle.wf_sight_laws.specs.Seen.{row_content};
ghost use Rattle.wf_actions.specs.Asked.{Informed, InformedInside, InformedToOpen, InformedToTest, IsAnew, Last, close_of, decision_of};
ghost use Rattle.wf_actions.specs.Asked.{finish_of, halt_of, start_of, test_of, tries_another};
ghost use Rattle.wf_actions.specs.Meant.{definition_of, environment_of, inside_by, source, writes};

use crate::actions::Actions;
use crate::opened::are_answered;
use std::alloc::{AllocError, Global};
use wf_asks::{Instance, Known};
use wf_catalog::{Begun, Places};
use wf_def::Action;
use wf_opening::{Decision, Verdict};
use wf_paying::{Inside, Setting};
use wf_record::{Row, Status};
use wf_val::Text;

/// What a run of them goes by.
pub(crate) fn setting<'a>(actions: &Actions<'a>) -> Setting<'a>
    ensures definition { setting.definition_of result ≡ definition_of actions.now }
    ensures environment { setting.environment_of result ≡ environment_of actions.now }
{
    Setting {
        places: &actions.ready.places,
        start: actions.start,
        inputs: actions.inputs,
    }
}

/// What a leaf has from its start on.
pub(crate) fn start(
    alloc: Global,
    actions: &Actions<'_>,
    place: &Instance,
    known: Known<'_, Row, Decision, Verdict>,
) -> Result<Begun, AllocError>
    requires informed { Informed actions.now known.rows.now.0 known.opens.now.0 Leaf place.now }
    requires last { Last actions.now known.rows.now.0 known.opens.now.0 known.store.now.0 Leaf place.now }
    ensures { IfOk result (λ b. begun_tree b ≡ start_of actions.now place.now known.entry.rows.now.0) }
{
    are_answered(actions);
    actions.ready.checked.def.always_read();
    actions.ready.checked.always_checked();
    wf_sight_laws::what_is_done_in_a_sight_is_meant();
    wf_paying::start(alloc, &setting(actions), place, known)
}

/// Whether a running leaf that made so many attempts makes another.
pub(crate) fn has_try(actions: &Actions<'_>, place: &Instance, begun: &Begun, made: u64) -> bool
    ensures { result ≡ tries_another actions.now place.now (begun_tree begun.now) made }
{
    are_answered(actions);
    wf_paying::what_is_done_is_the_source();
    wf_paying::makes_another(&setting(actions), place, begun, made)
}

/// The row with which a leaf ends.
pub(crate) fn finish(
    alloc: Global,
    actions: &Actions<'_>,
    place: &Instance,
    begun: &Begun,
    known: Known<'_, Row, Decision, Verdict>,
) -> Result<Row, AllocError>
    requires informed { Informed actions.now known.rows.now.0 known.opens.now.0 Leaf place.now }
    ensures { IfOk result (λ r. row_content r ≡ finish_of actions.now place.now (begun_tree begun.now) known.entry.rows.now.0) }
{
    are_answered(actions);
    actions.ready.checked.def.always_read();
    actions.ready.checked.always_checked();
    wf_sight_laws::what_is_done_in_a_sight_is_meant();
    wf_paying::what_is_done_is_the_source();
    wf_paying::finish(alloc, &setting(actions), place, begun, known)
}

// The row of an action of a number that doesn't run.
fn skipped_row(alloc: Global, places: &Places<'_>, place: &Instance) -> Result<Row, AllocError>
    ensures { IfOk result (λ r. row_content r ≡ rows.skipped) }
{
    match places.action(place.action) {
        Some(action) => wf_paying::skipped(alloc, &action.name, &place.at),
        None => wf_paying::skipped(alloc, &Text::of(alloc, "")?, &place.at),
    }
}

/// The row of an action that doesn't run.
pub(crate) fn skipped(
    alloc: Global,
    actions: &Actions<'_>,
    place: &Instance,
) -> Result<Row, AllocError>
    ensures { IfOk result (λ r. row_content r ≡ (source actions.now).skipped) }
{
    are_answered(actions);
    skipped_row(alloc, &actions.ready.places, place)
}

/// What a container finds as it opens.
pub(crate) fn decide(
    alloc: Global,
    actions: &Actions<'_>,
    place: &Instance,
    known: Known<'_, Row, Decision, Verdict>,
) -> Result<Decision, AllocError>
    requires informed { InformedToOpen actions.now known.rows.now.0 known.opens.now.0 known.store.now.0 place.now }
    requires anew { IsAnew actions.now place.now }
    ensures { IfOk result (λ d. decision_tree d ≡ decision_of actions.now place.now known.entry.rows.now.0) }
{
    are_answered(actions);
    actions.ready.checked.def.always_read();
    actions.ready.checked.always_checked();
    wf_catalog::numbers_stand_once();
    wf_sight_laws::what_is_done_in_a_sight_is_meant();
    wf_paying::decide(alloc, &setting(actions), place, known)
}

/// What the test of an Until gives after the iteration of an index.
pub(crate) fn test(
    alloc: Global,
    actions: &Actions<'_>,
    place: &Instance,
    index: u64,
    known: Known<'_, Row, Decision, Verdict>,
) -> Result<Verdict, AllocError>
    requires informed { InformedToTest actions.now known.rows.now.0 known.opens.now.0 known.store.now.0 place.now index }
    ensures { IfOk result (λ v. verdict_tree v ≡ test_of actions.now place.now index known.entry.rows.now.0) }
{
    are_answered(actions);
    actions.ready.checked.def.always_read();
    actions.ready.checked.always_checked();
    wf_catalog::numbers_stand_once();
    wf_sight_laws::what_is_done_in_a_sight_is_meant();
    wf_paying::what_is_done_is_the_source();
    wf_paying::test_until(alloc, &setting(actions), place, index, known)
}

// What closing asks of a container.
fn inside(alloc: Global, places: &Places<'_>, number: u32) -> Result<Inside, AllocError>
    ensures { IfOk result (λ i. inside_tree i ≡ inside_by (numbered number (def_tree places.now).top)) }
{
    match places.action(number) {
        Some(action) => inside_action(alloc, action),
        None => Ok(Inside {
            graphs: Vec::new(alloc),
            terminates: Vec::new(alloc),
        }),
    }
}

#[tactic(auto, using(wf_catalog::proofs::PlaceLemmas::kind_is))]
fn inside_action(alloc: Global, action: &Action) -> Result<Inside, AllocError>
    ensures { IfOk result (λ i. inside_tree i ≡ inside_of (action_kind (action_tree action.now))) }
{
    Inside::of(alloc, &action.kind)
}

/// The row with which a container closes.
pub(crate) fn close(
    alloc: Global,
    actions: &Actions<'_>,
    place: &Instance,
    decision: &Decision,
    count: u64,
    test: Option<&Verdict>,
    known: Known<'_, Row, Decision, Verdict>,
) -> Result<Row, AllocError>
    requires informed { InformedInside actions.now known.rows.now.0 known.opens.now.0 place.now }
    requires count { count < 2 ^ 63 }
    ensures { IfOk result (λ r. row_content r ≡ close_of actions.now place.now (decision_tree decision.now) count
        (option_map (λ v. verdict_tree v.now) test.entry) known.entry.rows.now.0) }
{
    are_answered(actions);
    actions.ready.checked.def.always_read();
    actions.ready.checked.always_checked();
    wf_catalog::numbers_stand_once();
    wf_sight_laws::what_is_done_in_a_sight_is_meant();
    wf_paying::what_is_done_is_the_source();
    wf_paying::containers_are_judged();
    let inside = inside(alloc, &actions.ready.places, place.action)?;
    wf_paying::close(
        alloc,
        &setting(actions),
        &inside,
        place,
        decision,
        count,
        test,
        known,
    )
}

/// The number of the branch that a decision means, counted from 1; another number means none.
pub(crate) fn taken(actions: &Actions<'_>, decision: &Decision) -> u64
    ensures { result ≡ (source actions.now).taken (decision_tree decision.now) }
{
    are_answered(actions);
    wf_opening::taken(decision)
}

/// How many iterations of a Foreach a decision means.
pub(crate) fn items(actions: &Actions<'_>, decision: &Decision) -> u64
    ensures { result ≡ (source actions.now).items (decision_tree decision.now) }
{
    are_answered(actions);
    wf_opening::items_of(decision)
}

/// Whether a test ends its loop.
pub(crate) fn ends(actions: &Actions<'_>, verdict: &Verdict) -> bool
    ensures { result ≡ (source actions.now).ends (verdict_tree verdict.now) }
{
    are_answered(actions);
    wf_opening::ends(verdict)
}

/// How an action ended whose row this is.
pub(crate) fn status(actions: &Actions<'_>, row: &Row) -> Status
    ensures { status_tree result ≡ (source actions.now).status (row_content row.now) }
{
    are_answered(actions);
    row.status
}

/// What a row adds to the cost of its run; at most the greatest u64.
pub(crate) fn row_cost(row: &Row) -> u64
    ensures { result ≡ cut_u64 (cost_of_row (row_content row.now)) }
{
    wf_record::row_cost(row)
}

/// Whether something beside its `runAfter` keeps an action from running.
pub(crate) fn halts(
    actions: &Actions<'_>,
    place: &Instance,
    known: Known<'_, Row, Decision, Verdict>,
) -> bool
    ensures { result ≡ halt_of actions.now place.now known.entry.rows.now.0 }
{
    are_answered(actions);
    wf_paying::terminates_halt();
    actions.ready.checked.always_checked();
    wf_paying::halts(
        &actions.ready.checked.order,
        &actions.ready.terminates,
        place.action,
        known.rows,
    )
}

/// The variables to which a row gives values.
pub(crate) fn written<'s>(actions: &'s Actions<'_>, place: &Instance, row: &Row) -> &'s [u32]
    ensures { (v : ℕ) → is_among v result.now ≡ writes actions.now v (address_of place.now) (row_content row.now) }
{
    if place.at.len() != actions.ready.places.loops(place.action).len() as u64 {
        return &[];
    }
    match row.status {
        Status::Succeeded => actions.ready.places.written(place.action),
        _ => &[],
    }
}
