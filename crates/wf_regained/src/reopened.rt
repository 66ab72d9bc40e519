//! The containers that are closed again.
ghost use Rattle.std.specs.Prelude.{◌≡◌, IfOk, OnOk, Ok, Some, None, [], cond, map};
ghost use Rattle.wf_asks.specs.Known.{opens_in};
ghost use Rattle.wf_def.specs.ActionSeen.{action_tree, kind_tree};
ghost use Rattle.wf_def.specs.ActionTree.{CaseTrees, action_number};
ghost use Rattle.wf_layers.specs.Address as layers;
ghost use Rattle.wf_layers.specs.Address.{is_own};
ghost use Rattle.wf_turns.specs.Resubmitted.{said};
ghost use Rattle.wf_opening.specs.DecisionSeen.{decision_tree, verdict_tree};
ghost use Rattle.wf_opening.specs.Decisions.{chosen_as, held_as, taken};
ghost use Rattle.wf_order.specs.OrderSeen.{order_tree};
ghost use Rattle.wf_record.specs.Seen.{record_tree, row_tree};
ghost use Rattle.wf_redo.specs.Sets.{again_any};
ghost use Rattle.wf_regained.specs.Reopened.{recalled_by, reopened_with, with_all_reopened, with_reopened};
ghost use Rattle.wf_val.specs.Seen.{tree};

use std::alloc::{AllocError, Global};
use wf_asks::{Instance, OpenAt, Opens};
use wf_def::{Action, Kind};
use wf_opening::{Decision, Verdict};
use wf_order::Order;
use wf_record::{Record, Row};
use wf_redo::again_any;
use wf_sight_laws::{kind_of, name_of, number_of};
use wf_turns::branch_said;
use wf_val::{Address, Fun, Indexes, Val, wrong_type};

fn held(value: &Val) -> Decision
    ensures { decision_tree result ≡ held_as (Ok (tree value.now)) }
{
    match value {
        Val::Bool(holds) => Decision::Held(*holds),
        _ => Decision::Faulty(wrong_type(Fun::Condition, 0)),
    }
}

// A Switch decides so where this is the branch of the value.
fn chosen(alloc: Global, value: &Val, branch: u64) -> Result<Decision, AllocError>
    ensures { IfOk result (λ d. (cases : CaseTrees) → branch ≡ taken (chosen_as cases (Ok (tree value.now)))
        → decision_tree d ≡ chosen_as cases (Ok (tree value.now))) }
{
    match value {
        Val::Text(_) | Val::Int(_) => Ok(Decision::Chosen {
            value: value.copy(alloc)?,
            branch,
        }),
        _ => Ok(Decision::Faulty(wrong_type(Fun::Switch, 0))),
    }
}

// What the row of a container says that it decided.
fn said(alloc: Global, kind: &Kind, row: &Row) -> Result<Decision, AllocError>
    ensures { IfOk result (λ d. decision_tree d ≡ said (kind_tree kind.now) (row_tree row.now).row) }
{
    match kind {
        Kind::If {
            test: _,
            yes: _,
            no: _,
        } => Ok(held(&row.inputs)),
        Kind::Switch {
            on: _,
            cases: _,
            default,
        } => match default {
            Some(_) => chosen(alloc, &row.inputs, branch_said(kind, row)),
            None => chosen(alloc, &row.inputs, branch_said(kind, row)),
        },
        _ => Ok(Decision::Nothing),
    }
}

// What the row of an action that stands in no loop says that it decided.
fn recalled(alloc: Global, log: &Record, action: &Action) -> Result<Decision, AllocError>
    ensures { IfOk result (λ d. decision_tree d ≡ recalled_by (record_tree log.now).rows (action_tree action.now)) }
{
    let address = Address {
        name: name_of(action).copy(alloc)?,
        at: Indexes::new(alloc),
    };
    match log.row(&address) {
        Some(row) => said(alloc, kind_of(action), row),
        None => Ok(Decision::Nothing),
    }
}

// Opens a container that stands in no loop, with what its row says that it decided.
fn open_again(
    alloc: Global,
    log: &Record,
    opens: &mut Opens<Decision, Verdict>,
    action: &Action,
) -> Result<(), AllocError>
    ensures { OnOk result ((x : layers.Address) → opens_in decision_tree verdict_tree opens.new.0 x
        ≡ cond (is_own (action_number (action_tree action.now)) [] x)
        (Some (reopened_with (recalled_by (record_tree log.now).rows (action_tree action.now))))
        (opens_in decision_tree verdict_tree opens.old.0 x)) }
{
    let decision = recalled(alloc, log, action)?;
    opens.make_room(1)?;
    opens.put(OpenAt {
        instance: Instance {
            action: number_of(action),
            at: Indexes::new(alloc),
        },
        decision,
        next: 0,
        test: None,
        unfinished: 0,
    });
    Ok(())
}

// Opens an action where it is one that is closed again.
fn add_open(
    alloc: Global,
    order: &Order,
    from: &[u32],
    log: &Record,
    opens: &mut Opens<Decision, Verdict>,
    action: &Action,
) -> Result<(), AllocError>
    ensures { OnOk result ((x : layers.Address) → opens_in decision_tree verdict_tree opens.new.0 x
        ≡ with_reopened (record_tree log.now).rows (again_any (order_tree order.now) from.now)
        (opens_in decision_tree verdict_tree opens.old.0) (action_tree action.now) x) }
{
    if again_any(order, from, number_of(action)) {
        open_again(alloc, log, opens, action)?;
    }
    Ok(())
}

/// An open container for each action that is closed again where the actions of a set are resubmitted, with what its row says that it had
/// decided.
pub(crate) fn reopened(
    alloc: Global,
    order: &Order,
    from: &[u32],
    log: &Record,
    actions: &[&Action],
) -> Result<Opens<Decision, Verdict>, AllocError>
    ensures { IfOk result (λ opens. (x : layers.Address) → opens_in decision_tree verdict_tree opens.0 x
        ≡ with_all_reopened (record_tree log.now).rows (again_any (order_tree order.now) from.now) (λ y. None)
        (map (λ a. action_tree a.now) actions.now) x) }
{
    let mut opens = Opens::new(alloc);
    for action in actions {
        add_open(alloc, order, from, log, &mut opens, action)?;
    }
    Ok(opens)
}
