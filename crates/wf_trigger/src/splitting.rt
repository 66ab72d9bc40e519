//! The items of a split, and whether the conditions hold.
ghost use Rattle.std.specs.Prelude.{◌≡◌, ◌≢◌, IfOk, IfErr, Ok, Err, map, option_map, false};
ghost use Rattle.wf_def.specs.DefSeen.{trigger_tree};
ghost use Rattle.wf_template.specs.TemplateSeen.{template_tree};
ghost use Rattle.wf_trigger.specs.Splitting.{all_hold, conditions_in, held, items_in, split_in, split_items};
ghost use Rattle.wf_trigger.specs.LookSeen.{value_seen};
ghost use Rattle.wf_trigger.specs.declared.fault.TriggerFault.TheVariants.{Memory};
ghost use Rattle.wf_val.specs.Seen.{tree};

use crate::fault::TriggerFault;
use crate::look::TriggerLook;
use std::alloc::Global;
use wf_def::Trigger;
use wf_template::Template;
use wf_val::{EvalFault, Fun, Val, Vals, wrong_type};

const MOST_ITEMS: u64 = 100_000;

/// The items that a trigger's outputs are split into by its `splitOn`; none where it has none.
pub(crate) fn split_items(
    alloc: Global,
    split: Option<&Template>,
    look: &TriggerLook,
) -> Result<Option<Vals>, TriggerFault>
    ensures items { IfOk result (λ items. split_items (value_seen look.now) (option_map (λ t. template_tree t.now) split.entry) ≡ Ok items) }
    ensures fault { IfErr result (λ f. f ≢ Memory
        → split_items (value_seen look.now) (option_map (λ t. template_tree t.now) split.entry) ≡ Err f) }
{
    match split {
        None => Ok(None),
        Some(template) => match look.value(alloc, template) {
            Ok(value) => {
                let items = items_in(value)?;
                Ok(Some(items))
            }
            Err(EvalFault::Memory) => Err(TriggerFault::Memory),
            Err(fault) => Err(TriggerFault::Split { fault }),
        },
    }
}

/// The `splitOn` of a trigger.
pub(crate) fn split_in<'a>(trigger: Option<&'a Trigger>) -> Option<&'a Template>
    ensures { option_map (λ t. template_tree t.now) result ≡ split_in (option_map (λ t. trigger_tree t.now) trigger.entry) }
{
    match trigger {
        Some(trigger) => trigger.split.as_ref(),
        None => None,
    }
}

// The items of the value of `splitOn`.
#[tactic(auto, using(wf_val::proofs::ValueTreeLemmas::listed))]
fn items_in(value: Val) -> Result<Vals, TriggerFault>
    ensures items { IfOk result (λ items. items_in (tree value) ≡ Ok items) }
    ensures fault { IfErr result (λ f. items_in (tree value) ≡ Err f) }
{
    match value {
        Val::List(items) => {
            let count = items.len();
            if MOST_ITEMS < count {
                Err(TriggerFault::SplitTooLong { count })
            } else {
                Ok(items)
            }
        }
        _ => Err(TriggerFault::SplitNotList),
    }
}

/// Whether all conditions hold, from left to right up to the first that doesn't.
pub(crate) fn all_hold(
    alloc: Global,
    conditions: &[Template],
    look: &TriggerLook,
) -> Result<bool, TriggerFault>
    ensures holds { IfOk result (λ holds. all_hold (value_seen look.now) (map template_tree conditions.now) ≡ Ok holds) }
    ensures fault { IfErr result (λ f. f ≢ Memory → all_hold (value_seen look.now) (map template_tree conditions.now) ≡ Err f) }
{
    for condition in conditions {
        let holds = holds(alloc, condition, look)?;
        if !holds {
            return Ok(false);
        }
    }
    Ok(true)
}

/// The conditions of a trigger.
pub(crate) fn conditions_in<'a>(trigger: Option<&'a Trigger>) -> &'a [Template]
    ensures { map template_tree result.now ≡ conditions_in (option_map (λ t. trigger_tree t.now) trigger.entry) }
{
    match trigger {
        Some(trigger) => trigger.conditions.as_slice(),
        None => &[],
    }
}

// Whether a condition holds.
fn holds(alloc: Global, condition: &Template, look: &TriggerLook) -> Result<bool, TriggerFault>
    ensures holds { IfOk result (λ holds. held (value_seen look.now (template_tree condition.now)) ≡ Ok holds) }
    ensures fault { IfErr result (λ f. f ≢ Memory → held (value_seen look.now (template_tree condition.now)) ≡ Err f) }
{
    match look.value(alloc, condition) {
        Ok(Val::Bool(holds)) => Ok(holds),
        Ok(_) => {
            let fault = wrong_type(Fun::Condition, 0);
            Err(TriggerFault::Condition { fault })
        }
        Err(EvalFault::Memory) => Err(TriggerFault::Memory),
        Err(fault) => Err(TriggerFault::Condition { fault }),
    }
}
