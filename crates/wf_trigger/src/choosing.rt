//! The trigger that starts the runs.
ghost use Rattle.std.specs.Prelude.{◌≡◌, IfOk, IfErr, Ok, Err, map, option_map};
ghost use Rattle.wf_def.specs.DefSeen.{trigger_tree};
ghost use Rattle.wf_trigger.specs.Choosing.{chosen, name_value, trigger_named};
ghost use Rattle.wf_val.specs.Seen.{tree};

use crate::fault::TriggerFault;
use std::alloc::{AllocError, Global};
use wf_def::Trigger;
use wf_val::{Name, Val};

/// The trigger that the inputs name, else the only one, else none.
pub(crate) fn chosen<'a>(
    name: Option<&Name>,
    triggers: &'a [Trigger],
) -> Result<Option<&'a Trigger>, TriggerFault>
    ensures trigger { IfOk result (λ t. chosen (option_map (λ n. n.now) name.entry) (map trigger_tree triggers.now)
        ≡ Ok (option_map (λ t. trigger_tree t.now) t)) }
    ensures fault { IfErr result (λ f. chosen (option_map (λ n. n.now) name.entry) (map trigger_tree triggers.now) ≡ Err f) }
{
    match name {
        Some(name) => match trigger_named(name, triggers) {
            Some(trigger) => Ok(Some(trigger)),
            None => Err(TriggerFault::NoTrigger),
        },
        None => match triggers {
            [] => Ok(None),
            [trigger] => Ok(Some(trigger)),
            _ => Err(TriggerFault::NoTrigger),
        },
    }
}

fn trigger_named<'a>(name: &Name, triggers: &'a [Trigger]) -> Option<&'a Trigger>
    ensures { option_map (λ t. trigger_tree t.now) result ≡ trigger_named name.now (map trigger_tree triggers.now) }
{
    for trigger in triggers {
        if name.order(&trigger.name).is_eq() {
            return Some(trigger);
        }
    }
    None
}

/// Its name as a value; of none null.
pub(crate) fn name_value(alloc: Global, trigger: Option<&Trigger>) -> Result<Val, AllocError>
    ensures { IfOk result (λ v. tree v ≡ name_value (option_map (λ t. trigger_tree t.now) trigger.entry)) }
{
    match trigger {
        Some(trigger) => Ok(Val::Text(trigger.name.copy(alloc)?)),
        None => Ok(Val::Null),
    }
}
