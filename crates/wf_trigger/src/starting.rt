//! Which runs start.
ghost use Rattle.std.specs.Prelude.{◌≡◌, ◌≢◌, IfOk, IfErr, Ok, Err, map, option_map};
ghost use Rattle.wf_answers.specs.InputsSeen.{inputs_tree};
ghost use Rattle.wf_def.specs.DefSeen.{param_tree, trigger_tree};
ghost use Rattle.wf_trigger.specs.Runs.{runs_of, started, value_in};
ghost use Rattle.wf_trigger.specs.Shared.{kept_outputs};
ghost use Rattle.wf_trigger.specs.StartsSeen.{starts_seen};
ghost use Rattle.wf_trigger.specs.declared.fault.TriggerFault.TheVariants.{Memory};
ghost use Rattle.wf_val.specs.Seen.{tree};

use crate::choosing::{chosen, name_value};
use crate::fault::TriggerFault;
use crate::look::TriggerLook;
use crate::parameters::parameters_of;
use crate::splitting::{all_hold, conditions_in, split_in, split_items};
use crate::starts::{Starts, trigger_value};
use std::alloc::{AllocError, Global};
use wf_answers::Inputs;
use wf_def::{Params, Trigger, Triggers};
use wf_val::{Fields, Text, Val};

/// The runs that start, of a definition's declared parameters, the values that the wrapper round it gives them, its
/// triggers, and inputs. All is evaluated once, before any split.
pub fn runs(
    alloc: Global,
    params: &Params,
    given: &Fields,
    triggers: &Triggers,
    inputs: &Inputs,
) -> Result<Starts, TriggerFault>
    ensures starts { IfOk result (λ s. runs_of (map param_tree params.now) given.now (map trigger_tree triggers.now) (inputs_tree inputs.now)
        ≡ Ok (starts_seen s)) }
    ensures fault { IfErr result (λ f. f ≢ Memory
        → runs_of (map param_tree params.now) given.now (map trigger_tree triggers.now) (inputs_tree inputs.now) ≡ Err f) }
{
    let trigger = chosen(inputs.trigger.as_ref(), triggers.as_slice())?;
    let values = parameters_of(alloc, &inputs.parameters, given, params.as_slice())?;
    let starts = started(alloc, trigger, inputs, values)?;
    Ok(starts)
}

// The runs that a trigger starts with these parameters.
fn started(
    alloc: Global,
    trigger: Option<&Trigger>,
    inputs: &Inputs,
    values: Fields,
) -> Result<Starts, TriggerFault>
    ensures starts { IfOk result (λ s. started
        (value_in (option_map (λ t. trigger_tree t.now) trigger.entry) (inputs_tree inputs.now) values)
        (option_map (λ t. trigger_tree t.now) trigger.entry) (inputs_tree inputs.now) values ≡ Ok (starts_seen s)) }
    ensures fault { IfErr result (λ f. f ≢ Memory → started
        (value_in (option_map (λ t. trigger_tree t.now) trigger.entry) (inputs_tree inputs.now) values)
        (option_map (λ t. trigger_tree t.now) trigger.entry) (inputs_tree inputs.now) values ≡ Err f) }
{
    inputs.outputs.always_well_formed();
    let name = name_value(alloc, trigger)?;
    let seen = trigger_value(alloc, name.copy(alloc)?, inputs.outputs.copy(alloc)?)?;
    let look = TriggerLook {
        trigger: &seen,
        parameters: &values,
        moment: inputs.moment,
        run: &inputs.run,
        seed: &inputs.seed,
    };
    let items = split_items(alloc, split_in(trigger), &look)?;
    let holds = all_hold(alloc, conditions_in(trigger), &look)?;
    let outputs = kept_outputs(alloc, &inputs.outputs, items.is_some())?;
    Ok(Starts {
        run: inputs.run.copy(alloc)?,
        seed: inputs.seed.copy(alloc)?,
        name,
        outputs,
        parameters: values,
        items,
        holds,
    })
}

// What is kept of a trigger's outputs.
fn kept_outputs(alloc: Global, outputs: &Val, is_split: bool) -> Result<Val, AllocError>
    ensures { IfOk result (λ v. tree v ≡ kept_outputs is_split (tree outputs.now)) }
{
    let mut kept = outputs.copy(alloc)?;
    if is_split {
        let _body = kept.remove(&Text::of(alloc, "body")?)?;
    }
    Ok(kept)
}
