//! The values of the declared parameters.
ghost use Rattle.std.specs.List.{list_any};
ghost use Rattle.std.specs.Ordering.{is_eq};
ghost use Rattle.std.specs.Prelude.{◌≡◌, ◌≢◌, IfOk, IfErr, Ok, Err, map, option_map};
ghost use Rattle.wf_def.specs.DefSeen.{param_tree};
ghost use Rattle.wf_trigger.specs.Parameters.{fails, first_failing, given_value, is_barred, parameters_of, values_of, with_value};
ghost use Rattle.wf_trigger.specs.declared.fault.TriggerFault.TheVariants.{Memory};
ghost use Rattle.wf_val.specs.Seen.{tree};
ghost use Rattle.wf_val.specs.ValueOrder.{order};

use crate::fault::TriggerFault;
use std::alloc::{AllocError, Global};
use wf_def::Param;
use wf_val::{Fields, Name, Val, Vals};

/// What is asked of a parameter's value.
#[derive(Clone, Copy, PartialEq, Eq)]
pub(crate) enum Want {
    /// That there is one.
    Value,
    /// That it is of the declared type.
    Type,
    /// That it is allowed.
    Allowed,
}

/// The values of the declared parameters, from the inputs, else from the wrapper round the definition, else the
/// defaults. What is asked of all is asked in the order of `Want`.
pub(crate) fn parameters_of(
    alloc: Global,
    handed: &Fields,
    given: &Fields,
    params: &[Param],
) -> Result<Fields, TriggerFault>
    ensures values { IfOk result (λ values. parameters_of handed.now given.now (map param_tree params.now) ≡ Ok values) }
    ensures fault { IfErr result (λ f. f ≢ Memory → parameters_of handed.now given.now (map param_tree params.now) ≡ Err f) }
{
    if let Some(name) = first_failing(Want::Value, handed, given, params) {
        let name = name.copy(alloc)?;
        return Err(TriggerFault::NoParameter { name });
    }
    if let Some(name) = first_failing(Want::Type, handed, given, params) {
        let name = name.copy(alloc)?;
        return Err(TriggerFault::ParameterType { name });
    }
    if let Some(name) = first_failing(Want::Allowed, handed, given, params) {
        let name = name.copy(alloc)?;
        return Err(TriggerFault::NotAllowed { name });
    }
    let values = values_of(alloc, handed, given, params)?.shared(alloc)?;
    Ok(values)
}

// The name of the first parameter that fails.
fn first_failing<'a>(
    want: Want,
    handed: &Fields,
    given: &Fields,
    params: &'a [Param],
) -> Option<&'a Name>
    ensures { option_map (λ name. name.now) result ≡ first_failing handed.now given.now want (map param_tree params.now) }
{
    for param in params {
        if want.fails(param, given_value(handed, given, param)) {
            return Some(&param.name);
        }
    }
    None
}

impl Want {
    fn fails(self, param: &Param, value: Option<&Val>) -> bool
        ensures { result ≡ fails self (param_tree param.now) (option_map (λ v. tree v.now) value.entry) }
    {
        match (self, value) {
            (Want::Value, value) => value.is_none(),
            (_, None) => false,
            (Want::Type, Some(value)) => !param.sort.has(value),
            (Want::Allowed, Some(value)) => is_barred(param.allowed.as_ref(), value),
        }
    }
}

fn is_barred(allowed: Option<&Vals>, value: &Val) -> bool
    ensures { result ≡ is_barred (option_map (λ vs. vs.now) allowed.entry) (tree value.now) }
{
    match allowed {
        None => false,
        Some(allowed) => !is_among(value, allowed.as_slice()),
    }
}

fn is_among(value: &Val, values: &[Val]) -> bool
    ensures { result ≡ list_any (λ a. is_eq (order (tree value.now) a)) (map tree values.now) }
{
    for one in values {
        if value.order(one).is_eq() {
            return true;
        }
    }
    false
}

fn given_value<'a>(handed: &'a Fields, given: &'a Fields, param: &'a Param) -> Option<&'a Val>
    ensures { option_map (λ v. tree v.now) result ≡ given_value handed.now given.now (param_tree param.now) }
{
    match handed.get(&param.name) {
        Some(value) => Some(value),
        None => match given.get(&param.name) {
            Some(value) => Some(value),
            None => param.default.as_ref(),
        },
    }
}

// The values, each under its parameter's name.
fn values_of(
    alloc: Global,
    handed: &Fields,
    given: &Fields,
    params: &[Param],
) -> Result<Fields, AllocError>
    ensures { IfOk result (λ values. values ≡ values_of handed.now given.now (map param_tree params.now)) }
{
    let mut values = Fields::new(alloc);
    for param in params {
        values = with_value(alloc, values, param, given_value(handed, given, param))?;
    }
    Ok(values)
}

fn with_value(
    alloc: Global,
    values: Fields,
    param: &Param,
    value: Option<&Val>,
) -> Result<Fields, AllocError>
    ensures { IfOk result (λ more. more ≡ with_value (param_tree param.now) (option_map (λ v. tree v.now) value.entry) values) }
{
    match value {
        None => Ok(values),
        Some(value) => {
            let mut more = values;
            more.put(param.name.copy(alloc)?, value.copy(alloc)?)?;
            Ok(more)
        }
    }
}
