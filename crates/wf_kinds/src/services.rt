//! What is asked of actions that call a service, wait, answer, or end the run.
ghost use Rattle.std.specs.Prelude.{◌≡◌, option_map};
ghost use Rattle.wf_val.specs.Seen.{tree};
ghost use Rattle.wf_kinds.specs.Parts.{absent_or};
ghost use Rattle.wf_kinds.specs.Services.{connector_has, is_policy, response_has, terminate_has, wait_has};

use crate::parts::{input, is_object};
use wf_retry::Policy;
use wf_val::Val;

fn is_absent_or_policy(value: Option<&Val>) -> bool
    ensures { result ≡ absent_or is_policy (option_map (λ v. tree v.now) value.entry) }
{
    match value {
        None => true,
        Some(value) => Policy::read(value).is_ok(),
    }
}

pub(crate) fn connector_has(action: &Val) -> bool
    ensures { result ≡ connector_has (tree action.now) }
{
    is_object(action.member("inputs")) && is_absent_or_policy(input(action, "retryPolicy"))
}

pub(crate) fn wait_has(action: &Val) -> bool
    ensures { result ≡ wait_has (tree action.now) }
{
    is_object(action.member("inputs"))
}

pub(crate) fn response_has(action: &Val) -> bool
    ensures { result ≡ response_has (tree action.now) }
{
    input(action, "statusCode").is_some()
}

pub(crate) fn terminate_has(action: &Val) -> bool
    ensures { result ≡ terminate_has (tree action.now) }
{
    input(action, "runStatus").is_some()
}
