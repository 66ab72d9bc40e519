//! Which members an action of a type, a trigger and an output have.
ghost use Rattle.std.specs.Prelude.{◌≡◌, map, option_map, codes};
ghost use Rattle.std.specs.List.{list_all};
ghost use Rattle.wf_val.specs.Get.{get};
ghost use Rattle.wf_val.specs.Seen.{tree};
ghost use Rattle.wf_kinds.specs.Members.{action_has_members, are_trigger_conditions, output_has_members, trigger_has_members, type_has};
ghost use Rattle.wf_kinds.specs.Parts.{absent_or, is_text};

use crate::action_type::ActionType;
use crate::containers::{foreach_has, if_has, scope_has, switch_has, until_has};
use crate::data::{compose_has, join_has, parse_json_has, query_has, select_has};
use crate::parts::{is_absent_or_text, is_text};
use crate::services::{connector_has, response_has, terminate_has, wait_has};
use crate::variables::{count_has, initialize_has, set_has};
use wf_val::Val;

fn type_has(action_type: Option<ActionType>, action: &Val) -> bool
    ensures { result ≡ type_has action_type (tree action.now) }
{
    match action_type {
        None => true,
        Some(ActionType::Compose) => compose_has(action),
        Some(ActionType::Connector) => connector_has(action),
        Some(ActionType::Wait) => wait_has(action),
        Some(ActionType::Response) => response_has(action),
        Some(ActionType::Terminate) => terminate_has(action),
        Some(ActionType::Select) => select_has(action),
        Some(ActionType::Query) => query_has(action),
        Some(ActionType::Join) => join_has(action),
        Some(ActionType::ParseJson) => parse_json_has(action),
        Some(ActionType::InitializeVariable) => initialize_has(action),
        Some(ActionType::SetVariable) => set_has(action),
        Some(ActionType::IncrementVariable) => count_has(action),
        Some(ActionType::DecrementVariable) => count_has(action),
        Some(ActionType::AppendToArrayVariable) => set_has(action),
        Some(ActionType::AppendToStringVariable) => set_has(action),
        Some(ActionType::Scope) => scope_has(action),
        Some(ActionType::If) => if_has(action),
        Some(ActionType::Switch) => switch_has(action),
        Some(ActionType::Foreach) => foreach_has(action),
        Some(ActionType::Until) => until_has(action),
    }
}

/// Whether an action has the members that its type asks for, each of its form and in its range. Of an unknown type nothing
/// is asked. What its templates spell isn't looked at, nor what the actions in it have.
#[tactic(auto, unfolding(crate::specs::Members::action_has_members))]
pub fn action_has_members(action: &Val) -> bool
    ensures { result ≡ action_has_members (tree action.now) }
{
    type_has(ActionType::of(action), action) && is_absent_or_text(action.member("operationOptions"))
}

fn are_expressions(conditions: &[Val]) -> bool
    ensures { result ≡ list_all (λ t. is_text (get (codes "expression") t)) (map tree conditions.now) }
{
    for condition in conditions {
        if !is_text(condition.member("expression")) {
            return false;
        }
    }
    true
}

#[tactic(auto, using(wf_val::proofs::ValueTreeLemmas::listed))]
fn are_absent_or_trigger_conditions(value: Option<&Val>) -> bool
    ensures { result ≡ absent_or are_trigger_conditions (option_map (λ v. tree v.now) value.entry) }
{
    match value {
        None => true,
        Some(Val::List(items)) => are_expressions(items.as_slice()),
        Some(_) => false,
    }
}

/// Whether a trigger has its members, each of its form: what it splits on, and the conditions on which it fires.
#[tactic(auto, unfolding(crate::specs::Members::trigger_has_members))]
pub fn trigger_has_members(trigger: &Val) -> bool
    ensures { result ≡ trigger_has_members (tree trigger.now) }
{
    is_absent_or_text(trigger.member("splitOn"))
        && are_absent_or_trigger_conditions(trigger.member("conditions"))
}

/// Whether an output has a value.
#[tactic(auto, unfolding(crate::specs::Members::output_has_members))]
pub fn output_has_members(output: &Val) -> bool
    ensures { result ≡ output_has_members (tree output.now) }
{
    output.member("value").is_some()
}
