//! What actions do that hold no graph.
ghost use Rattle.std.specs.Prelude.{◌≡◌, IfOk, map, option_map, codes};
ghost use Rattle.wf_val.specs.Get.{without};
ghost use Rattle.wf_val.specs.Seen.{tree};
ghost use Rattle.wf_template.specs.DataSeen.{data_tree};
ghost use Rattle.wf_def.specs.ActionSeen.{initial_tree, kind_tree};
ghost use Rattle.wf_leaves.specs.Leaves.{initial_of, initials_in, leaf_of, nothing, policy_in, schema_if, schema_in, variable_sort};
ghost use Rattle.wf_leaves.specs.Texts.{data_in, data_of};
ghost use Rattle.wf_schema.specs.Reading.{schema_of, schema_tree};

use crate::texts::{data_if, data_in, data_of, str_in, template_at, text_in};
use std::alloc::{AllocError, Global};
use wf_def::{Initial, Initials, Kind, Sort};
use wf_kinds::{ActionType, Policy, input};
use wf_schema::{Schema, SchemaFault};
use wf_template::Tree;
use wf_val::{Text, Val};

/// What a value of another form is read as.
pub fn nothing() -> Kind
    ensures { kind_tree result ≡ nothing }
{
    Kind::Compose { inputs: Tree::Null }
}

// The value without `retryPolicy`.
fn without_policy(alloc: Global, value: &Val) -> Result<Val, AllocError>
    ensures { IfOk result (λ v. tree v ≡ without (codes "retryPolicy") (tree value.now)) }
{
    let name = Text::of(alloc, "retryPolicy")?;
    let mut rest = value.copy(alloc)?;
    let _policy = rest.remove(&name)?;
    Ok(rest)
}

// What a connector sends.
fn sent(alloc: Global, inputs: Option<&Val>) -> Result<Tree, AllocError>
    ensures { IfOk result (λ t. data_tree t ≡ data_in (option_map (without (codes "retryPolicy")) (option_map (λ v. tree v.now) inputs.entry))) }
{
    match inputs {
        Some(value) => {
            let rest = without_policy(alloc, value)?;
            data_of(alloc, &rest)
        }
        None => Ok(Tree::Null),
    }
}

fn policy_in(value: Option<&Val>) -> Policy
    ensures { result ≡ policy_in (option_map (λ v. tree v.now) value.entry) }
{
    match value {
        Some(value) => match Policy::read(value) {
            Ok(policy) => policy,
            Err(_) => Policy::Standard,
        },
        None => Policy::Standard,
    }
}

fn schema_if(alloc: Global, value: &Val) -> Result<Option<Schema>, AllocError>
    ensures { IfOk result (λ s. option_map schema_tree s ≡ schema_if (schema_of (tree value.now))) }
{
    match Schema::read(alloc, value) {
        Ok(schema) => Ok(Some(schema)),
        Err(SchemaFault::Memory) => Err(AllocError),
        Err(SchemaFault::Form { .. }) => Ok(None),
    }
}

// The schema that a member is, whose texts are no templates.
fn schema_in(alloc: Global, value: Option<&Val>) -> Result<Option<Schema>, AllocError>
    ensures { IfOk result (λ s. option_map schema_tree s ≡ schema_in (option_map (λ v. tree v.now) value.entry)) }
{
    match value {
        Some(value) => schema_if(alloc, value),
        None => Ok(None),
    }
}

fn variable_sort(name: &str) -> Sort
    ensures { result ≡ variable_sort name.now }
{
    if name.eq_ignore_ascii_case("boolean") {
        Sort::Bool
    } else if name.eq_ignore_ascii_case("integer") {
        Sort::Int
    } else if name.eq_ignore_ascii_case("string") {
        Sort::Text
    } else if name.eq_ignore_ascii_case("array") {
        Sort::List
    } else {
        Sort::Obj
    }
}

fn initial_of(alloc: Global, value: &Val) -> Result<Initial, AllocError>
    ensures { IfOk result (λ i. initial_tree i ≡ initial_of (tree value.now)) }
{
    Ok(Initial {
        name: text_in(alloc, value.member("name"))?,
        sort: variable_sort(str_in(value.member("type"))),
        value: data_if(alloc, value.member("value"))?,
    })
}

// The items of a list.
#[tactic(auto, using(wf_val::proofs::ValueTreeLemmas::listed))]
fn initials_of(alloc: Global, values: &[Val]) -> Result<Initials, AllocError>
    ensures { IfOk result (λ is. map initial_tree is ≡ map initial_of (map tree values.now)) }
{
    let mut found = Initials::new(alloc);
    for value in values {
        found.push(initial_of(alloc, value)?)?;
    }
    Ok(found)
}

#[tactic(auto, using(wf_val::proofs::ValueTreeLemmas::listed))]
fn initials_in(alloc: Global, value: Option<&Val>) -> Result<Initials, AllocError>
    ensures { IfOk result (λ is. map initial_tree is ≡ initials_in (option_map (λ v. tree v.now) value.entry)) }
{
    match value {
        Some(Val::List(items)) => initials_of(alloc, items.as_slice()),
        _ => Ok(Initials::new(alloc)),
    }
}

/// What an action of a type does.
pub fn leaf_of(alloc: Global, action_type: ActionType, action: &Val) -> Result<Kind, AllocError>
    ensures { IfOk result (λ k. kind_tree k ≡ leaf_of action_type (tree action.now)) }
{
    match action_type {
        ActionType::Compose => Ok(Kind::Compose {
            inputs: data_in(alloc, action.member("inputs"))?,
        }),
        ActionType::Connector => Ok(Kind::Connector {
            inputs: sent(alloc, action.member("inputs"))?,
            policy: policy_in(input(action, "retryPolicy")),
        }),
        ActionType::Wait => Ok(Kind::Wait {
            inputs: data_in(alloc, action.member("inputs"))?,
        }),
        ActionType::Response => Ok(Kind::Response {
            inputs: data_in(alloc, action.member("inputs"))?,
        }),
        ActionType::Terminate => Ok(Kind::Terminate {
            inputs: data_in(alloc, action.member("inputs"))?,
        }),
        ActionType::Select => Ok(Kind::Select {
            from: data_in(alloc, input(action, "from"))?,
            select: data_in(alloc, input(action, "select"))?,
        }),
        ActionType::Query => Ok(Kind::Query {
            from: data_in(alloc, input(action, "from"))?,
            filter: template_at(alloc, input(action, "where"))?,
        }),
        ActionType::Join => Ok(Kind::Join {
            from: data_in(alloc, input(action, "from"))?,
            with: data_in(alloc, input(action, "joinWith"))?,
        }),
        ActionType::ParseJson => Ok(Kind::ParseJson {
            content: data_in(alloc, input(action, "content"))?,
            schema: schema_in(alloc, input(action, "schema"))?,
        }),
        ActionType::InitializeVariable => Ok(Kind::Initialize {
            variables: initials_in(alloc, input(action, "variables"))?,
        }),
        ActionType::SetVariable => Ok(Kind::Set {
            name: text_in(alloc, input(action, "name"))?,
            value: data_in(alloc, input(action, "value"))?,
        }),
        ActionType::IncrementVariable => Ok(Kind::Increment {
            name: text_in(alloc, input(action, "name"))?,
            value: data_if(alloc, input(action, "value"))?,
        }),
        ActionType::DecrementVariable => Ok(Kind::Decrement {
            name: text_in(alloc, input(action, "name"))?,
            value: data_if(alloc, input(action, "value"))?,
        }),
        ActionType::AppendToArrayVariable => Ok(Kind::AppendArray {
            name: text_in(alloc, input(action, "name"))?,
            value: data_in(alloc, input(action, "value"))?,
        }),
        ActionType::AppendToStringVariable => Ok(Kind::AppendString {
            name: text_in(alloc, input(action, "name"))?,
            value: data_in(alloc, input(action, "value"))?,
        }),
        ActionType::Scope
        | ActionType::If
        | ActionType::Switch
        | ActionType::Foreach
        | ActionType::Until => Ok(nothing()),
    }
}
