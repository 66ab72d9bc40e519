//! What is asked of actions on data.
ghost use Rattle.std.specs.Prelude.{◌≡◌, option_map};
ghost use Rattle.wf_val.specs.Seen.{tree};
ghost use Rattle.wf_kinds.specs.Data.{compose_has, join_has, parse_json_has, query_has, select_has};
ghost use Rattle.wf_kinds.specs.Parts.{absent_or};
ghost use Rattle.wf_schema.specs.Keywords.{is_schema};

use crate::parts::{input, is_text};
use wf_schema::is_schema;
use wf_val::Val;

pub(crate) fn compose_has(action: &Val) -> bool
    ensures { result ≡ compose_has (tree action.now) }
{
    action.member("inputs").is_some()
}

pub(crate) fn select_has(action: &Val) -> bool
    ensures { result ≡ select_has (tree action.now) }
{
    input(action, "from").is_some() && input(action, "select").is_some()
}

pub(crate) fn query_has(action: &Val) -> bool
    ensures { result ≡ query_has (tree action.now) }
{
    input(action, "from").is_some() && is_text(input(action, "where"))
}

pub(crate) fn join_has(action: &Val) -> bool
    ensures { result ≡ join_has (tree action.now) }
{
    input(action, "from").is_some() && input(action, "joinWith").is_some()
}

fn is_absent_or_schema(value: Option<&Val>) -> bool
    ensures { result ≡ absent_or is_schema (option_map (λ v. tree v.now) value.entry) }
{
    match value {
        None => true,
        Some(value) => is_schema(value),
    }
}

pub(crate) fn parse_json_has(action: &Val) -> bool
    ensures { result ≡ parse_json_has (tree action.now) }
{
    input(action, "content").is_some() && is_absent_or_schema(input(action, "schema"))
}
