//! What an entry of `runAfter` names and lists.
ghost use Rattle.std.specs.Prelude.{◌≡◌, bytes_eq, map, option_map};
ghost use Rattle.std.specs.List.{list_all, list_any};
ghost use Rattle.wf_val.specs.Get.{name_of};
ghost use Rattle.wf_val.specs.NameOrder.{IsInNameOrder};
ghost use Rattle.wf_val.specs.Seen.{tree, member};
ghost use Rattle.wf_val.specs.ValueTree as value;
ghost use Rattle.wf_after.specs.Entries.{are_statuses, entries, entries_of, has_bad_entry, is_bad_entry, is_status, place_in};

use wf_val::{Text, Val};

// The place of the name in the graph.
pub(crate) fn place_in(graph: &[(Text, Val)], name: &Text) -> Option<usize>
    requires { IsInNameOrder name_of (map member graph.now) }
    ensures { result ≡ place_in name.now (map member graph.now) }
{
    match graph.binary_search_by(|action| action.0.order(name)) {
        Ok(place) => Some(place),
        Err(_) => None,
    }
}

#[tactic(auto, using(wf_val::proofs::ValueTreeLemmas::listed))]
fn entries<'a>(value: Option<&'a Val>) -> &'a [(Text, Val)]
    ensures { map member result.now ≡ entries (option_map (λ v. tree v.now) value.entry) }
{
    match value {
        Some(Val::Obj(fields)) => fields.as_slice(),
        _ => &[],
    }
}

pub(crate) fn entries_of<'a>(action: &'a Val) -> &'a [(Text, Val)]
    ensures { map member result.now ≡ entries_of (tree action.now) }
{
    entries(action.member("runAfter"))
}

fn is_status_text(text: &str) -> bool
    ensures { result ≡ is_status (value.text text.now) }
{
    text.eq_ignore_ascii_case("Succeeded")
        || text.eq_ignore_ascii_case("Failed")
        || text.eq_ignore_ascii_case("Skipped")
        || text.eq_ignore_ascii_case("TimedOut")
}

fn is_status(value: &Val) -> bool
    ensures { result ≡ is_status (tree value.now) }
{
    match value {
        Val::Text(text) => is_status_text(text.as_str()),
        _ => false,
    }
}

fn are_all_statuses(values: &[Val]) -> bool
    ensures { result ≡ list_all is_status (map tree values.now) }
{
    for value in values {
        if !is_status(value) {
            return false;
        }
    }
    true
}

#[tactic(auto, using(wf_val::proofs::ValueTreeLemmas::listed))]
fn are_statuses(value: &Val) -> bool
    ensures { result ≡ are_statuses (tree value.now) }
{
    match value {
        Val::List(items) => are_all_statuses(items.as_slice()),
        _ => false,
    }
}

fn is_same(one: &str, other: &str) -> bool
    ensures { result ≡ bytes_eq one.now other.now }
{
    one == other
}

fn is_bad_entry(graph: &[(Text, Val)], own: &str, name: &Text, value: &Val) -> bool
    requires { IsInNameOrder name_of (map member graph.now) }
    ensures { result ≡ is_bad_entry (map member graph.now) own.now (name.now, tree value.now) }
{
    place_in(graph, name).is_none() || is_same(own, name.as_str()) || !are_statuses(value)
}

fn is_any_bad(graph: &[(Text, Val)], own: &str, entries: &[(Text, Val)]) -> bool
    requires { IsInNameOrder name_of (map member graph.now) }
    ensures { result ≡ list_any (is_bad_entry (map member graph.now) own.now) (map member entries.now) }
{
    for (name, value) in entries {
        if is_bad_entry(graph, own, name, value) {
            return true;
        }
    }
    false
}

pub(crate) fn has_bad_entry(graph: &[(Text, Val)], name: &str, action: &Val) -> bool
    requires { IsInNameOrder name_of (map member graph.now) }
    ensures { result ≡ has_bad_entry (map member graph.now) (name.now, tree action.now) }
{
    is_any_bad(graph, name, entries_of(action))
}
