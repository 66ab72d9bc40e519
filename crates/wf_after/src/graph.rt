//! The actions of a graph that offend.
ghost use Rattle.std.specs.Prelude.{◌≡◌, map, IfOk, option_map, string_bytes};
ghost use Rattle.wf_json.specs.Pointer.{flagged, least};
ghost use Rattle.wf_paths.specs.Table.{at};
ghost use Rattle.wf_val.specs.Get.{name_of};
ghost use Rattle.wf_val.specs.NameOrder.{IsInNameOrder};
ghost use Rattle.wf_val.specs.Seen.{tree, member};
ghost use Rattle.wf_after.specs.Waits.{bad_run_after, nodes, offenders, offends, places_of};

use crate::entries::{entries_of, has_bad_entry, place_in};
use std::alloc::{AllocError, Global};
use wf_json::pointer::{flagged, lesser};
use wf_val::{Fields, Text, Val};

fn places_of(
    alloc: Global,
    graph: &[(Text, Val)],
    entries: &[(Text, Val)],
) -> Result<Vec<usize>, AllocError>
    requires { IsInNameOrder name_of (map member graph.now) }
    ensures { IfOk result (λ places. places.items ≡ places_of (map member graph.now) (map member entries.now)) }
{
    let mut places = Vec::new(alloc);
    for (name, _) in entries {
        if let Some(place) = place_in(graph, name) {
            places.push(place)?;
        }
    }
    Ok(places)
}

fn nodes(alloc: Global, graph: &[(Text, Val)]) -> Result<Vec<Vec<usize>>, AllocError>
    requires { IsInNameOrder name_of (map member graph.now) }
    ensures { IfOk result (λ found. map (λ n. n.items) found.items ≡ nodes (map member graph.now) (map member graph.now)) }
{
    let mut found = Vec::with_capacity(alloc, graph.len())?;
    for (_, action) in graph {
        found.push(places_of(alloc, graph, entries_of(action))?)?;
    }
    Ok(found)
}

fn waits_for_itself(paths: &[Vec<bool>], place: usize) -> bool
    ensures { result ≡ at (map (λ r. r.items) paths.now) place place }
{
    match paths.get(place) {
        Some(row) => match row.get(place) {
            Some(leads) => *leads,
            None => false,
        },
        None => false,
    }
}

fn offends(
    graph: &[(Text, Val)],
    paths: &[Vec<bool>],
    place: usize,
    name: &str,
    action: &Val,
) -> bool
    requires { IsInNameOrder name_of (map member graph.now) }
    ensures { result ≡ offends (map member graph.now) (map (λ r. r.items) paths.now) place (name.now, tree action.now) }
{
    has_bad_entry(graph, name, action) || waits_for_itself(paths, place)
}

// The pointer of an action that offends.
fn offender(
    alloc: Global,
    graph: &[(Text, Val)],
    paths: &[Vec<bool>],
    place: usize,
    name: &Text,
    action: &Val,
) -> Result<Option<String>, AllocError>
    requires { IsInNameOrder name_of (map member graph.now) }
    ensures { IfOk result (λ p. option_map string_bytes p
        ≡ least (flagged (offends (map member graph.now) (map (λ r. r.items) paths.now) place (name.now, tree action.now)) name.now)) }
{
    let is_bad = offends(graph, paths, place, name.as_str(), action);
    flagged(alloc, is_bad, name.as_str())
}

fn offenders(
    alloc: Global,
    graph: &[(Text, Val)],
    paths: &[Vec<bool>],
) -> Result<Option<String>, AllocError>
    requires { IsInNameOrder name_of (map member graph.now) }
    ensures { IfOk result (λ p. option_map string_bytes p
        ≡ least (offenders (map member graph.now) (map (λ r. r.items) paths.now) 0 (map member graph.now))) }
{
    let mut best = None;
    for (place, (name, action)) in graph.iter().enumerate() {
        best = lesser(best, offender(alloc, graph, paths, place, name, action)?);
    }
    Ok(best)
}

fn among(alloc: Global, graph: &[(Text, Val)]) -> Result<Option<String>, AllocError>
    requires { IsInNameOrder name_of (map member graph.now) }
    ensures { IfOk result (λ p. option_map string_bytes p ≡ least (bad_run_after (map member graph.now))) }
{
    let nodes = nodes(alloc, graph)?;
    let paths = wf_paths::paths_of(alloc, &nodes)?;
    offenders(alloc, graph, &paths)
}

/// The least pointer, from the graph on, of an action whose `runAfter` names what is no other action of the graph, lists what is no
/// status, or makes it wait for itself.
pub fn bad_run_after(alloc: Global, graph: &Fields) -> Result<Option<String>, AllocError>
    ensures { IfOk result (λ p. option_map string_bytes p ≡ least (bad_run_after graph.now)) }
{
    among(alloc, graph.as_slice())
}
