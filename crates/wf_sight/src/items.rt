//! The items of the loops round a point, and their indexes.
ghost use Rattle.std.specs.Prelude.{◌≡◌, ◌++◌, [], ℕ, List, IfOk, bytes_eq, find, map, option_map, reverse, slice_get};
ghost use Rattle.wf_def.specs.ActionSeen.{action_tree};
ghost use Rattle.wf_layers.specs.Address.{address};
ghost use Rattle.wf_views.specs.Look.{index_in, name_in, name_of};
ghost use Rattle.wf_views.specs.DecisionSeen.{decision_tree};
ghost use Rattle.wf_val.specs.Seen.{tree};
ghost use Rattle.wf_views.specs.ReadSeen.{def_tree};
ghost use Rattle.wf_sight.specs.Seen.{item_tree, opens_seen};
ghost use Rattle.wf_sight.specs.Sight.{item_held, item_open, items_open, named_item};

use std::alloc::{AllocError, Global};
use wf_def::Action;
use wf_val::{Indexes, Name, Val};
use wf_views::{Decision, Instance, Opens, Places, Verdict, indexes, name_of};

/// An item, and the loop whose item it is.
#[derive(Drop)]
pub(crate) struct Held<'a> {
    pub(crate) round: Option<&'a Action>,
    pub(crate) item: &'a Val,
}

// The item of an index, where the container opened with a list that has one.
fn item_held(decision: &Decision, index: u64) -> Option<&Val>
    ensures { (k : List ℕ) → named_item k (option_map (λ v. tree v.now) result) ≡ item_held k index (decision_tree decision.now) }
{
    match decision {
        Decision::Each(items) => items.at(index),
        _ => None,
    }
}

// The same of the container at an instance, where it is open.
fn item_open<'a>(
    opens: &'a Opens<Decision, Verdict>,
    place: &Instance,
    index: u64,
) -> Option<&'a Val>
    ensures { (k : List ℕ) → named_item k (option_map (λ v. tree v.now) result)
        ≡ item_open k index (opens_seen opens.now.0 (address place.now.action place.now.at)) }
{
    match opens.get(place) {
        Some(open) => item_held(&open.decision, index),
        None => None,
    }
}

fn with_item<'a>(
    found: Vec<Held<'a>>,
    round: Option<&'a Action>,
    item: Option<&'a Val>,
) -> Result<Vec<Held<'a>>, AllocError>
    ensures { IfOk result (λ all. map item_tree all.items ≡ map item_tree found.entry.items
        ++ named_item (name_in (option_map (λ a. action_tree a.now) round.entry)) (option_map (λ v. tree v.now) item.entry)) }
{
    let mut all = found;
    match item {
        Some(item) => {
            all.push(Held { round, item })?;
            Ok(all)
        }
        None => Ok(all),
    }
}

// With the item of the loop at a place of the list.
fn with_item_at<'a>(
    alloc: Global,
    places: &'a Places<'a>,
    opens: &'a Opens<Decision, Verdict>,
    action: u32,
    before: &[u64],
    index: u64,
    found: Vec<Held<'a>>,
) -> Result<Vec<Held<'a>>, AllocError>
    ensures { IfOk result (λ all. map item_tree all.items ≡ map item_tree found.entry.items
        ++ item_open (name_of (def_tree places.now) action) index (opens_seen opens.now.0 (address action before.now))) }
{
    let place = Instance {
        action,
        at: indexes(alloc, before)?,
    };
    with_item(
        found,
        places.action(action),
        item_open(opens, &place, index),
    )
}

// Behind those that are there, where these are the indexes before.
fn items_from<'a>(
    alloc: Global,
    places: &'a Places<'a>,
    opens: &'a Opens<Decision, Verdict>,
    loops: &[u32],
    at: &[u64],
    before: Indexes,
    found: Vec<Held<'a>>,
) -> Result<Vec<Held<'a>>, AllocError>
    ensures { IfOk result (λ all. map item_tree all.items
        ≡ map item_tree found.entry.items ++ items_open (def_tree places.now) (opens_seen opens.now.0) loops.now at.now before) }
{
    match loops.split_first() {
        None => Ok(found),
        Some((action, others)) => match at.split_first() {
            None => Ok(found),
            Some((index, behind)) => {
                let all = with_item_at(
                    alloc,
                    places,
                    opens,
                    *action,
                    before.as_slice(),
                    *index,
                    found,
                )?;
                let mut more = before;
                more.push(*index)?;
                items_from(alloc, places, opens, others, behind, more, all)
            }
        },
    }
}

/// The items of these loops at these indexes, the outermost first.
pub(crate) fn items_of<'a>(
    alloc: Global,
    places: &'a Places<'a>,
    opens: &'a Opens<Decision, Verdict>,
    loops: &[u32],
    at: &[u64],
) -> Result<Vec<Held<'a>>, AllocError>
    ensures { IfOk result (λ all. map item_tree all.items ≡ items_open (def_tree places.now) (opens_seen opens.now.0) loops.now at.now []) }
{
    items_from(
        alloc,
        places,
        opens,
        loops,
        at,
        Indexes::new(alloc),
        Vec::new(alloc),
    )
}

// Whether an action has the name; where there is none, whether the name is empty.
fn has_name(action: Option<&Action>, name: &Name) -> bool
    ensures { result ≡ bytes_eq name.now (name_in (option_map (λ a. action_tree a.now) action.entry)) }
{
    match action {
        Some(action) => name.as_str() == name_of(action).as_str(),
        None => name.as_str() == "",
    }
}

/// The item of the loop of a name.
pub(crate) fn item_of<'a>(items: &[Held<'a>], name: &Name) -> Option<&'a Val>
    ensures { option_map (λ v. tree v.now) result
        ≡ option_map (λ h. h.1) (find (λ h. bytes_eq name.now h.0) (map item_tree items.now)) }
{
    for held in items {
        if has_name(held.round, name) {
            return Some(held.item);
        }
    }
    None
}

/// The item of the nearest loop.
#[tactic(auto, using(crate::proofs::HeldLemmas::nearest_is))]
pub(crate) fn nearest<'a>(items: &[Held<'a>]) -> Option<&'a Val>
    ensures { option_map (λ v. tree v.now) result ≡ slice_get (reverse (map (λ h. h.1) (map item_tree items.now))) 0 }
{
    match items.split_last() {
        Some((held, _)) => Some(held.item),
        None => None,
    }
}

/// The index of the loop of a name.
pub(crate) fn index_of(places: &Places<'_>, loops: &[u32], at: &[u64], name: &Name) -> Option<u64>
    ensures { result ≡ index_in (def_tree places.now) loops.now at.now name.now }
{
    match loops.split_first() {
        None => None,
        Some((action, others)) => match at.split_first() {
            None => None,
            Some((index, behind)) => {
                if has_name(places.action(*action), name) {
                    Some(*index)
                } else {
                    index_of(places, others, behind, name)
                }
            }
        },
    }
}
