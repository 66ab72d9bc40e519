//! Where a site stands among the loops of a definition.
ghost use Rattle.std.specs.List.{list_any};
ghost use Rattle.std.specs.Prelude.{◌≡◌, map, nat_eq, count_by, option_map};
ghost use Rattle.wf_def.specs.ActionSeen.{action_tree};
ghost use Rattle.wf_def.specs.ActionTree.{action_kind, action_number};
ghost use Rattle.wf_standing.specs.Kinds.{is_foreach, is_loop};
ghost use Rattle.wf_standing.specs.Inside.{is_in_loop, has_item, is_inside, is_items, is_left, is_loop_named, is_outside, is_test};
ghost use Rattle.wf_standing.specs.Inside.{is_tracked, loops_left};
ghost use Rattle.wf_standing.specs.Seen.{standing_tree};

use crate::kinds::{Loop, is_foreach, is_loop};
use crate::standing::Standing;
use wf_def::Action;
use wf_use_table::Site;
use wf_val::Name;

pub fn is_test(site: Site) -> bool
    ensures { result ≡ is_test site }
{
    match site {
        Site::Test(_) => true,
        _ => false,
    }
}

fn is_items(site: Site) -> bool
    ensures { result ≡ is_items site }
{
    match site {
        Site::Items(_) => true,
        _ => false,
    }
}

pub fn is_tracked(site: Site) -> bool
    ensures { result ≡ is_tracked site }
{
    match site {
        Site::Tracked(_) => true,
        _ => false,
    }
}

fn is_loop_named(kind: Loop, name: &Name, action: &Action) -> bool
    ensures { result ≡ is_loop_named kind name.now (action_tree action.now) }
{
    kind.is_of(&action.kind) && name.as_str() == action.name.as_str()
}

fn any_loop_named(kind: Loop, name: &Name, actions: &[&Action]) -> bool
    ensures { result ≡ list_any (is_loop_named kind name.now) (map (λ a. action_tree a.now) actions.now) }
{
    for action in actions {
        if is_loop_named(kind, name, action) {
            return true;
        }
    }
    false
}

/// Whether the name is that of no such loop round the site.
pub fn is_outside(kind: Loop, site: Site, at: Option<&Standing<'_>>, name: &Name) -> bool
    ensures { result ≡ is_outside kind site (option_map (λ s. standing_tree s.now) at.entry) name.now }
{
    match at {
        None => true,
        Some(standing) => {
            !(any_loop_named(kind, name, &standing.round)
                || (is_test(site) && is_loop_named(kind, name, standing.action)))
        }
    }
}

fn any_foreach(actions: &[&Action]) -> bool
    ensures { result ≡ list_any (λ c. is_foreach (action_kind c)) (map (λ a. action_tree a.now) actions.now) }
{
    for action in actions {
        if is_foreach(&action.kind) {
            return true;
        }
    }
    false
}

/// Whether `item` has a value at the site.
pub fn has_item(site: Site, at: Option<&Standing<'_>>) -> bool
    ensures { result ≡ has_item site (option_map (λ s. standing_tree s.now) at.entry) }
{
    match at {
        None => is_items(site),
        Some(standing) => {
            is_items(site)
                || any_foreach(&standing.round)
                || (is_test(site) && is_foreach(&standing.action.kind))
        }
    }
}

fn any_loop(actions: &[&Action]) -> bool
    ensures { result ≡ list_any (λ c. is_loop (action_kind c)) (map (λ a. action_tree a.now) actions.now) }
{
    for action in actions {
        if is_loop(&action.kind) {
            return true;
        }
    }
    false
}

/// Whether the action stands in a loop.
pub fn is_in_loop(standing: &Standing<'_>) -> bool
    ensures { result ≡ is_in_loop (standing_tree standing.now) }
{
    any_loop(&standing.round)
}

fn any_numbered(number: u32, actions: &[&Action]) -> bool
    ensures { result ≡ list_any (λ r. nat_eq (action_number r) number) (map (λ a. action_tree a.now) actions.now) }
{
    for action in actions {
        if action.number == number {
            return true;
        }
    }
    false
}

// Whether the action of a number is a container that the site is inside.
fn is_round(site: Site, at: Option<&Standing<'_>>, number: u32) -> bool
    ensures { result ≡ is_inside site (option_map (λ s. standing_tree s.now) at.entry) (λ r. nat_eq (action_number r) number) }
{
    match at {
        None => false,
        Some(standing) => {
            any_numbered(number, &standing.round)
                || (is_test(site) && standing.action.number == number)
        }
    }
}

fn is_left(site: Site, at: Option<&Standing<'_>>, action: &Action) -> bool
    ensures { result ≡ is_left site (option_map (λ s. standing_tree s.now) at.entry) (action_tree action.now) }
{
    is_loop(&action.kind) && !is_round(site, at, action.number)
}

fn count_left(site: Site, at: Option<&Standing<'_>>, actions: &[&Action]) -> usize
    ensures { result ≡ count_by (is_left site (option_map (λ s. standing_tree s.now) at.entry)) (map (λ a. action_tree a.now) actions.now) }
{
    let mut count = 0;
    for action in actions {
        if is_left(site, at, action) {
            count += 1;
        }
    }
    count
}

/// How many of the loops round an action a reference to it from the site leaves.
pub fn loops_left(site: Site, at: Option<&Standing<'_>>, named: &Standing<'_>) -> usize
    ensures { result ≡ loops_left site (option_map (λ s. standing_tree s.now) at.entry) (standing_tree named.now) }
{
    count_left(site, at, &named.round)
}
