//! What breaks a rule.
ghost use Rattle.std.specs.List.{list_any};
ghost use Rattle.std.specs.Prelude.{◌≡◌, map, option_map};
ghost use Rattle.wf_standing.specs.DefSeen.{param_tree};
ghost use Rattle.wf_standing.specs.UsesSeen.{uses_seen};
ghost use Rattle.wf_standing.specs.KnownSeen.{whole_seen};
ghost use Rattle.wf_breaks.specs.Rules.{action_breaks, asks_elsewhere, asks_leaf, asks_too_soon, breaks_at, breaks_if, breaks_itself};
ghost use Rattle.wf_breaks.specs.Rules.{breaks_with, comes_early, ends_in_loop, has_misfit, is_any, is_misdeclared, is_misfit};
ghost use Rattle.wf_breaks.specs.Rules.{is_misfit_if, is_too_big_if, leaves_loops, misuses, names_outer, names_undeclared, names_unseen};
ghost use Rattle.wf_breaks.specs.Rules.{output_breaks, parameter_breaks, trigger_breaks, trigger_breaks_if, trigger_breaks_with};
ghost use Rattle.wf_standing.specs.Seen.{standing_tree};
ghost use Rattle.wf_val.specs.Seen.{tree};

use crate::rule::Rule;
use crate::wrong::{Wrong, any_wrong};
use wf_standing::{
    Known, Names, Param, Site, Sort, Standing, Uses, ends_or_responds, has_item, is_in_loop,
    is_tracked,
};
use wf_val::{Fields, Val, Vals};

// ---- at a site

fn names_unseen(
    known: &Known<'_, '_>,
    site: Site,
    at: Option<&Standing<'_>>,
    uses: &Uses<'_>,
) -> bool
    ensures { result ≡ names_unseen (whole_seen known.now) site (option_map (λ s. standing_tree s.now) at.entry) (uses_seen uses.now) }
{
    any_wrong(known, Wrong::Unseen, site, at, uses.names.as_slice())
        || any_wrong(known, Wrong::Unseen, site, at, uses.results.as_slice())
}

fn names_undeclared(known: &Known<'_, '_>, site: Site, uses: &Uses<'_>) -> bool
    ensures { result ≡ names_undeclared (whole_seen known.now) (uses_seen uses.now) }
{
    any_wrong(
        known,
        Wrong::Undeclared,
        site,
        None,
        uses.parameters.as_slice(),
    )
}

fn misuses(known: &Known<'_, '_>, site: Site, at: Option<&Standing<'_>>, uses: &Uses<'_>) -> bool
    ensures { result ≡ misuses (whole_seen known.now) (option_map (λ s. standing_tree s.now) at.entry) (uses_seen uses.now) }
{
    any_wrong(known, Wrong::Misread, site, at, uses.reads.as_slice())
        || any_wrong(known, Wrong::Miswritten, site, at, uses.writes.as_slice())
}

fn comes_early(
    known: &Known<'_, '_>,
    site: Site,
    at: Option<&Standing<'_>>,
    uses: &Uses<'_>,
) -> bool
    ensures { result ≡ comes_early (whole_seen known.now) (option_map (λ s. standing_tree s.now) at.entry) (uses_seen uses.now) }
{
    any_wrong(known, Wrong::Uninitialised, site, at, uses.reads.as_slice())
        || any_wrong(
            known,
            Wrong::Uninitialised,
            site,
            at,
            uses.writes.as_slice(),
        )
}

fn names_outer(
    known: &Known<'_, '_>,
    site: Site,
    at: Option<&Standing<'_>>,
    uses: &Uses<'_>,
) -> bool
    ensures { result ≡ names_outer site (option_map (λ s. standing_tree s.now) at.entry) (uses_seen uses.now) }
{
    any_wrong(known, Wrong::NoForeach, site, at, uses.items.as_slice())
        || any_wrong(known, Wrong::NoUntil, site, at, uses.indexes.as_slice())
        || (uses.item && !has_item(site, at))
}

fn leaves_loops(
    known: &Known<'_, '_>,
    site: Site,
    at: Option<&Standing<'_>>,
    uses: &Uses<'_>,
) -> bool
    ensures { result ≡ leaves_loops (whole_seen known.now) site (option_map (λ s. standing_tree s.now) at.entry) (uses_seen uses.now) }
{
    any_wrong(known, Wrong::LoopsLeft, site, at, uses.names.as_slice())
        || any_wrong(
            known,
            Wrong::LoopsLeftForResult,
            site,
            at,
            uses.results.as_slice(),
        )
}

fn asks_leaf(known: &Known<'_, '_>, site: Site, uses: &Uses<'_>) -> bool
    ensures { result ≡ asks_leaf (whole_seen known.now) (uses_seen uses.now) }
{
    any_wrong(
        known,
        Wrong::NoContainer,
        site,
        None,
        uses.results.as_slice(),
    )
}

fn is_any(names: &Names<'_>) -> bool
    ensures { result ≡ is_any names.now }
{
    names.len() > 0
}

fn asks_elsewhere(site: Site, uses: &Uses<'_>) -> bool
    ensures { result ≡ asks_elsewhere site (uses_seen uses.now) }
{
    if is_tracked(site) {
        is_any(&uses.reads) || uses.words || uses.moment || uses.run
    } else {
        uses.own
    }
}

fn breaks_with(
    known: &Known<'_, '_>,
    rule: Rule,
    site: Site,
    at: Option<&Standing<'_>>,
    uses: &Uses<'_>,
) -> bool
    ensures { result ≡ breaks_with (whole_seen known.now) rule site (option_map (λ s. standing_tree s.now) at.entry) (uses_seen uses.now) }
{
    match rule {
        Rule::References => names_unseen(known, site, at, uses),
        Rule::Parameters => names_undeclared(known, site, uses),
        Rule::Variables => misuses(known, site, at, uses),
        Rule::Initialised => comes_early(known, site, at, uses),
        Rule::Accesses => false,
        Rule::Items => names_outer(known, site, at, uses),
        Rule::Terminates => false,
        Rule::Responses => false,
        Rule::Ends => false,
        Rule::LoopsLeft => leaves_loops(known, site, at, uses),
        Rule::Results => asks_leaf(known, site, uses),
        Rule::Tracked => asks_elsewhere(site, uses),
        Rule::Triggers => false,
    }
}

fn breaks_at(known: &Known<'_, '_>, rule: Rule, site: Site, at: Option<&Standing<'_>>) -> bool
    ensures { result ≡ breaks_at (whole_seen known.now) rule site (option_map (λ s. standing_tree s.now) at.entry) }
{
    match known.uses(site) {
        None => false,
        Some(uses) => breaks_with(known, rule, site, at, uses),
    }
}

// ---- by an action, an output, a trigger, a parameter

// Whether the action is a Terminate or a Response in a loop.
fn ends_in_loop(standing: &Standing<'_>) -> bool
    ensures { result ≡ ends_in_loop (standing_tree standing.now) }
{
    ends_or_responds(&standing.action.kind) && is_in_loop(standing)
}

fn breaks_itself(rule: Rule, standing: &Standing<'_>) -> bool
    ensures { result ≡ breaks_itself rule (standing_tree standing.now) }
{
    match rule {
        Rule::Ends => ends_in_loop(standing),
        _ => false,
    }
}

/// Whether an action breaks the rule, at one of its sites or by where it stands.
pub fn action_breaks(known: &Known<'_, '_>, rule: Rule, standing: &Standing<'_>) -> bool
    ensures { result ≡ action_breaks (whole_seen known.now) rule (standing_tree standing.now) }
{
    let number = standing.action.number;
    breaks_itself(rule, standing)
        || breaks_at(known, rule, Site::Inputs(number), Some(standing))
        || breaks_at(known, rule, Site::Items(number), Some(standing))
        || breaks_at(known, rule, Site::Test(number), Some(standing))
        || breaks_at(known, rule, Site::Tracked(number), Some(standing))
}

/// Whether the output at a place does.
pub fn output_breaks(known: &Known<'_, '_>, rule: Rule, place: u32) -> bool
    ensures { result ≡ output_breaks (whole_seen known.now) rule place }
{
    breaks_at(known, rule, Site::Outputs(place), None)
}

fn asks_too_soon(uses: &Uses<'_>) -> bool
    ensures { result ≡ asks_too_soon (uses_seen uses.now) }
{
    is_any(&uses.names)
        || is_any(&uses.results)
        || is_any(&uses.reads)
        || is_any(&uses.items)
        || is_any(&uses.indexes)
        || uses.item
        || uses.own
        || uses.words
}

fn trigger_breaks_with(known: &Known<'_, '_>, rule: Rule, site: Site, uses: &Uses<'_>) -> bool
    ensures { result ≡ trigger_breaks_with (whole_seen known.now) rule (uses_seen uses.now) }
{
    match rule {
        Rule::Parameters => names_undeclared(known, site, uses),
        Rule::Triggers => asks_too_soon(uses),
        _ => false,
    }
}

/// Whether the trigger at a place does.
pub fn trigger_breaks(known: &Known<'_, '_>, rule: Rule, place: u32) -> bool
    ensures { result ≡ trigger_breaks (whole_seen known.now) rule place }
{
    match known.uses(Site::Trigger(place)) {
        None => false,
        Some(uses) => trigger_breaks_with(known, rule, Site::Trigger(place), uses),
    }
}

fn is_misfit(sort: Sort, value: &Val) -> bool
    ensures { result ≡ is_misfit sort (tree value.now) }
{
    !(value.fits() && sort.has(value))
}

fn any_misfit(sort: Sort, values: &[Val]) -> bool
    ensures { result ≡ list_any (is_misfit sort) (map tree values.now) }
{
    for value in values {
        if is_misfit(sort, value) {
            return true;
        }
    }
    false
}

fn has_misfit(sort: Sort, values: Option<&Vals>) -> bool
    ensures { result ≡ has_misfit sort (option_map (λ vs. vs.now) values.entry) }
{
    match values {
        None => false,
        Some(values) => any_misfit(sort, values.as_slice()),
    }
}

fn is_misfit_if(sort: Sort, value: Option<&Val>) -> bool
    ensures { result ≡ is_misfit_if sort (option_map (λ v. tree v.now) value.entry) }
{
    match value {
        None => false,
        Some(value) => is_misfit(sort, value),
    }
}

fn is_too_big_if(value: Option<&Val>) -> bool
    ensures { result ≡ is_too_big_if (option_map (λ v. tree v.now) value.entry) }
{
    match value {
        None => false,
        Some(value) => !value.fits(),
    }
}

fn is_misdeclared(given: &Fields, param: &Param) -> bool
    ensures { result ≡ is_misdeclared given.now (param_tree param.now) }
{
    is_misfit_if(param.sort, param.default.as_ref())
        || has_misfit(param.sort, param.allowed.as_ref())
        || is_too_big_if(given.get(&param.name))
}

/// Whether a declared parameter does, where a wrapper round the definition gives these values.
pub fn parameter_breaks(given: &Fields, rule: Rule, param: &Param) -> bool
    ensures { result ≡ parameter_breaks given.now rule (param_tree param.now) }
{
    match rule {
        Rule::Parameters => is_misdeclared(given, param),
        _ => false,
    }
}
