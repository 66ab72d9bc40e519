//! What may be wrong with a name at a site.
ghost use Rattle.std.specs.List.{list_any};
ghost use Rattle.std.specs.Prelude.{◌≡◌, map, option_map};
ghost use Rattle.wf_standing.specs.KnownSeen.{whole_seen};
ghost use Rattle.wf_breaks.specs.Rules.{initialises_again, is_early, is_found_unseen, is_misread, is_miswritten, is_nested};
ghost use Rattle.wf_breaks.specs.Rules.{is_no_container, is_uninitialised, is_unseen, leaves_two, leaves_two_for, suits_at};
ghost use Rattle.wf_standing.specs.Whole.{is_again};
ghost use Rattle.wf_standing.specs.Seen.{initialised_in, initialised_tree, standing_tree};
ghost use Rattle.wf_breaks.specs.Wrong.{is_wrong};

use wf_standing::{
    Initialised, Known, Loop, Site, Sort, Standing, Variable, is_again, is_container,
    is_initialize, is_loop, is_outside, loops_left, suits,
};
use wf_val::Name;

/// What may be wrong with a name, by what it is the name of and by how it is used.
#[derive(Clone, Copy)]
pub(crate) enum Wrong {
    /// No action has it, or the one that has it isn't before the site.
    Unseen,
    /// No parameter of the name is declared.
    Undeclared,
    /// The variable isn't initialised, or not at the top.
    Misread,
    /// The same of a variable that is written, or it is of a type that doesn't suit, or is initialised once more.
    Miswritten,
    /// The variable isn't initialised before.
    Uninitialised,
    /// No Foreach of the name is round the site.
    NoForeach,
    /// No Until of the name is round the site.
    NoUntil,
    /// The action stands in two loops or more that aren't round the site.
    LoopsLeft,
    /// The same, where the action counts if it is a loop.
    LoopsLeftForResult,
    /// The action is no container.
    NoContainer,
}

// ---- of references

fn is_found_unseen(
    known: &Known<'_, '_>,
    site: Site,
    at: Option<&Standing<'_>>,
    found: Option<&Standing<'_>>,
) -> bool
    ensures { result ≡ is_found_unseen
        (whole_seen known.now) site (option_map (λ s. standing_tree s.now) at.entry) (option_map (λ s. standing_tree s.now) found.entry) }
{
    match found {
        None => true,
        Some(x) => match at {
            None => false,
            Some(y) => !known.sees(site, y, x),
        },
    }
}

fn leaves_two(site: Site, at: Option<&Standing<'_>>, found: Option<&Standing<'_>>) -> bool
    ensures { result ≡ leaves_two site
        (option_map (λ s. standing_tree s.now) at.entry) (option_map (λ s. standing_tree s.now) found.entry) }
{
    match found {
        None => false,
        Some(x) => loops_left(site, at, x) > 1,
    }
}

fn leaves_two_for(site: Site, at: Option<&Standing<'_>>, found: Option<&Standing<'_>>) -> bool
    ensures { result ≡ leaves_two_for site
        (option_map (λ s. standing_tree s.now) at.entry) (option_map (λ s. standing_tree s.now) found.entry) }
{
    match found {
        None => false,
        Some(x) => {
            let left = loops_left(site, at, x);
            left > 1 || (is_loop(&x.action.kind) && left > 0)
        }
    }
}

fn is_no_container(found: Option<&Standing<'_>>) -> bool
    ensures { result ≡ is_no_container (option_map (λ s. standing_tree s.now) found.entry) }
{
    match found {
        None => true,
        Some(x) => !is_container(&x.action.kind),
    }
}

// ---- of variables

fn is_nested(standing: &Standing<'_>) -> bool
    ensures { result ≡ is_nested (standing_tree standing.now).round }
{
    !standing.round.is_empty()
}

fn initialises_again(at: Option<&Standing<'_>>, by: &[Initialised<'_, '_>]) -> bool
    ensures { result ≡ initialises_again (option_map (λ s. standing_tree s.now) at.entry) (map initialised_tree by.now) }
{
    match at {
        None => false,
        Some(standing) => { is_initialize(&standing.action.kind) && is_again(standing, by) }
    }
}

fn suits_at(at: Option<&Standing<'_>>, sort: Sort) -> bool
    ensures { result ≡ suits_at (option_map (λ s. standing_tree s.now) at.entry) sort }
{
    match at {
        None => true,
        Some(standing) => suits(&standing.action.kind, sort),
    }
}

fn is_misread_by(by: &[Initialised<'_, '_>]) -> bool
    ensures { result ≡ is_misread (map initialised_tree by.now) }
{
    match by {
        [] => true,
        [only] => is_nested(only.standing),
        _ => false,
    }
}

fn is_misread(found: Option<&Variable<'_, '_>>) -> bool
    ensures { result ≡ is_misread (initialised_in (option_map (λ v. v.now) found.entry)) }
{
    match found {
        None => true,
        Some(variable) => is_misread_by(&variable.by),
    }
}

fn is_miswritten_by(at: Option<&Standing<'_>>, by: &[Initialised<'_, '_>]) -> bool
    ensures { result ≡ is_miswritten (option_map (λ s. standing_tree s.now) at.entry) (map initialised_tree by.now) }
{
    match by {
        [] => true,
        [only] => is_nested(only.standing) || !suits_at(at, only.sort),
        _ => initialises_again(at, by),
    }
}

fn is_miswritten(at: Option<&Standing<'_>>, found: Option<&Variable<'_, '_>>) -> bool
    ensures { result ≡ is_miswritten
        (option_map (λ s. standing_tree s.now) at.entry) (initialised_in (option_map (λ v. v.now) found.entry)) }
{
    match found {
        None => true,
        Some(variable) => is_miswritten_by(at, &variable.by),
    }
}

fn is_early(known: &Known<'_, '_>, standing: &Standing<'_>, one: &Initialised<'_, '_>) -> bool
    ensures { result ≡ is_early (whole_seen known.now) (standing_tree standing.now) (initialised_tree one.now) }
{
    one.standing.action.number != standing.action.number && !known.before(one.standing, standing)
}

fn any_early(known: &Known<'_, '_>, standing: &Standing<'_>, by: &[Initialised<'_, '_>]) -> bool
    ensures { result ≡ list_any (is_early (whole_seen known.now) (standing_tree standing.now)) (map initialised_tree by.now) }
{
    for one in by {
        if is_early(known, standing, one) {
            return true;
        }
    }
    false
}

fn is_early_for(
    known: &Known<'_, '_>,
    standing: &Standing<'_>,
    found: Option<&Variable<'_, '_>>,
) -> bool
    ensures { result ≡ list_any
        (is_early (whole_seen known.now) (standing_tree standing.now)) (initialised_in (option_map (λ v. v.now) found.entry)) }
{
    match found {
        None => false,
        Some(variable) => any_early(known, standing, &variable.by),
    }
}

fn is_uninitialised(known: &Known<'_, '_>, at: Option<&Standing<'_>>, name: &Name) -> bool
    ensures { result ≡ is_uninitialised (whole_seen known.now) (option_map (λ s. standing_tree s.now) at.entry) name.now }
{
    match at {
        None => false,
        Some(standing) => is_early_for(known, standing, known.initialised(name)),
    }
}

// ---- of any

fn is_wrong(
    known: &Known<'_, '_>,
    wrong: Wrong,
    site: Site,
    at: Option<&Standing<'_>>,
    name: &Name,
) -> bool
    ensures { result ≡ is_wrong (whole_seen known.now) wrong site (option_map (λ s. standing_tree s.now) at.entry) name.now }
{
    match wrong {
        Wrong::Unseen => is_found_unseen(known, site, at, known.named(name)),
        Wrong::Undeclared => !known.declares(name),
        Wrong::Misread => is_misread(known.initialised(name)),
        Wrong::Miswritten => is_miswritten(at, known.initialised(name)),
        Wrong::Uninitialised => is_uninitialised(known, at, name),
        Wrong::NoForeach => is_outside(Loop::Foreach, site, at, name),
        Wrong::NoUntil => is_outside(Loop::Until, site, at, name),
        Wrong::LoopsLeft => leaves_two(site, at, known.named(name)),
        Wrong::LoopsLeftForResult => leaves_two_for(site, at, known.named(name)),
        Wrong::NoContainer => is_no_container(known.named(name)),
    }
}

/// Whether something of that kind is wrong with one of these names.
pub(crate) fn any_wrong(
    known: &Known<'_, '_>,
    wrong: Wrong,
    site: Site,
    at: Option<&Standing<'_>>,
    names: &[&Name],
) -> bool
    ensures { result ≡ list_any
        (is_wrong (whole_seen known.now) wrong site (option_map (λ s. standing_tree s.now) at.entry)) (map (λ n. n.now) names.now) }
{
    for name in names {
        if is_wrong(known, wrong, site, at, name) {
            return true;
        }
    }
    false
}
