//! Members of a test that don't stand together.
ghost use Rattle.std.specs.Prelude.{◌≡◌, IfOk, option_map, string_bytes};
ghost use Rattle.wf_json.specs.Pointer.{least, lesser};
ghost use Rattle.wf_suite.specs.SuiteForm.{has, lone, misplaced, of_runs, wanted_twice};
ghost use Rattle.wf_val.specs.Seen.{tree};

use std::alloc::{AllocError, Global};
use wf_json::pointer::{flagged, here, lesser};
use wf_val::Val;

fn has(value: &Val, name: &str) -> bool
    ensures { result ≡ has name.now (tree value.now) }
{
    value.member(name).is_some()
}

/// The least pointer of a member that doesn't stand with the others, or of the test where nothing is expected of it.
#[tactic(auto, using(wf_places::proofs::WalkLemmas::least_append))]
pub(crate) fn misplaced(alloc: Global, value: &Val) -> Result<Option<String>, AllocError>
    ensures { IfOk result (λ p. option_map string_bytes p ≡ least (misplaced (tree value.now))) }
{
    let lone = lone(alloc, value)?;
    let twice = wanted_twice(alloc, value)?;
    let of_runs = of_runs(alloc, value)?;
    Ok(lesser(lone, lesser(twice, of_runs)))
}

#[tactic(auto, using(wf_places::proofs::WalkLemmas::least_append))]
fn lone(alloc: Global, value: &Val) -> Result<Option<String>, AllocError>
    ensures { IfOk result (λ p. option_map string_bytes p ≡ least (lone (tree value.now))) }
{
    let wants = has(value, "accepts") || has(value, "expect") || has(value, "refused");
    let both = flagged(
        alloc,
        has(value, "inputs") && has(value, "resubmit"),
        "inputs",
    )?;
    Ok(lesser(here(alloc, !wants), both))
}

#[tactic(auto, using(wf_places::proofs::WalkLemmas::least_append))]
fn wanted_twice(alloc: Global, value: &Val) -> Result<Option<String>, AllocError>
    ensures { IfOk result (λ p. option_map string_bytes p ≡ least (wanted_twice (tree value.now))) }
{
    let runs = has(value, "inputs") || has(value, "resubmit");
    let accepts = flagged(alloc, runs && has(value, "accepts"), "accepts")?;
    let expect = flagged(alloc, !runs && has(value, "expect"), "expect")?;
    let other = has(value, "accepts") || has(value, "expect");
    let refused = flagged(alloc, other && has(value, "refused"), "refused")?;
    Ok(lesser(accepts, lesser(expect, refused)))
}

#[tactic(auto, using(wf_places::proofs::WalkLemmas::least_append))]
fn of_runs(alloc: Global, value: &Val) -> Result<Option<String>, AllocError>
    ensures { IfOk result (λ p. option_map string_bytes p ≡ least (of_runs (tree value.now))) }
{
    let runs = has(value, "inputs");
    let expects = has(value, "expect");
    let peak = flagged(alloc, !expects && has(value, "peak"), "peak")?;
    let schedule = flagged(alloc, !runs && has(value, "schedule"), "schedule")?;
    let further = flagged(
        alloc,
        !(runs && expects) && has(value, "schedules"),
        "schedules",
    )?;
    let seed = flagged(
        alloc,
        !has(value, "schedules") && has(value, "seed"),
        "seed",
    )?;
    Ok(lesser(lesser(peak, schedule), lesser(further, seed)))
}
