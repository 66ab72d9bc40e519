//! A test, read from its value.
ghost use Rattle.std.specs.Prelude.{◌≡◌, ◌≢◌, Err, IfErr, IfOk, None, Ok, option_map};
ghost use Rattle.wf_suite.specs.Known.{tests_known};
ghost use Rattle.wf_suite.specs.Suite.{again_from, kind_by, kind_of, place_of, record_of, run_of, run_or_check, test_of};
ghost use Rattle.wf_suite.specs.declared.fault.SuiteFault.TheVariants.{Memory};
ghost use Rattle.wf_val.specs.Seen.{tree};

use crate::fault::SuiteFault;
use crate::known::Known;
use crate::members::{
    given_of, most_in, names_of, number_or_zero, text_or_empty, text_or_none, wanted_of,
};
use crate::suite::{Kind, Test};
use std::alloc::{AllocError, Global};
use wf_val::{Text, Val};

/// The test that a value means behind those before it.
pub(crate) fn test_of(alloc: Global, done: &Known, value: &Val) -> Result<Test, SuiteFault>
    ensures test { IfOk result (λ test. test_of (tests_known done.now) (tree value.now) ≡ Ok test) }
    ensures new { IfOk result (λ test. place_of test.name (tests_known done.now) ≡ None) }
    ensures fault { IfErr result (λ f. f ≢ Memory → test_of (tests_known done.now) (tree value.now) ≡ Err f) }
{
    let name = Text::of(alloc, text_or_empty(value.member("name")))?;
    if done.place_of(&name).is_some() {
        return Err(SuiteFault::Twice { name });
    }
    let kind = kind_of(alloc, done, value)?;
    Ok(Test {
        name,
        kind,
        wanted: wanted_of(alloc, value)?,
        most: most_in(value.member("peak")),
    })
}

fn kind_of(alloc: Global, done: &Known, value: &Val) -> Result<Kind, SuiteFault>
    ensures kind { IfOk result (λ kind. kind_of (tests_known done.now) (tree value.now) ≡ Ok kind) }
    ensures fault { IfErr result (λ f. f ≢ Memory → kind_of (tests_known done.now) (tree value.now) ≡ Err f) }
{
    match value.member("resubmit") {
        Some(again) => again_of(alloc, done, again),
        None => Ok(run_or_check(alloc, value)?),
    }
}

fn again_of(alloc: Global, done: &Known, again: &Val) -> Result<Kind, SuiteFault>
    ensures kind { IfOk result (λ kind. kind_by (tests_known done.now) (tree again.now) (Some (tree again.now)) ≡ Ok kind) }
    ensures fault { IfErr result (λ f. f ≢ Memory → kind_by (tests_known done.now) (tree again.now) (Some (tree again.now)) ≡ Err f) }
{
    let name = Text::of(alloc, text_or_empty(again.member("of")))?;
    match done.record_of(&name) {
        None => Err(SuiteFault::NoTest { name }),
        Some(of) => Ok(Kind::Again {
            of,
            from: names_of(alloc, again.member("from"))?,
            inputs: given_of(alloc, again.member("inputs"))?,
            schedule: text_or_none(alloc, again.member("schedule"))?,
        }),
    }
}

fn run_or_check(alloc: Global, value: &Val) -> Result<Kind, AllocError>
    ensures { IfOk result (λ kind. kind ≡ run_or_check (tree value.now)) }
{
    let inputs = value.member("inputs");
    if inputs.is_none() {
        return Ok(Kind::Check);
    }
    Ok(Kind::Run {
        inputs: given_of(alloc, inputs)?,
        schedule: text_or_none(alloc, value.member("schedule"))?,
        further: number_or_zero(value.member("schedules")),
        seed: number_or_zero(value.member("seed")),
    })
}
