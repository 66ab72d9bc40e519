//! Values, each taken with what those before it come to.
ghost use Rattle.std.specs.Prelude.{◌≡◌, ◌≢◌, [], ◌∷◌, Err, IfOk};
ghost use Rattle.wf_val.specs.declared.fault.EvalFault.TheVariants.{Memory};
ghost use Rattle.wf_val.specs.Arguments.{Gives, seen};
ghost use Rattle.wf_val.specs.Seen.{tree};
ghost use Rattle.wf_functions.specs.Rows.{strict_row};
ghost use Rattle.wf_folds.specs.Paired.{nothing_paired, with_value, paired_answer, so_far_with, so_far_of, at_place};
ghost use Rattle.wf_folds.specs.PairedSeen.{paired_seen, so_far};

use std::alloc::{AllocError, Global};
use wf_functions::strict_row;
use wf_val::{EvalFault, Fun, Val, Vals, wrong_type};

/// What the arguments so far come to.
#[derive(Drop)]
pub(crate) enum Kept {
    /// There is none yet.
    Nothing,
    /// The only one, as it is.
    Only(Val),
    /// The value of two or more.
    Together(Val),
    /// The fault of two or more.
    Refused(EvalFault),
}

/// A function, what its arguments so far come to, and how many they are.
#[derive(Drop)]
pub struct Paired {
    pub(crate) function: Fun,
    pub(crate) kept: Kept,
    pub(crate) count: u64,
}

impl Paired {
    /// The function without arguments.
    pub fn new(function: Fun) -> Paired
        ensures { paired_seen result ≡ nothing_paired function }
    {
        Paired {
            function,
            kept: Kept::Nothing,
            count: 0,
        }
    }

    /// With an argument more, behind those that are there.
    pub fn with(self, alloc: Global, value: Val) -> Result<Paired, AllocError>
        ensures { IfOk result (λ paired. paired_seen paired ≡ with_value (tree value) (paired_seen self)) }
    {
        let Paired {
            function,
            kept,
            count,
        } = self;
        Ok(Paired {
            function,
            kept: kept_with(alloc, function, count, kept, value)?,
            count: count.saturating_add(1),
        })
    }

    /// What the function gives of its arguments; whether that fits isn't tested.
    pub fn answer(self, alloc: Global) -> Result<Val, EvalFault>
        ensures { Gives (seen result) (paired_answer (paired_seen self)) }
    {
        let Paired {
            function,
            kept,
            count: _,
        } = self;
        match kept {
            Kept::Nothing => strict_row(alloc, function, &Vals::new(alloc)),
            Kept::Only(value) => of_one(alloc, function, value),
            Kept::Together(value) => Ok(value),
            Kept::Refused(fault) => Err(fault),
        }
    }
}

// What is kept with an argument more at this place, counted from 0.
fn kept_with(
    alloc: Global,
    function: Fun,
    place: u64,
    kept: Kept,
    value: Val,
) -> Result<Kept, AllocError>
    ensures { IfOk result (λ k. so_far k ≡ so_far_with function place (so_far kept) (tree value)) }
{
    match kept {
        Kept::Nothing => Ok(Kept::Only(value)),
        Kept::Only(first) => Ok(kept_of(of_two(alloc, function, first, value)?)),
        Kept::Together(others) => {
            let answer = of_two(alloc, function, others, value)?;
            Ok(kept_of(at_place(place, answer)))
        }
        Kept::Refused(fault) => Ok(Kept::Refused(fault)),
    }
}

fn kept_of(answer: Result<Val, EvalFault>) -> Kept
    ensures { so_far result ≡ so_far_of (seen answer) }
{
    match answer {
        Ok(value) => Kept::Together(value),
        Err(fault) => Kept::Refused(fault),
    }
}

// An argument of the wrong type is told at its own place.
fn at_place(place: u64, answer: Result<Val, EvalFault>) -> Result<Val, EvalFault>
    ensures { seen result ≡ at_place place (seen answer) }
{
    match answer {
        Err(EvalFault::WrongType { function, place: _ }) => Err(wrong_type(function, place)),
        answer => answer,
    }
}

// What the function gives of one value.
fn of_one(alloc: Global, function: Fun, value: Val) -> Result<Val, EvalFault>
    ensures { Gives (seen result) (strict_row function (tree value ∷ [])) }
{
    let mut values = Vals::new(alloc);
    values.push(value)?;
    strict_row(alloc, function, &values)
}

// What the function gives of two values.
fn of_two(
    alloc: Global,
    function: Fun,
    first: Val,
    second: Val,
) -> Result<Result<Val, EvalFault>, AllocError>
    ensures { IfOk result (λ answer. seen answer ≡ strict_row function (tree first ∷ tree second ∷ [])) }
{
    let mut both = Vals::new(alloc);
    both.push(first)?;
    both.push(second)?;
    let answer = strict_row(alloc, function, &both);
    Ok(unless_memory(answer)?)
}

// The answer, where memory didn't run out.
fn unless_memory(answer: Result<Val, EvalFault>) -> Result<Result<Val, EvalFault>, AllocError>
    ensures same { IfOk result (λ told. seen told ≡ seen answer) }
    ensures apart { IfOk result (λ _. seen answer ≢ Err Memory) }
{
    match answer {
        Ok(value) => Ok(Ok(value)),
        Err(fault) => {
            if fault.is_memory() {
                return Err(AllocError);
            }
            Ok(Err(fault))
        }
    }
}
