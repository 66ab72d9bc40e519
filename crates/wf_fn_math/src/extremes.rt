//! The least and the greatest of numbers.
ghost use Rattle.std.specs.Prelude.{◌≡◌, ◌<◌, length, map, option_map};
ghost use Rattle.wf_val.specs.Arguments.{seen, given};
ghost use Rattle.wf_fn_math.specs.Extremes.{min_row, max_row, extreme_row, items_of_only, all_numbers, picked_of, place_named};
ghost use Rattle.wf_fn_math.specs.Extremes.{function_of, pick_of, better};
ghost use Rattle.wf_val.specs.Seen.{tree};

use wf_val::{EvalFault, Fun, Val, Vals, wrong_type};

// Which number is picked of several.
#[derive(Clone, Copy)]
enum Extreme {
    Least,
    Greatest,
}

impl Extreme {
    // The function that picks so.
    fn function(self) -> Fun
        ensures { result ≡ function_of self }
    {
        match self {
            Extreme::Least => Fun::Min,
            Extreme::Greatest => Fun::Max,
        }
    }

    // The one of two that is picked.
    fn of(self, one: i64, other: i64) -> i64
        ensures { result ≡ pick_of self one other }
    {
        match self {
            Extreme::Least => one.min(other),
            Extreme::Greatest => one.max(other),
        }
    }

    // What is picked of a further number and of those before it, if any.
    fn better(self, best: Option<i64>, number: i64) -> i64
        ensures { result ≡ better (pick_of self) best number }
    {
        match best {
            Some(best) => self.of(best, number),
            None => number,
        }
    }
}

/// `min`: the least of the arguments, or of the items where the only argument is a list; `Range` for an empty list. An
/// item that is no number is `WrongType` at place 1, the list's.
pub fn f_min(args: &Vals) -> Result<Val, EvalFault>
    requires { 0 < length args.now }
    ensures { seen result ≡ min_row args.now }
{
    picked_of_arguments(Extreme::Least, args)
}

/// `max`: the greatest of the arguments, or of the items where the only argument is a list; `Range` for an empty list.
/// An item that is no number is `WrongType` at place 1, the list's.
pub fn f_max(args: &Vals) -> Result<Val, EvalFault>
    requires { 0 < length args.now }
    ensures { seen result ≡ max_row args.now }
{
    picked_of_arguments(Extreme::Greatest, args)
}

// What is picked of the arguments, or of the items of the only one.
fn picked_of_arguments(which: Extreme, args: &Vals) -> Result<Val, EvalFault>
    ensures { seen result ≡ extreme_row (function_of which) (pick_of which) args.now }
{
    match items_of_only(args) {
        Some(items) => picked_of_values(which, items.as_slice(), true),
        None => picked_of_values(which, args.as_slice(), false),
    }
}

// The items of the only argument, where it is a list.
#[tactic(auto, using(wf_val::proofs::ValueTreeLemmas::listed))]
fn items_of_only(args: &Vals) -> Option<&Vals>
    ensures { option_map (λ v. v.now) result ≡ items_of_only args.now }
{
    if args.len() != 1 {
        return None;
    }
    match args.at(0) {
        Some(Val::List(items)) => Some(items),
        _ => None,
    }
}

// What is picked of the values, which are a list's items or the arguments.
fn picked_of_values(which: Extreme, values: &[Val], in_list: bool) -> Result<Val, EvalFault>
    ensures { seen result ≡ given (all_numbers (function_of which) in_list 0 (map tree values.now))
        (picked_of (function_of which) (pick_of which)) }
{
    let mut best: Option<i64> = None;
    for (place, value) in values.iter().enumerate() {
        match value {
            Val::Int(number) => best = Some(which.better(best, *number)),
            _ => {
                return Err(wrong_type(which.function(), place_named(in_list, place as u64)));
            }
        }
    }
    match best {
        Some(number) => Ok(Val::Int(number)),
        None => Err(EvalFault::Range {
            function: which.function(),
        }),
    }
}

// The place that a fault names, from 0: the list's is the first.
fn place_named(in_list: bool, place: u64) -> u64
    ensures { result ≡ place_named in_list place }
{
    if in_list { 0 } else { place }
}
