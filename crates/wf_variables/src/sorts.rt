//! The types of variables.
ghost use Rattle.std.specs.Prelude.{◌≡◌};
ghost use Rattle.wf_val.specs.Arguments.{seen};
ghost use Rattle.wf_val.specs.Seen.{tree};
ghost use Rattle.wf_variables.specs.Sorts.{are_alike, empty_of, of_sort, sort_name};

use std::alloc::Global;
use wf_def::Sort;
use wf_val::{EvalFault, Fields, Fun, Text, Val, Vals, wrong_type};

/// The value, where it is of the type; else the fault of a variable.
pub(crate) fn of_sort(sort: Sort, value: Val) -> Result<Val, EvalFault>
    ensures { seen result ≡ of_sort sort (tree value) }
{
    if sort.has(&value) {
        Ok(value)
    } else {
        Err(wrong_type(Fun::Variable, 0))
    }
}

/// Whether two values are of one type; null is of none.
pub(crate) fn are_alike(one: &Val, other: &Val) -> bool
    ensures { result ≡ are_alike (tree one.now) (tree other.now) }
{
    match one {
        Val::Null => false,
        Val::Bool(_) => Sort::Bool.has(other),
        Val::Int(_) => Sort::Int.has(other),
        Val::Text(_) => Sort::Text.has(other),
        Val::List(_) => Sort::List.has(other),
        Val::Obj(_) => Sort::Obj.has(other),
    }
}

/// The name of a type, as definitions write it, in lower case.
pub(crate) fn sort_name(sort: Sort) -> &'static str
    ensures { result.now ≡ sort_name sort }
{
    match sort {
        Sort::Bool => "boolean",
        Sort::Int => "integer",
        Sort::Text => "string",
        Sort::List => "array",
        Sort::Obj => "object",
    }
}

/// The value with which a variable of the type begins where none is given.
pub(crate) fn empty_of(alloc: Global, sort: Sort) -> Val
    ensures { tree result ≡ empty_of sort }
{
    match sort {
        Sort::Bool => Val::Bool(false),
        Sort::Int => Val::Int(0),
        Sort::Text => Val::Text(Text::from_string(String::new(alloc))),
        Sort::List => Val::List(Vals::new(alloc)),
        Sort::Obj => Val::Obj(Fields::new(alloc)),
    }
}
