//! The union of arguments, put together as they come.
ghost use Rattle.std.specs.Prelude.{◌≡◌, IfOk};
ghost use Rattle.wf_val.specs.Arguments.{Gives, seen};
ghost use Rattle.wf_val.specs.Seen.{tree};
ghost use Rattle.wf_folds.specs.United.{nothing_united, with_argument, united_answer, held_answer, held_with, held_with_items};
ghost use Rattle.wf_folds.specs.United.{held_with_members, refused_at};
ghost use Rattle.wf_folds.specs.UnitedSeen.{held_seen, united_seen};

use crate::items::Items;
use crate::members::{object_of, with_members};
use std::alloc::{AllocError, Global};
use std::collections::BTreeMap;
use wf_val::{EvalFault, Fields, Fun, Text, Val, Vals, bounded, wrong_type};

/// What the arguments so far come to.
#[derive(Drop)]
pub(crate) enum Held {
    /// There is none yet.
    Nothing,
    /// All are lists.
    Lists(Items),
    /// All are objects.
    Objects(BTreeMap<Text, Val>),
    /// One is of the wrong type.
    Refused(EvalFault),
}

/// The union of the arguments so far, and how many they are.
#[derive(Drop)]
pub struct United {
    pub(crate) held: Held,
    pub(crate) count: u64,
}

impl United {
    /// Without arguments.
    pub fn new() -> United
        ensures { united_seen result ≡ nothing_united }
    {
        United {
            held: Held::Nothing,
            count: 0,
        }
    }

    /// With an argument more, behind those that are there.
    pub fn with(self, alloc: Global, value: Val) -> Result<United, AllocError>
        ensures { IfOk result (λ united. united_seen united ≡ with_argument (tree value) (united_seen self)) }
    {
        let United { held, count } = self;
        Ok(United {
            held: held_with(alloc, held, count, &value)?,
            count: count.saturating_add(1),
        })
    }

    /// What `union` gives of its arguments.
    pub fn answer(self, alloc: Global) -> Result<Val, EvalFault>
        ensures { Gives (seen result) (united_answer (united_seen self)) }
    {
        let United { held, count } = self;
        if !Fun::Union.takes(count) {
            return Err(wrong_type(Fun::Union, count));
        }
        held_answer(alloc, held)
    }
}

fn held_answer(alloc: Global, held: Held) -> Result<Val, EvalFault>
    ensures { Gives (seen result) (held_answer (held_seen held)) }
{
    match held {
        Held::Nothing => Err(wrong_type(Fun::Union, 0)),
        Held::Lists(Items { distinct, there: _ }) => distinct.answer(),
        Held::Objects(by_name) => bounded(Val::Obj(object_of(alloc, by_name)?)),
        Held::Refused(fault) => Err(fault),
    }
}

// What is held with an argument more at this place, counted from 0.
#[tactic(auto, using(wf_val::proofs::ValueTreeLemmas::listed))]
fn held_with(alloc: Global, held: Held, place: u64, value: &Val) -> Result<Held, AllocError>
    ensures { IfOk result (λ h. held_seen h ≡ held_with place (held_seen held) (tree value.now)) }
{
    match value {
        Val::List(list) => held_with_items(alloc, held, place, list),
        Val::Obj(object) => held_with_members(alloc, held, place, object),
        _ => Ok(refused_at(held, place)),
    }
}

fn held_with_items(alloc: Global, held: Held, place: u64, list: &Vals) -> Result<Held, AllocError>
    ensures { IfOk result (λ h. held_seen h ≡ held_with_items place list.now (held_seen held)) }
{
    match held {
        Held::Nothing => Ok(Held::Lists(Items::new(alloc).with_all(alloc, list)?)),
        Held::Lists(items) => Ok(Held::Lists(items.with_all(alloc, list)?)),
        other => Ok(refused_at(other, place)),
    }
}

fn held_with_members(
    alloc: Global,
    held: Held,
    place: u64,
    object: &Fields,
) -> Result<Held, AllocError>
    ensures { IfOk result (λ h. held_seen h ≡ held_with_members place object.now (held_seen held)) }
{
    match held {
        Held::Nothing => Ok(Held::Objects(with_members(alloc, BTreeMap::new(alloc), object)?)),
        Held::Objects(by_name) => Ok(Held::Objects(with_members(alloc, by_name, object)?)),
        other => Ok(refused_at(other, place)),
    }
}

// An argument at this place is of the wrong type; the leftmost such is told.
fn refused_at(held: Held, place: u64) -> Held
    ensures { held_seen result ≡ refused_at place (held_seen held) }
{
    match held {
        Held::Refused(fault) => Held::Refused(fault),
        _ => Held::Refused(wrong_type(Fun::Union, place)),
    }
}
