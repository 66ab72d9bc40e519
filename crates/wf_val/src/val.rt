//! A value.
ghost use Rattle.std.specs.Prelude.{◌≡◌, suc, ◌↔◌, IsTrue, IfOk, OnOk, OnErr, option_map};
ghost use Rattle.std.specs.Cmp.{IsTotalOrder};
ghost use Rattle.wf_val.specs.Cut.{cut_u32, cut_u64};
ghost use Rattle.wf_val.specs.Get.{get, item, put, without, is_object};
ghost use Rattle.wf_val.specs.Seen.{tree};
ghost use Rattle.wf_val.specs.ValueOrder.{order, rank};
ghost use Rattle.wf_val.specs.ValueTree.{ValueTree, depth, weight, fits, Fits};
ghost use Rattle.wf_val.specs.WellFormed.{IsWellFormed};

use crate::fields::Fields;
use crate::text::Text;
use crate::vals::Vals;
use std::alloc::{AllocError, Global};
use std::cmp::Ordering;
use wf_lists::TryCopy;

/// What JSON can write (RFC 8259, section 3), but that a number is whole.
#[cycle(val)]
#[derive(Drop)]
pub enum Val {
    Null,
    Bool(bool),
    Int(i64),
    Text(Text),
    List(Vals),
    Obj(Fields),
}

// What a copy may well take along: a list or an object that weighs more is shared (`Val::shared`).
pub(crate) const LIGHT: u64 = 256;

// Where fewer values stand in one, a copy takes those along, each of which may be shared (`Vals::settled`). So a reader
// that settles each list as it ends doesn't weigh the inside of a chain of lists at each of its levels.
pub(crate) const FEW: u64 = 8;

/// The depth and the weight of a value (`Val::depth`, `Val::weight`), each cut to the greatest of its type.
#[derive(Clone, Copy, PartialEq, Eq, Debug)]
pub struct Size {
    pub depth: u32,
    pub weight: u64,
}

impl Size {
    /// The size of a list or an object that holds what has this size.
    pub fn inside(self) -> Size
        ensures depth { result.depth ≡ cut_u32 (suc self.depth) }
        ensures weight { result.weight ≡ cut_u64 (suc self.weight) }
    {
        Size {
            depth: self.depth.saturating_add(1),
            weight: self.weight.saturating_add(1),
        }
    }
}

impl Val {
    /// How deep the value nests and how much it weighs, in one walk.
    #[cycle(size)]
    pub fn size(&self) -> Size
        ensures depth { result.depth ≡ cut_u32 (depth (tree self.now)) }
        ensures weight { result.weight ≡ cut_u64 (weight (tree self.now)) }
    {
        match self {
            Val::Null | Val::Bool(_) | Val::Int(_) => Size {
                depth: 0,
                weight: 1,
            },
            Val::Text(text) => Size {
                depth: 0,
                weight: (text.as_str().len() as u64).saturating_add(1),
            },
            Val::List(items) => items.size().inside(),
            Val::Obj(fields) => fields.size().inside(),
        }
    }

    /// How deep lists and objects nest: 0 for a scalar, 1 for an empty list. Cut to the greatest u32.
    pub fn depth(&self) -> u32
        ensures { result ≡ cut_u32 (depth (tree self.now)) }
    {
        self.size().depth
    }

    /// How large the value is: 1 for itself and for each value and member in it, and the bytes of texts and names.
    /// Cut to the greatest u64.
    pub fn weight(&self) -> u64
        ensures { result ≡ cut_u64 (weight (tree self.now)) }
    {
        self.size().weight
    }

    /// Whether an expression may have the value.
    pub fn fits(&self) -> bool
        ensures within { IsTrue result ↔ Fits (tree self.now) }
        ensures test { result ≡ fits (tree self.now) }
    {
        let size = self.size();
        size.depth <= 64 && size.weight <= 1 << 20
    }

    /// The value of a member; none where this is no object.
    pub fn get(&self, name: &Text) -> Option<&Val>
        ensures { option_map (λ v. tree v.now) result ≡ get name.now (tree self.now) }
    {
        self.member(name.as_str())
    }

    /// The value of a member whose name is no `Text`, such as a literal.
    #[tactic(auto, using(crate::proofs::ValueTreeLemmas::listed))]
    pub fn member(&self, name: &str) -> Option<&Val>
        ensures { option_map (λ v. tree v.now) result ≡ get name.now (tree self.now) }
    {
        match self {
            Val::Obj(fields) => fields.member(name),
            _ => None,
        }
    }

    /// The item at a place, counted from 0; none where this is no list.
    #[tactic(auto, using(crate::proofs::ValueTreeLemmas::listed))]
    pub fn item(&self, place: u64) -> Option<&Val>
        ensures { option_map (λ v. tree v.now) result ≡ item place (tree self.now) }
    {
        match self {
            Val::List(items) => items.at(place),
            _ => None,
        }
    }

    /// Adds a member, or replaces the value of the one that has the name.
    #[tactic(auto, using(crate::proofs::ValueTreeLemmas::listed))]
    pub fn put(&mut self, name: Text, value: Val) -> Result<(), AllocError>
        requires { IsTrue (is_object (tree self.old)) }
        ensures ok { OnOk result (tree self.new ≡ put name (tree value) (tree self.old)) }
        ensures err { OnErr result (tree self.new ≡ tree self.old) }
    {
        match self {
            Val::Obj(fields) => fields.put(name, value),
            _ => Ok(()),
        }
    }

    /// Takes a member out, and answers its value; none where this is no object.
    #[tactic(auto, using(crate::proofs::ValueTreeLemmas::listed))]
    pub fn remove(&mut self, name: &Text) -> Result<Option<Val>, AllocError>
        ensures value { IfOk result (λ found. option_map tree found ≡ get name.now (tree self.old)) }
        ensures ok { OnOk result (tree self.new ≡ without name.now (tree self.old)) }
        ensures err { OnErr result (tree self.new ≡ tree self.old) }
    {
        match self {
            Val::Obj(fields) => fields.remove(name),
            _ => Ok(None),
        }
    }

    /// The value of a member; none where this is no object.
    #[tactic(auto, using(crate::proofs::ValueTreeLemmas::listed))]
    pub fn into_member(self, alloc: Global, name: &Text) -> Result<Option<Val>, AllocError>
        ensures { IfOk result (λ found. option_map tree found ≡ get name.now (tree self)) }
    {
        match self {
            Val::Obj(fields) => fields.into_member(alloc, name),
            _ => Ok(None),
        }
    }

    /// The item at a place, counted from 0; none where this is no list.
    #[tactic(auto, using(crate::proofs::ValueTreeLemmas::listed))]
    pub fn into_item(self, alloc: Global, place: u64) -> Result<Option<Val>, AllocError>
        ensures { IfOk result (λ found. option_map tree found ≡ item place (tree self)) }
    {
        match self {
            Val::List(items) => items.into_item(alloc, place),
            _ => Ok(None),
        }
    }

    /// By kind (null, Booleans, numbers, texts, lists, objects), and within a kind by what the values hold.
    #[cycle(order)]
    pub fn order(&self, other: &Val) -> Ordering
        ensures { result ≡ order (tree self.now) (tree other.now) }
    {
        match (self, other) {
            (Val::Bool(one), Val::Bool(two)) => one.cmp(two),
            (Val::Int(one), Val::Int(two)) => one.cmp(two),
            (Val::Text(one), Val::Text(two)) => one.order(two),
            (Val::List(one), Val::List(two)) => one.order(two),
            (Val::Obj(one), Val::Obj(two)) => one.order(two),
            _ => self.rank().cmp(&other.rank()),
        }
    }

    // The place of its kind among the kinds.
    fn rank(&self) -> u8
        ensures { result ≡ rank (tree self.now) }
    {
        match self {
            Val::Null => 0,
            Val::Bool(_) => 1,
            Val::Int(_) => 2,
            Val::Text(_) => 3,
            Val::List(_) => 4,
            Val::Obj(_) => 5,
        }
    }

    /// Whether two values are equal. No value of one kind equals one of another: true isn't 1.
    pub fn same(&self, other: &Val) -> bool
        ensures { IsTrue result ↔ (tree self.now ≡ tree other.now) }
    {
        self.order(other) == Ordering::Equal
    }

    /// Tells a caller what holds of every value, and does nothing.
    #[tactic(auto, using(crate::proofs::ValueTreeLemmas::listed))]
    pub fn always_well_formed(&self)
        ensures { IsWellFormed (tree self.now) }
    {
        match self {
            Val::Null | Val::Bool(_) => {}
            Val::Int(number) => {
                let _number = *number;
            }
            Val::Text(text) => {
                let _ = text.as_str();
            }
            Val::List(items) => items.always_well_formed(),
            Val::Obj(fields) => fields.always_well_formed(),
        }
    }

    #[cycle(copy)]
    pub fn copy(&self, alloc: Global) -> Result<Val, AllocError>
        ensures { IfOk result (λ v. v ≡ self.now) }
    {
        match self {
            Val::Null => Ok(Val::Null),
            Val::Bool(value) => Ok(Val::Bool(*value)),
            Val::Int(value) => Ok(Val::Int(*value)),
            Val::Text(text) => Ok(Val::Text(text.copy(alloc)?)),
            Val::List(items) => Ok(Val::List(items.copy(alloc)?)),
            Val::Obj(fields) => Ok(Val::Obj(fields.copy(alloc)?)),
        }
    }

    /// The same value, made so that to copy it and to measure it take no walk, but of texts and of what is small: lists
    /// and objects that weigh much are shared by copies from now on. It's for a value that has a name, which is copied
    /// and measured at each use.
    #[cycle(share)]
    pub fn shared(self, alloc: Global) -> Result<Val, AllocError>
        ensures { IfOk result (λ v. v ≡ self) }
    {
        match self {
            Val::List(items) => Ok(Val::List(items.shared(alloc)?)),
            Val::Obj(fields) => Ok(Val::Obj(fields.shared(alloc)?)),
            scalar => Ok(scalar),
        }
    }

    // What is left of a weight once the value has taken its own; none where that is more. Unlike `weight`, it looks at no
    // more of a large value than it has to.
    #[cycle(spare)]
    pub(crate) fn spare(&self, room: u64) -> Option<u64> {
        let left = room.checked_sub(1)?;
        match self {
            Val::Null | Val::Bool(_) | Val::Int(_) => Some(left),
            Val::Text(text) => left.checked_sub(text.as_str().len() as u64),
            Val::List(items) => items.spare(left),
            Val::Obj(fields) => fields.spare(left),
        }
    }
}

impl TryCopy for Val {
    fn copy(&self, alloc: Global) -> Result<Self, AllocError> {
        Val::copy(self, alloc)
    }
}

/// The order of values is total: it answers the other way round for the other way round, it passes on, and only
/// equal values tie. Tells a caller so, and does nothing.
pub fn order_is_total()
    ensures total { IsTotalOrder order }
    ensures exact { (x y : ValueTree) → (order x y ≡ Ordering.Equal) ↔ (x ≡ y) }
{}
