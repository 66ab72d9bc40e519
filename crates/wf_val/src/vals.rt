//! The items of a list.
ghost use Rattle.std.specs.Prelude.{◌≡◌, ◌<◌, ◌^◌, [], ◌∷◌, ◌++◌, length, map, IfOk, OnOk, OnErr, option_map, slice_get};
ghost use Rattle.wf_val.specs.Cut.{cut_u32, cut_u64};
ghost use Rattle.wf_val.specs.Held.{items_of, ItemsAreWeighed};
ghost use Rattle.wf_val.specs.Seen.{tree};
ghost use Rattle.wf_val.specs.ValueOrder.{trees_order};
ghost use Rattle.wf_val.specs.ValueTree.{trees, trees_depth, trees_weight};
ghost use Rattle.wf_val.specs.WellFormed.{AreValues};

use crate::val::{FEW, LIGHT, Size, Val};
use std::alloc::{AllocError, Global};
use std::cmp::Ordering;
use std::marker::Model;
use std::mem::replace;
use std::rc::Rc;
use std::slice::from_ref;

/// Values, as a list holds them (RFC 8259, section 5); seen as the list of their trees.
#[cycle(val)]
pub struct Vals {
    items: Items,
    alloc: Global,
}

// By hand, so that to let values go is one call for a check above, whatever they stand in.
impl Drop for Vals {
    #[cycle(let_go)]
    fn drop(self) {
        let Vals { items: _, alloc: _ } = self;
    }
}

// What a list holds, in a word and a tag, so that a value takes no more than a text does.
#[cycle(val)]
#[derive(Drop)]
enum Items {
    Empty,
    One(Box<Val>),
    Many(Box<Vec<Val>>),
    // what copies share
    Shared(Rc<WeighedItems>),
}

// Values that aren't changed any more, with the size of all.
#[cycle(val)]
#[derive(Drop)]
struct WeighedItems {
    items: Vec<Val>,
    size: Size,
}

impl Model for Vals {
    ghost use Rattle.std.specs.Prelude.{List, map};
    ghost use Rattle.std.specs.Coded.{coded_list};
    ghost use Rattle.wf_val.specs.ValueTree.{ValueTree};
    ghost use Rattle.wf_val.specs.ValueCode.{coded_value};

    ghost Value = { List ValueTree };

    ghost coded = { coded_list coded_value };

    ghost use Rattle.wf_val.specs.Held.{items_of, ItemsAreWeighed};
    ghost use Rattle.wf_val.specs.Seen.{tree};
    ghost use Rattle.wf_val.specs.NodeCounts.{count_of_list};

    ghost view = { λ a. map tree (items_of a.items) };

    ghost use Rattle.wf_val.specs.WellFormed.{AreValues};

    ghost invariant = { λ a. AreValues (map tree (items_of a.items)) × ItemsAreWeighed a.items };

    ghost size = { count_of_list };

    ghost use Rattle.std.proofs.Common.{arith};
    ghost use Rattle.wf_val.specs.NodeCountFalls.{deep_le-count_of_items};

    ghost size_decreases = { λ a h. Prim.omega (arith, deep_le-count_of_items a.items) };
}

impl Vals {
    /// No values.
    pub fn new(alloc: Global) -> Self
        ensures { result ≡ [] }
    {
        Vals {
            items: Items::Empty,
            alloc,
        }
    }

    /// No values, with room for so many.
    pub fn with_capacity(alloc: Global, capacity: usize) -> Result<Self, AllocError>
        ensures { IfOk result (λ v. v ≡ []) }
    {
        let items = Vec::with_capacity(alloc, capacity)?;
        Ok(Vals {
            items: Items::Many(Box::new(alloc, items)?),
            alloc,
        })
    }

    /// How many values there are.
    pub fn len(&self) -> u64
        ensures count { result ≡ length self.now }
        ensures in_range { result < 2 ^ 63 }
    {
        self.as_slice().len() as u64
    }

    /// The value at a place, counted from 0.
    pub fn at(&self, place: u64) -> Option<&Val>
        ensures { option_map (λ v. tree v.now) result ≡ slice_get self.now place }
    {
        self.as_slice().get(place as usize)
    }

    /// The values, for a loop.
    pub fn as_slice(&self) -> &[Val]
        ensures { map tree result.now ≡ self.now }
    {
        match &self.items {
            Items::Empty => &[],
            Items::One(item) => from_ref(item.as_ref()),
            Items::Many(items) => items.as_ref(),
            Items::Shared(shared) => &shared.as_ref().items,
        }
    }

    /// Adds a value behind the others. Values that copies share are copied first.
    pub fn push(&mut self, item: Val) -> Result<(), AllocError>
        ensures ok { OnOk result (self.new ≡ self.old ++ tree item ∷ []) }
        ensures err { OnErr result (self.new ≡ self.old) }
    {
        item.always_well_formed();
        match &mut self.items {
            Items::Empty => {
                self.items = Items::One(Box::new(self.alloc, item)?);
                Ok(())
            }
            Items::One(first) => {
                // all that can fail comes before the first value is moved
                let room = Vec::with_capacity(self.alloc, 4)?;
                let mut both = Box::new(self.alloc, room)?;
                both.push_reserved(replace(first.as_mut(), Val::Null));
                both.push_reserved(item);
                self.items = Items::Many(both);
                Ok(())
            }
            Items::Many(items) => {
                items.push(item)?;
                Ok(())
            }
            Items::Shared(_) => {
                *self = self.copy_with(self.alloc, item)?;
                Ok(())
            }
        }
    }

    /// The value at a place, counted from 0; of a list whose values are shared, a copy.
    pub fn into_item(self, alloc: Global, place: u64) -> Result<Option<Val>, AllocError>
        ensures { IfOk result (λ found. option_map tree found ≡ slice_get self place) }
    {
        if place >= self.len() {
            return Ok(None);
        }
        let Vals { items, alloc: _ } = self;
        match items {
            Items::Empty => Ok(None),
            Items::One(item) => Ok(Some(Box::into_inner(item))),
            Items::Many(items) => {
                let mut items = Box::into_inner(items);
                Ok(Some(items.swap_remove(place as usize)))
            }
            Items::Shared(shared) => {
                let item = shared.as_ref().items[place as usize].copy(alloc)?;
                Ok(Some(item))
            }
        }
    }

    /// Tells a caller what holds of every list, and does nothing.
    pub fn always_well_formed(&self)
        ensures { AreValues self.now }
    {
        let _ = &self.items;
    }

    /// An equal list. Where the values are shared already it shares them, and else it has copies of them.
    #[cycle(copy)]
    pub fn copy(&self, alloc: Global) -> Result<Vals, AllocError>
        ensures { IfOk result (λ v. v ≡ self.now) }
    {
        match &self.items {
            Items::Empty => Ok(Vals::new(alloc)),
            Items::One(item) => {
                let item = item.as_ref().copy(alloc)?;
                Ok(Vals {
                    items: Items::One(Box::new(alloc, item)?),
                    alloc,
                })
            }
            Items::Many(items) => {
                let mut copies = Vec::with_capacity(alloc, items.len())?;
                for item in items.as_ref() {
                    copies.push(item.copy(alloc)?)?;
                }
                Ok(Vals {
                    items: Items::Many(Box::new(alloc, copies)?),
                    alloc,
                })
            }
            Items::Shared(shared) => Ok(Vals {
                items: Items::Shared(shared.clone()?),
                alloc,
            }),
        }
    }

    /// A copy with one more value behind, and room for about a sixteenth more: `push` behind a `copy` would double its
    /// room, and what just the values take, given back, is too small for the next copy of a list that grows.
    pub fn copy_with(&self, alloc: Global, last: Val) -> Result<Vals, AllocError>
        ensures { IfOk result (λ v. v ≡ self.now ++ tree last ∷ []) }
    {
        last.always_well_formed();
        self.always_well_formed();
        let items = self.as_slice();
        let capacity = items
            .len()
            .saturating_add(items.len() / 16)
            .saturating_add(1);
        let mut copies = copies(alloc, items, capacity)?;
        copies.push(last)?;
        Ok(Vals {
            items: Items::Many(Box::new(alloc, copies)?),
            alloc,
        })
    }

    /// The same list, made so that a copy of it and its size take no walk: the values of a long list, and of each long
    /// one in it, are shared by copies from now on.
    #[cycle(share)]
    pub fn shared(self, alloc: Global) -> Result<Vals, AllocError>
        ensures { IfOk result (λ v. v ≡ self) }
    {
        if self.spare(LIGHT).is_some() {
            return Ok(self);
        }
        let Vals { items, alloc: _ } = self;
        match items {
            Items::Empty => Ok(Vals::new(alloc)),
            Items::One(item) => {
                let item = Box::into_inner(item).shared(alloc)?;
                let list = Vals {
                    items: Items::One(Box::new(alloc, item)?),
                    alloc,
                };
                list.weighed()
            }
            Items::Many(items) => {
                let mut parts = Vec::with_capacity(alloc, items.len())?;
                for item in Box::into_inner(items) {
                    parts.push(item.shared(alloc)?)?;
                }
                let list = Vals {
                    items: Items::Many(Box::new(alloc, parts)?),
                    alloc,
                };
                list.weighed()
            }
            Items::Shared(shared) => Ok(Vals {
                items: Items::Shared(shared),
                alloc,
            }),
        }
    }

    // The same list, whose values copies share if they are more than a copy may well take along.
    fn weighed(self) -> Result<Vals, AllocError>
        ensures { IfOk result (λ v. v ≡ self) }
    {
        let size = self.size();
        if size.weight <= LIGHT {
            return Ok(self);
        }
        let Vals { items, alloc } = self;
        let items = match items {
            Items::Empty => Items::Empty,
            Items::One(item) => {
                let mut items = Vec::with_capacity(alloc, 1)?;
                items.push(Box::into_inner(item))?;
                Items::Shared(Rc::new(alloc, WeighedItems { items, size })?)
            }
            Items::Many(items) => {
                let items = Box::into_inner(items);
                Items::Shared(Rc::new(alloc, WeighedItems { items, size })?)
            }
            Items::Shared(shared) => Items::Shared(shared),
        };
        Ok(Vals { items, alloc })
    }

    /// The same list, which isn't to grow any more: a list of several values that weigh much is shared by its copies from
    /// now on. What it holds stays as it is.
    pub fn settled(self) -> Result<Vals, AllocError>
        ensures { IfOk result (λ v. v ≡ self) }
    {
        let list = self.fitted()?;
        if list.len() < FEW {
            Ok(list)
        } else {
            list.weighed()
        }
    }

    // The same list without the room that no value of it needs. A short list is moved to a block of its size: room that
    // is given back behind it would be too small for another list that grows.
    fn fitted(self) -> Result<Vals, AllocError>
        ensures { IfOk result (λ v. v ≡ self) }
    {
        let Vals { items, alloc } = self;
        let items = match items {
            Items::Empty => Items::Empty,
            Items::One(item) => Items::One(item),
            Items::Many(items) => fitted(alloc, Box::into_inner(items))?,
            Items::Shared(shared) => Items::Shared(shared),
        };
        Ok(Vals { items, alloc })
    }

    /// How deep the deepest value in it nests, and how much all of them weigh; the list itself isn't counted
    /// (`Size::inside`).
    #[cycle(size)]
    pub fn size(&self) -> Size
        ensures depth { result.depth ≡ cut_u32 (trees_depth (trees self.now)) }
        ensures weight { result.weight ≡ cut_u64 (trees_weight (trees self.now)) }
    {
        match &self.items {
            Items::Empty => Size {
                depth: 0,
                weight: 0,
            },
            Items::One(item) => item.as_ref().size(),
            Items::Many(items) => {
                let mut depth = 0;
                let mut weight = 0;
                for item in items.as_ref() {
                    let size = item.size();
                    depth = size.depth.max(depth);
                    weight = size.weight.saturating_add(weight);
                }
                Size { depth, weight }
            }
            Items::Shared(shared) => shared.as_ref().size,
        }
    }

    // What is left of a weight once the values have taken theirs (`Val::spare`).
    #[cycle(spare)]
    pub(crate) fn spare(&self, room: u64) -> Option<u64> {
        match &self.items {
            Items::Empty => Some(room),
            Items::One(item) => item.as_ref().spare(room),
            Items::Many(items) => {
                let mut left = room;
                for item in items.as_ref() {
                    left = item.spare(left)?;
                }
                Some(left)
            }
            Items::Shared(shared) => room.checked_sub(shared.as_ref().size.weight),
        }
    }

    // Value by value; a front of a list is below the list.
    #[cycle(order)]
    pub(crate) fn order(&self, other: &Vals) -> Ordering
        ensures { result ≡ trees_order (trees self.now) (trees other.now) }
    {
        let items = self.as_slice();
        let others = other.as_slice();
        for (place, item) in items.iter().enumerate() {
            match others.get(place) {
                None => return Ordering::Greater,
                Some(against) => match item.order(against) {
                    Ordering::Equal => {}
                    unequal => return unequal,
                },
            }
        }
        if items.len() < others.len() {
            Ordering::Less
        } else {
            Ordering::Equal
        }
    }
}

// Copies of values, with room for so many.
fn copies(alloc: Global, items: &[Val], capacity: usize) -> Result<Vec<Val>, AllocError>
    ensures { IfOk result (λ v. map tree v.items ≡ map tree items.now) }
{
    let mut copies = Vec::with_capacity(alloc, capacity)?;
    for item in items {
        copies.push(item.copy(alloc)?)?;
    }
    Ok(copies)
}

// The same values without room for more.
fn fitted(alloc: Global, items: Vec<Val>) -> Result<Items, AllocError>
    ensures values { IfOk result (λ it. items_of it ≡ items.items) }
    ensures size { IfOk result ItemsAreWeighed }
{
    let mut items = items;
    if items.len() > 64 {
        items.shrink_to_fit();
        return Ok(Items::Many(Box::new(alloc, items)?));
    }
    if items.len() == 1 {
        let item = items.swap_remove(0);
        return Ok(Items::One(Box::new(alloc, item)?));
    }
    if items.is_empty() {
        return Ok(Items::Empty);
    }
    let mut exact = Vec::with_capacity(alloc, items.len())?;
    exact.append(&mut items)?;
    Ok(Items::Many(Box::new(alloc, exact)?))
}
