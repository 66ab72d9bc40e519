//! The members of an object.
ghost use Rattle.std.specs.Prelude.{◌≡◌, [], ◌∷◌, ◌++◌, length, map, IfOk, IfErr, OnOk, OnErr, option_map, slice_get};
ghost use Rattle.std.specs.List.Sorted.{IsSearchInRange};
ghost use Rattle.std.specs.Ordering.{ordering_then};
ghost use Rattle.wf_val.specs.Cut.{cut_u32, cut_u64};
ghost use Rattle.wf_val.specs.Get.{name_of, value_of};
ghost use Rattle.wf_val.specs.Held.{members_of, MembersAreWeighed};
ghost use Rattle.wf_val.specs.NameOrder.{bytes_cmp, IsInNameOrder, IsAboveAll, put_named, without_named, IsPlace, IsGap};
ghost use Rattle.wf_val.specs.Seen.{tree, member};
ghost use Rattle.wf_val.specs.ValueOrder.{order, members_order};
ghost use Rattle.wf_val.specs.ValueTree.{object, members, members_depth, members_weight, weight};
ghost use Rattle.wf_val.specs.WellFormed.{AreMembers, IsWellFormed};

use crate::text::Text;
use crate::val::{FEW, LIGHT, Size, Val};
use std::alloc::{AllocError, Global};
use std::cmp::Ordering;
use std::marker::Model;
use std::rc::Rc;

/// The members of an object (RFC 8259, section 4), with distinct names in byte order; seen as the list of their
/// names and trees.
#[cycle(val)]
pub struct Fields {
    members: Members,
    alloc: Global,
}

// By hand, so that to let members go is one call for a check above, whatever they stand in.
impl Drop for Fields {
    #[cycle(let_go)]
    fn drop(self) {
        let Fields {
            members: _,
            alloc: _,
        } = self;
    }
}

// What an object holds, in a word and a tag, so that a value takes no more than a text does.
#[cycle(val)]
#[derive(Drop)]
enum Members {
    Empty,
    Own(Box<Vec<(Text, Val)>>),
    // what copies share
    Shared(Rc<WeighedMembers>),
}

// Members that aren't changed any more, with the size of all.
#[cycle(val)]
#[derive(Drop)]
struct WeighedMembers {
    members: Vec<(Text, Val)>,
    size: Size,
}

impl Model for Fields {
    ghost use Rattle.std.specs.Prelude.{List, map};
    ghost use Rattle.std.specs.Coded.{coded_list};
    ghost use Rattle.wf_val.specs.ValueTree.{Member};
    ghost use Rattle.wf_val.specs.ValueCode.{coded_member};

    ghost Value = { List Member };

    ghost coded = { coded_list coded_member };

    ghost use Rattle.wf_val.specs.Held.{members_of, MembersAreWeighed};
    ghost use Rattle.wf_val.specs.Seen.{member};
    ghost use Rattle.wf_val.specs.NodeCounts.{count_of_members};

    ghost view = { λ a. map member (members_of a.members) };

    ghost use Rattle.wf_val.specs.WellFormed.{AreMembers};

    ghost invariant = { λ a. AreMembers (map member (members_of a.members)) × MembersAreWeighed a.members };

    ghost size = { count_of_members };

    ghost use Rattle.std.proofs.Common.{arith};
    ghost use Rattle.wf_val.specs.NodeCountFalls.{deep_le-count_of_members};

    ghost size_decreases = { λ a h. Prim.omega (arith, deep_le-count_of_members a.members) };
}

impl Fields {
    /// No members.
    pub fn new(alloc: Global) -> Self
        ensures { result ≡ [] }
    {
        Fields {
            members: Members::Empty,
            alloc,
        }
    }

    /// No members, with room for so many.
    pub fn with_capacity(alloc: Global, capacity: usize) -> Result<Self, AllocError>
        ensures { IfOk result (λ f. f ≡ []) }
    {
        let members = Vec::with_capacity(alloc, capacity)?;
        Fields::of(alloc, members)
    }

    // The members of a vector.
    fn of(alloc: Global, members: Vec<(Text, Val)>) -> Result<Fields, AllocError>
        requires { AreMembers (map member members.items) }
        ensures { IfOk result (λ f. f ≡ map member members.items) }
    {
        Ok(Fields {
            members: Members::Own(Box::new(alloc, members)?),
            alloc,
        })
    }

    /// How many members there are.
    pub fn len(&self) -> u64
        ensures { result ≡ length self.now }
    {
        self.as_slice().len() as u64
    }

    /// The member at a place in the order of names, counted from 0.
    pub fn at(&self, place: u64) -> Option<&(Text, Val)>
        ensures { option_map (λ m. member m.now) result ≡ slice_get self.now place }
    {
        self.as_slice().get(place as usize)
    }

    /// The members in the order of their names, for a loop.
    pub fn as_slice(&self) -> &[(Text, Val)]
        ensures members { map member result.now ≡ self.now }
        ensures in_order { IsInNameOrder name_of self.now }
    {
        match &self.members {
            Members::Empty => &[],
            Members::Own(members) => members.as_ref(),
            Members::Shared(shared) => &shared.as_ref().members,
        }
    }

    /// The value of a name.
    pub fn get(&self, name: &Text) -> Option<&Val>
        ensures { option_map (λ v. tree v.now) result ≡ value_of name.now self.now }
    {
        self.member(name.as_str())
    }

    /// The value of a name that is no `Text`, such as a literal.
    pub fn member(&self, name: &str) -> Option<&Val>
        ensures { option_map (λ v. tree v.now) result ≡ value_of name.now self.now }
    {
        let members = self.as_slice();
        match place_of(members, name) {
            Ok(place) => Some(&members[place].1),
            Err(_) => None,
        }
    }

    /// Adds a member in its place, or replaces the one that has the name. It moves every member behind that place, so a
    /// reader that gets members in order uses `append`. Members that copies share are copied first.
    pub fn put(&mut self, name: Text, value: Val) -> Result<(), AllocError>
        ensures ok { OnOk result (self.new ≡ put_named name_of (name, tree value) self.old) }
        ensures err { OnErr result (self.new ≡ self.old) }
    {
        value.always_well_formed();
        match &mut self.members {
            Members::Own(members) => put_in(members, name, value),
            _ => {
                let mut own = self.own()?;
                put_in(&mut own, name, value)?;
                *self = Fields::of(self.alloc, own)?;
                Ok(())
            }
        }
    }

    /// Adds a member behind the others, for a reader that gets members in order.
    pub fn append(&mut self, name: Text, value: Val) -> Result<(), AllocError>
        requires { IsAboveAll name_of name self.old }
        ensures ok { OnOk result (self.new ≡ self.old ++ (name, tree value) ∷ []) }
        ensures err { OnErr result (self.new ≡ self.old) }
    {
        value.always_well_formed();
        let _ = name.as_str();
        match &mut self.members {
            Members::Own(members) => {
                members.push((name, value))?;
                Ok(())
            }
            _ => {
                let mut own = self.own()?;
                own.push((name, value))?;
                *self = Fields::of(self.alloc, own)?;
                Ok(())
            }
        }
    }

    /// Takes a member out, and answers its value. Members that copies share are copied first.
    pub fn remove(&mut self, name: &Text) -> Result<Option<Val>, AllocError>
        ensures value { IfOk result (λ found. option_map tree found ≡ value_of name.now self.old) }
        ensures ok { OnOk result (self.new ≡ without_named name_of name.now self.old) }
        ensures err { OnErr result (self.new ≡ self.old) }
    {
        match &mut self.members {
            Members::Own(members) => Ok(remove_from(members, name)),
            _ => {
                let mut own = self.own()?;
                let value = remove_from(&mut own, name);
                *self = Fields::of(self.alloc, own)?;
                Ok(value)
            }
        }
    }

    /// The value of a name; of an object whose members are shared, a copy.
    pub fn into_member(self, alloc: Global, name: &Text) -> Result<Option<Val>, AllocError>
        ensures { IfOk result (λ found. option_map tree found ≡ value_of name.now self) }
    {
        let Fields { members, alloc: _ } = self;
        match members {
            Members::Own(members) => {
                let mut members = Box::into_inner(members);
                Ok(remove_from(&mut members, name))
            }
            Members::Empty => Ok(None),
            Members::Shared(shared) => {
                let object = Fields {
                    members: Members::Shared(shared),
                    alloc,
                };
                match object.get(name) {
                    Some(value) => Ok(Some(value.copy(alloc)?)),
                    None => Ok(None),
                }
            }
        }
    }

    // Copies of the members.
    fn own(&self) -> Result<Vec<(Text, Val)>, AllocError>
        ensures same { IfOk result (λ v. map member v.items ≡ self.now) }
        ensures well_formed { IfOk result (λ v. AreMembers (map member v.items)) }
    {
        copies(self.alloc, self.as_slice())
    }

    /// Tells a caller what holds of every object's members, and does nothing.
    pub fn always_well_formed(&self)
        ensures { AreMembers self.now }
    {
        let _ = &self.members;
    }

    /// An equal object. Where the members are shared already it shares them, and else it has copies of them.
    #[cycle(copy)]
    pub fn copy(&self, alloc: Global) -> Result<Fields, AllocError>
        ensures { IfOk result (λ f. f ≡ self.now) }
    {
        match &self.members {
            Members::Empty => Ok(Fields::new(alloc)),
            Members::Own(members) => {
                let mut copies = Vec::with_capacity(alloc, members.len())?;
                for (name, value) in members.as_ref() {
                    copies.push((name.copy(alloc)?, value.copy(alloc)?))?;
                }
                Ok(Fields {
                    members: Members::Own(Box::new(alloc, copies)?),
                    alloc,
                })
            }
            Members::Shared(shared) => Ok(Fields {
                members: Members::Shared(shared.clone()?),
                alloc,
            }),
        }
    }

    /// The same object, made so that a copy of it and its size take no walk: its members, if they weigh much, and those
    /// of each such object in it, are shared by copies from now on.
    #[cycle(share)]
    pub fn shared(self, alloc: Global) -> Result<Fields, AllocError>
        ensures { IfOk result (λ f. f ≡ self) }
    {
        if self.spare(LIGHT).is_some() {
            return Ok(self);
        }
        let Fields { members, alloc: _ } = self;
        match members {
            Members::Empty => Ok(Fields::new(alloc)),
            Members::Own(members) => {
                let mut parts = Vec::with_capacity(alloc, members.len())?;
                for (name, value) in Box::into_inner(members) {
                    parts.push((name, value.shared(alloc)?))?;
                }
                let object = Fields {
                    members: Members::Own(Box::new(alloc, parts)?),
                    alloc,
                };
                object.weighed()
            }
            Members::Shared(shared) => Ok(Fields {
                members: Members::Shared(shared),
                alloc,
            }),
        }
    }

    /// The same object, which isn't to change any more: an object of several members that weigh much is shared by its
    /// copies from now on. What it holds stays as it is.
    pub fn settled(self) -> Result<Fields, AllocError>
        ensures { IfOk result (λ f. f ≡ self) }
    {
        if self.len() < FEW {
            Ok(self)
        } else {
            self.weighed()
        }
    }

    // The same object, whose members copies share if they are more than a copy may well take along.
    fn weighed(self) -> Result<Fields, AllocError>
        ensures { IfOk result (λ f. f ≡ self) }
    {
        let size = self.size();
        if size.weight <= LIGHT {
            return Ok(self);
        }
        let Fields { members, alloc } = self;
        let members = match members {
            Members::Empty => Members::Empty,
            Members::Own(members) => {
                let members = Box::into_inner(members);
                Members::Shared(Rc::new(alloc, WeighedMembers { members, size })?)
            }
            Members::Shared(shared) => Members::Shared(shared),
        };
        Ok(Fields { members, alloc })
    }

    /// The weight of an object that has them (`Val::weight`).
    pub fn weight(&self) -> u64
        ensures { result ≡ cut_u64 (weight (object (members self.now))) }
    {
        self.size().weight.saturating_add(1)
    }

    /// How deep the deepest value in it nests, and how much all members weigh; the object itself isn't counted
    /// (`Size::inside`).
    #[cycle(size)]
    pub fn size(&self) -> Size
        ensures depth { result.depth ≡ cut_u32 (members_depth (members self.now)) }
        ensures weight { result.weight ≡ cut_u64 (members_weight (members self.now)) }
    {
        match &self.members {
            Members::Empty => Size {
                depth: 0,
                weight: 0,
            },
            Members::Own(members) => {
                let mut depth = 0;
                let mut weight = 0;
                for (name, value) in members.as_ref() {
                    let size = value.size();
                    let named = (name.as_str().len() as u64).saturating_add(1);
                    depth = size.depth.max(depth);
                    weight = size.weight.saturating_add(named).saturating_add(weight);
                }
                Size { depth, weight }
            }
            Members::Shared(shared) => shared.as_ref().size,
        }
    }

    // What is left of a weight once the members have taken theirs (`Val::spare`).
    #[cycle(spare)]
    pub(crate) fn spare(&self, room: u64) -> Option<u64> {
        match &self.members {
            Members::Empty => Some(room),
            Members::Own(members) => {
                let mut left = room;
                for (name, value) in members.as_ref() {
                    let named = (name.as_str().len() as u64).saturating_add(1);
                    left = value.spare(left.checked_sub(named)?)?;
                }
                Some(left)
            }
            Members::Shared(shared) => room.checked_sub(shared.as_ref().size.weight),
        }
    }

    // Member by member; a front of the members is below them.
    #[cycle(order)]
    pub(crate) fn order(&self, other: &Fields) -> Ordering
        ensures { result ≡ members_order (members self.now) (members other.now) }
    {
        let members = self.as_slice();
        let others = other.as_slice();
        for (place, member) in members.iter().enumerate() {
            match others.get(place) {
                None => return Ordering::Greater,
                Some(against) => match order_members(member, against) {
                    Ordering::Equal => {}
                    unequal => return unequal,
                },
            }
        }
        if members.len() < others.len() {
            Ordering::Less
        } else {
            Ordering::Equal
        }
    }
}

// Copies of members.
fn copies(alloc: Global, members: &[(Text, Val)]) -> Result<Vec<(Text, Val)>, AllocError>
    ensures { IfOk result (λ v. map member v.items ≡ map member members.now) }
{
    let mut copies = Vec::with_capacity(alloc, members.len())?;
    for (name, value) in members {
        copies.push((name.copy(alloc)?, value.copy(alloc)?))?;
    }
    Ok(copies)
}

// Adds a member in its place, or replaces the one that has the name.
fn put_in(members: &mut Vec<(Text, Val)>, name: Text, value: Val) -> Result<(), AllocError>
    requires members { AreMembers (map member members.old.items) }
    requires value { IsWellFormed (tree value) }
    ensures ok { OnOk result (map member members.new.items ≡ put_named name_of (name, tree value) (map member members.old.items)) }
    ensures well_formed { AreMembers (map member members.new.items) }
    ensures err { OnErr result (members.new.items ≡ members.old.items) }
{
    match place_of(members, name.as_str()) {
        Ok(place) => {
            members[place] = (name, value);
            Ok(())
        }
        Err(place) => {
            members.insert(place, (name, value))?;
            Ok(())
        }
    }
}

// Takes a member out.
fn remove_from(members: &mut Vec<(Text, Val)>, name: &Text) -> Option<Val>
    requires { AreMembers (map member members.old.items) }
    ensures value { option_map tree result ≡ value_of name.now (map member members.old.items) }
    ensures rest { map member members.new.items ≡ without_named name_of name.now (map member members.old.items) }
    ensures well_formed { AreMembers (map member members.new.items) }
{
    match place_of(members, name.as_str()) {
        Ok(place) => {
            let (_, value) = members.remove(place);
            Some(value)
        }
        Err(_) => None,
    }
}

// By name, and then by value.
#[cycle(order)]
fn order_members(one: &(Text, Val), other: &(Text, Val)) -> Ordering
    ensures { result ≡ ordering_then (bytes_cmp one.now.0 other.now.0) (order (tree one.now.1) (tree other.now.1)) }
{
    match one.0.order(&other.0) {
        Ordering::Equal => one.1.order(&other.1),
        unequal => unequal,
    }
}

// The place of the name among the members, or where it would go.
fn place_of(members: &[(Text, Val)], name: &str) -> Result<usize, usize>
    requires { IsInNameOrder name_of (map member members.now) }
    ensures in_range { IsSearchInRange result (length members.now) }
    ensures place { IfOk result (IsPlace name_of name.now (map member members.now)) }
    ensures gap { IfErr result (IsGap name_of name.now (map member members.now)) }
{
    members.binary_search_by(|member| member.0.as_str().cmp(name))
}
