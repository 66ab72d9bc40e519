//! Lists and objects taken together.
ghost use Rattle.std.specs.Prelude.{◌≡◌, ◌≤◌, [], IfOk, OnOk, length, map};
ghost use Rattle.std.specs.List.{filter, flat_map, list_all};
ghost use Rattle.std.specs.List.Sorted.{IsSorted};
ghost use Rattle.wf_val.specs.Arguments.{seen, given, Gives, list_of, object_of};
ghost use Rattle.wf_val.specs.Seen.{tree};
ghost use Rattle.wf_val.specs.ValueTree.{ValueTree};
ghost use Rattle.wf_fn_sets.specs.Keys.{key_tree, key_cmp};
ghost use Rattle.wf_fn_list.specs.Membership.{is_among};
ghost use Rattle.wf_fn_sets.specs.Places.{placed_trees, placed_from};
ghost use Rattle.wf_fn_sets.specs.Sets.{union_row, intersection_row, lists_together, objects_together, each_from};
ghost use Rattle.wf_fn_sets.specs.Sets.{union_items, union_members, common_items, common_members, distinct, put_all, all_have};

use crate::key::Key;
use crate::references::{copies_of, items_of, push_items};
use std::alloc::{AllocError, Global};
use std::collections::BTreeMap;
use wf_val::{EvalFault, Fields, Fun, Text, Val, Vals, bounded, list_at, object_at, wrong_type};

/// `union`: of lists the distinct items, in order of first occurrence; of objects the members of all, and of those of one
/// name the last argument's. The first argument says whether lists are taken together, or objects.
pub fn f_union(alloc: Global, args: &Vals) -> Result<Val, EvalFault>
    requires { 2 ≤ length args.now }
    ensures { Gives (seen result) (union_row args.now) }
{
    match args.at(0) {
        Some(Val::List(_)) => union_of_lists(alloc, args),
        Some(Val::Obj(_)) => union_of_objects(alloc, args),
        _ => Err(wrong_type(Fun::Union, 0)),
    }
}

/// `intersection`: of lists the distinct items of the first that all have; of objects the members of the last whose names
/// all have. The first argument says whether lists are taken together, or objects.
pub fn f_intersection(alloc: Global, args: &Vals) -> Result<Val, EvalFault>
    requires { 2 ≤ length args.now }
    ensures { Gives (seen result) (intersection_row args.now) }
{
    match args.at(0) {
        Some(Val::List(_)) => intersection_of_lists(alloc, args),
        Some(Val::Obj(_)) => intersection_of_objects(alloc, args),
        _ => Err(wrong_type(Fun::Intersection, 0)),
    }
}

#[tactic(auto, using(crate::proofs::RestLemmas::joined_mapped))]
fn union_of_lists(alloc: Global, args: &Vals) -> Result<Val, EvalFault>
    ensures { Gives (seen result) (lists_together Fun.Union union_items args.now) }
{
    let lists = lists_at(alloc, Fun::Union, args)?;
    let items = items_of(alloc, lists.as_slice())?;
    let kept = distinct(alloc, items.as_slice())?;
    bounded(Val::List(copies_of(alloc, kept.as_slice())?))
}

#[tactic(auto, using(crate::proofs::RestLemmas::joined_mapped))]
fn union_of_objects(alloc: Global, args: &Vals) -> Result<Val, EvalFault>
    ensures { Gives (seen result) (objects_together Fun.Union union_members args.now) }
{
    let objects = objects_at(alloc, Fun::Union, args)?;
    let by_name = by_name(alloc, objects.as_slice())?;
    bounded(Val::Obj(object_of_entries(alloc, by_name)?))
}

fn intersection_of_lists(alloc: Global, args: &Vals) -> Result<Val, EvalFault>
    ensures { Gives (seen result) (lists_together Fun.Intersection common_items args.now) }
{
    let lists = lists_at(alloc, Fun::Intersection, args)?;
    let kept = common_items(alloc, lists.as_slice())?;
    bounded(Val::List(copies_of(alloc, kept.as_slice())?))
}

fn intersection_of_objects(alloc: Global, args: &Vals) -> Result<Val, EvalFault>
    ensures { Gives (seen result) (objects_together Fun.Intersection common_members args.now) }
{
    let objects = objects_at(alloc, Fun::Intersection, args)?;
    bounded(Val::Obj(common_members(alloc, objects.as_slice())?))
}

// The arguments as lists; the leftmost that is none is `WrongType`.
fn lists_at<'a>(alloc: Global, function: Fun, args: &'a Vals) -> Result<Vec<&'a Vals>, EvalFault>
    ensures { Gives (given result (λ v. Ok (map (λ l. l.now) v.items))) (each_from (list_of function) 0 args.now) }
{
    let mut lists = Vec::new(alloc);
    for place in 0..args.len() {
        lists.push(list_at(function, args, place)?)?;
    }
    Ok(lists)
}

// The arguments as objects; the leftmost that is none is `WrongType`.
fn objects_at<'a>(
    alloc: Global,
    function: Fun,
    args: &'a Vals,
) -> Result<Vec<&'a Fields>, EvalFault>
    ensures { Gives (given result (λ v. Ok (map (λ o. o.now) v.items))) (each_from (object_of function) 0 args.now) }
{
    let mut objects = Vec::new(alloc);
    for place in 0..args.len() {
        objects.push(object_at(function, args, place)?)?;
    }
    Ok(objects)
}

/// An item, and its place.
#[derive(Clone, Copy)]
pub(crate) struct Placed<'a> {
    pub(crate) item: Key<'a>,
    pub(crate) place: usize,
}

// Each value once, in order of first occurrence. A stable sort brings those that are equal together, the first of them in
// front, and the first goes back to where it stood.
fn distinct<'a>(alloc: Global, values: &[Key<'a>]) -> Result<Vec<Key<'a>>, AllocError>
    ensures { IfOk result (λ v. map key_tree v.items ≡ distinct (map key_tree values.now)) }
{
    let mut placed = with_places(alloc, values)?;
    placed.sort_by_key(|one| one.item)?;
    placed.dedup_by_key(|one| one.item);
    placed.sort_by_key(|one| one.place)?;
    items_of_placed(alloc, placed.as_slice())
}

// Each item with its place.
fn with_places<'a>(alloc: Global, values: &[Key<'a>]) -> Result<Vec<Placed<'a>>, AllocError>
    ensures { IfOk result (λ v. map placed_trees v.items ≡ placed_from 0 (map key_tree values.now)) }
{
    let mut placed = Vec::new(alloc);
    for (place, item) in values.iter().enumerate() {
        placed.push(Placed { item: *item, place })?;
    }
    Ok(placed)
}

// The items without their places.
fn items_of_placed<'a>(alloc: Global, placed: &[Placed<'a>]) -> Result<Vec<Key<'a>>, AllocError>
    ensures { IfOk result (λ v. map key_tree v.items ≡ map (λ e. key_tree e.item) placed.now) }
{
    let mut items = Vec::new(alloc);
    for one in placed {
        items.push(one.item)?;
    }
    Ok(items)
}

// The distinct items of the first list that all lists have.
fn common_items<'a>(alloc: Global, lists: &[&'a Vals]) -> Result<Vec<Key<'a>>, AllocError>
    ensures { IfOk result (λ v. map key_tree v.items ≡ common_items (map (λ l. l.now) lists.now)) }
{
    let Some((first, others)) = lists.split_first() else {
        return Ok(Vec::new(alloc));
    };
    let mut kept = Vec::new(alloc);
    push_items(&mut kept, first)?;
    let kept = in_all(alloc, others, kept)?;
    distinct(alloc, kept.as_slice())
}

// Of the values those that each list has.
fn in_all<'a>(
    alloc: Global,
    lists: &[&'a Vals],
    values: Vec<Key<'a>>,
) -> Result<Vec<Key<'a>>, AllocError>
    ensures { IfOk result (λ v. map key_tree v.items
        ≡ filter (λ x. list_all (λ ys. is_among ys x) (map (λ l. l.now) lists.now)) (map key_tree values.entry.items)) }
{
    let mut kept = values;
    for list in lists {
        kept = those_in(alloc, list, kept.as_slice())?;
    }
    Ok(kept)
}

// Of the values those that a list has.
fn those_in<'a>(
    alloc: Global,
    list: &'a Vals,
    values: &[Key<'a>],
) -> Result<Vec<Key<'a>>, AllocError>
    ensures { IfOk result (λ v. map key_tree v.items ≡ filter (is_among list.now) (map key_tree values.now)) }
{
    let there = sorted_items(alloc, list)?;
    let mut found = Vec::new(alloc);
    for value in values {
        if !has(there.as_slice(), value) {
            continue;
        }
        found.push(*value)?;
    }
    Ok(found)
}

// The items of a list in order, so that one is found by a binary search.
fn sorted_items<'a>(alloc: Global, list: &'a Vals) -> Result<Vec<Key<'a>>, AllocError>
    ensures same { IfOk result (λ v. (x : ValueTree) → is_among (map key_tree v.items) x ≡ is_among list.now x) }
    ensures in_order { IfOk result (λ v. IsSorted key_cmp v.items) }
{
    let mut items = Vec::new(alloc);
    push_items(&mut items, list)?;
    items.sort_unstable();
    Ok(items)
}

// Whether a value is among others, which are in order.
fn has(values: &[Key<'_>], value: &Key<'_>) -> bool
    requires { IsSorted key_cmp values.now }
    ensures { result ≡ is_among (map key_tree values.now) (key_tree value.now) }
{
    values.binary_search(value).is_ok()
}

// The members of several objects by their names; of two of one name the later stands.
fn by_name<'a>(
    alloc: Global,
    objects: &[&'a Fields],
) -> Result<BTreeMap<&'a str, &'a Val>, AllocError>
    ensures { IfOk result (λ m. map (λ e. (e.0.now, tree e.1.now)) m.entries ≡ put_all [] (flat_map (λ o. o.now) objects.now)) }
{
    let mut by_name = BTreeMap::new(alloc);
    for object in objects {
        put_members(&mut by_name, object)?;
    }
    Ok(by_name)
}

// The members of an object put to others, in place of those of their names.
fn put_members<'a>(
    by_name: &mut BTreeMap<&'a str, &'a Val>,
    object: &'a Fields,
) -> Result<(), AllocError>
    ensures { OnOk result (map (λ e. (e.0.now, tree e.1.now)) by_name.new.entries
        ≡ put_all (map (λ e. (e.0.now, tree e.1.now)) by_name.old.entries) object.now) }
{
    for member in object.as_slice() {
        let _earlier = by_name.insert(member.0.as_str(), &member.1)?;
    }
    Ok(())
}

// Names and values as the members of an object.
fn object_of_entries(alloc: Global, entries: BTreeMap<&str, &Val>) -> Result<Fields, AllocError>
    ensures { IfOk result (λ f. f ≡ map (λ e. (e.0.now, tree e.1.now)) entries.entry.entries) }
{
    let mut left = entries;
    let mut fields = Fields::new(alloc);
    while let Some((name, value)) = left.pop_first() {
        fields.append(Text::of(alloc, name)?, value.copy(alloc)?)?;
    }
    Ok(fields)
}

// The members of the last object whose names all objects have.
fn common_members(alloc: Global, objects: &[&Fields]) -> Result<Fields, AllocError>
    ensures { IfOk result (λ f. f ≡ common_members (map (λ o. o.now) objects.now)) }
{
    let mut common = Fields::new(alloc);
    let Some(last) = objects.last() else {
        return Ok(common);
    };
    for (name, value) in last.as_slice() {
        if !all_have(objects, name) {
            continue;
        }
        common.append(name.copy(alloc)?, value.copy(alloc)?)?;
    }
    Ok(common)
}

// Whether each object has a member of the name.
fn all_have(objects: &[&Fields], name: &Text) -> bool
    ensures { result ≡ all_have (map (λ o. o.now) objects.now) name.now }
{
    objects.iter().all(|object| object.get(name).is_some())
}
