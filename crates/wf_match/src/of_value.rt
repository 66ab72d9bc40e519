//! Where a value differs from what is expected of it.
ghost use Rattle.std.specs.Prelude.{◌≡◌, ◌↔◌, ◌++◌, [], Some, IfOk, OnOk, map, option_map, string_bytes};
ghost use Rattle.wf_json.specs.Pointer.{member_step};
ghost use Rattle.wf_match.specs.Differences.{differences, in_members, is_equal, one, unless_equal};
ghost use Rattle.wf_match.specs.Holds.{Holds};
ghost use Rattle.wf_match.specs.Told.{told};
ghost use Rattle.wf_val.specs.Seen.{tree};
ghost use Rattle.wf_val.specs.ValueTree.{members};

use crate::difference::Difference;
use std::alloc::{AllocError, Global};
use wf_json::pointer::step_to;
use wf_val::{Fields, Text, Val};

/// Where a value differs from what is expected of it, in the order of the expectation; pointers are from the value on.
pub fn differences(
    alloc: Global,
    expected: &Val,
    found: &Val,
) -> Result<Vec<Difference>, AllocError>
    ensures exact { IfOk result (λ v. map told v.items ≡ differences [] (tree expected.now) (Some (tree found.now))) }
    ensures none { IfOk result (λ v. (v.items ≡ []) ↔ Holds (tree expected.now) (Some (tree found.now))) }
{
    let mut all = Vec::new(alloc);
    differ(alloc, &mut all, "", expected, Some(found))?;
    expected.always_well_formed();
    Ok(all)
}

// Adds the differences at a place and below it.
#[cycle(differ)]
#[tactic(auto, using(wf_val::proofs::ValueTreeLemmas::listed))]
pub(crate) fn differ(
    alloc: Global,
    all: &mut Vec<Difference>,
    at: &str,
    expected: &Val,
    found: Option<&Val>,
) -> Result<(), AllocError>
    ensures { OnOk result (map told all.new.items
        ≡ map told all.old.items ++ differences at.now (tree expected.now) (option_map (λ v. tree v.now) found.entry)) }
{
    match (expected, found) {
        (Val::Obj(members), Some(Val::Obj(there))) => {
            differ_in_members(alloc, all, at, members, there)
        }
        _ => tell_unless_equal(alloc, all, at, expected, found),
    }
}

// Adds the differences in the members that are expected.
#[cycle(differ)]
fn differ_in_members(
    alloc: Global,
    all: &mut Vec<Difference>,
    at: &str,
    expected: &Fields,
    found: &Fields,
) -> Result<(), AllocError>
    ensures { OnOk result (map told all.new.items
        ≡ map told all.old.items ++ in_members at.now (members expected.now) found.now) }
{
    for (name, member) in expected.as_slice() {
        let place = member_pointer(alloc, at, name.as_str())?;
        differ(alloc, all, place.as_str(), member, found.get(name))?;
    }
    Ok(())
}

// The pointer to a member of what is at a pointer.
fn member_pointer(alloc: Global, at: &str, name: &str) -> Result<String, AllocError>
    ensures { IfOk result (λ p. string_bytes p ≡ at.now ++ member_step name.now) }
{
    let mut pointer = String::from_str(alloc, at)?;
    pointer.push_str(step_to(alloc, name)?.as_str())?;
    Ok(pointer)
}

// Adds a difference where a value that isn't looked into is another.
fn tell_unless_equal(
    alloc: Global,
    all: &mut Vec<Difference>,
    at: &str,
    expected: &Val,
    found: Option<&Val>,
) -> Result<(), AllocError>
    ensures { OnOk result (map told all.new.items
        ≡ map told all.old.items ++ unless_equal at.now (tree expected.now) (option_map (λ v. tree v.now) found.entry)) }
{
    if is_equal(expected, found) {
        Ok(())
    } else {
        tell(alloc, all, at, expected, found)
    }
}

fn is_equal(expected: &Val, found: Option<&Val>) -> bool
    ensures { result ≡ is_equal (tree expected.now) (option_map (λ v. tree v.now) found.entry) }
{
    match found {
        None => false,
        Some(value) => expected.order(value).is_eq(),
    }
}

// Adds a difference.
pub(crate) fn tell(
    alloc: Global,
    all: &mut Vec<Difference>,
    at: &str,
    expected: &Val,
    found: Option<&Val>,
) -> Result<(), AllocError>
    ensures { OnOk result (map told all.new.items
        ≡ map told all.old.items ++ one at.now (tree expected.now) (option_map (λ v. tree v.now) found.entry)) }
{
    let found = match found {
        None => None,
        Some(value) => Some(value.copy(alloc)?),
    };
    let pointer = Text::of(alloc, at)?;
    let expected = expected.copy(alloc)?;
    all.push(Difference {
        pointer,
        expected,
        found,
    })?;
    Ok(())
}
