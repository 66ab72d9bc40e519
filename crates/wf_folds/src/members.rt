//! The members of objects, put together as the objects come.
ghost use Rattle.std.specs.Prelude.{◌≡◌, IfOk, map};
ghost use Rattle.wf_val.specs.Seen.{member};
ghost use Rattle.wf_fn_sets.specs.Sets.{put_all};

use std::alloc::{AllocError, Global};
use std::collections::BTreeMap;
use wf_val::{Fields, Text, Val};

/// Members by their names, with those of an object put to them: of two of one name the later stands.
pub(crate) fn with_members(
    alloc: Global,
    by_name: BTreeMap<Text, Val>,
    object: &Fields,
) -> Result<BTreeMap<Text, Val>, AllocError>
    ensures { IfOk result (λ m. map member m.entries ≡ put_all (map member by_name.entries) object.now) }
{
    let mut by_name = by_name;
    for one in object.as_slice() {
        let _earlier = by_name.insert(one.0.copy(alloc)?, one.1.copy(alloc)?)?;
    }
    Ok(by_name)
}

/// Members by their names as an object.
pub(crate) fn object_of(alloc: Global, by_name: BTreeMap<Text, Val>) -> Result<Fields, AllocError>
    ensures { IfOk result (λ fields. fields ≡ map member by_name.entries) }
{
    let mut left = by_name;
    let mut fields = Fields::new(alloc);
    while let Some((name, value)) = left.pop_first() {
        fields.append(name, value)?;
    }
    Ok(fields)
}
