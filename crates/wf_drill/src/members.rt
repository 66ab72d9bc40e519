//! Members of objects, one after the other.
ghost use Rattle.std.specs.Prelude.{◌≡◌, [], ◌∷◌, ◌++◌, IfOk};
ghost use Rattle.wf_val.specs.Get.{name_of};
ghost use Rattle.wf_val.specs.NameOrder.{IsAboveAll, put_named};
ghost use Rattle.wf_val.specs.Seen.{tree};
ghost use Rattle.wf_val.specs.ValueTree.{text};

use std::alloc::{AllocError, Global};
use wf_val::{Fields, Text, Val};

/// Members, and one more in its place.
pub(crate) fn with(
    alloc: Global,
    fields: Fields,
    name: &str,
    value: Val,
) -> Result<Fields, AllocError>
    ensures { IfOk result (λ more. more ≡ put_named name_of (name.now, tree value) fields) }
{
    let mut more = fields;
    more.put(Text::of(alloc, name)?, value)?;
    Ok(more)
}

/// And one more that is a text.
pub(crate) fn with_text(
    alloc: Global,
    fields: Fields,
    name: &str,
    value: &str,
) -> Result<Fields, AllocError>
    ensures { IfOk result (λ more. more ≡ put_named name_of (name.now, text value.now) fields) }
{
    let value = Val::Text(Text::of(alloc, value)?);
    with(alloc, fields, name, value)
}

/// Members, and one more behind them.
pub(crate) fn behind(
    alloc: Global,
    fields: Fields,
    name: &str,
    value: Val,
) -> Result<Fields, AllocError>
    requires { IsAboveAll name_of name.now fields }
    ensures { IfOk result (λ more. more ≡ fields ++ (name.now, tree value) ∷ []) }
{
    let mut more = fields;
    more.append(Text::of(alloc, name)?, value)?;
    Ok(more)
}
