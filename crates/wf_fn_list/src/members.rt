//! Edits of objects.
ghost use Rattle.std.specs.Prelude.{◌≡◌, length};
ghost use Rattle.wf_val.specs.Arguments.{seen, Gives};
ghost use Rattle.wf_fn_list.specs.Members.{add_property_row, set_property_row, remove_property_row};

use std::alloc::Global;
use wf_val::{EvalFault, Fun, Val, Vals, bounded, object_at, text_at, value_at};

/// `addProperty`: the object with a further member; `Range` where it has one of the name.
pub fn f_add_property(alloc: Global, args: &Vals) -> Result<Val, EvalFault>
    requires { length args.now ≡ 3 }
    ensures { Gives (seen result) (add_property_row args.now) }
{
    let fields = object_at(Fun::AddProperty, args, 0)?;
    let name = text_at(Fun::AddProperty, args, 1)?;
    let value = value_at(Fun::AddProperty, args, 2)?;
    if fields.get(name).is_some() {
        return Err(EvalFault::Range {
            function: Fun::AddProperty,
        });
    }
    let mut object = fields.copy(alloc)?;
    object.put(name.copy(alloc)?, value.copy(alloc)?)?;
    bounded(Val::Obj(object))
}

/// `setProperty`: the object with the member, in place of the one that has the name.
pub fn f_set_property(alloc: Global, args: &Vals) -> Result<Val, EvalFault>
    requires { length args.now ≡ 3 }
    ensures { Gives (seen result) (set_property_row args.now) }
{
    let fields = object_at(Fun::SetProperty, args, 0)?;
    let name = text_at(Fun::SetProperty, args, 1)?;
    let value = value_at(Fun::SetProperty, args, 2)?;
    let mut object = fields.copy(alloc)?;
    object.put(name.copy(alloc)?, value.copy(alloc)?)?;
    bounded(Val::Obj(object))
}

/// `removeProperty`: the object without the member of the name; where it has none, the object.
pub fn f_remove_property(alloc: Global, args: &Vals) -> Result<Val, EvalFault>
    requires { length args.now ≡ 2 }
    ensures { Gives (seen result) (remove_property_row args.now) }
{
    let fields = object_at(Fun::RemoveProperty, args, 0)?;
    let name = text_at(Fun::RemoveProperty, args, 1)?;
    let mut object = fields.copy(alloc)?;
    let _removed = object.remove(name)?;
    bounded(Val::Obj(object))
}
