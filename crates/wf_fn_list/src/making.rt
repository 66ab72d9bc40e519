//! Lists of arguments.
ghost use Rattle.std.specs.Prelude.{◌≡◌, length};
ghost use Rattle.wf_val.specs.Arguments.{seen, Gives};
ghost use Rattle.wf_fn_list.specs.Making.{create_array_row, array_row};

use std::alloc::Global;
use wf_val::{EvalFault, Fun, Val, Vals, bounded, within, wrong_type};

/// `createArray`: the arguments as a list, which may be none. They are measured before they are copied.
pub fn f_create_array(alloc: Global, args: &Vals) -> Result<Val, EvalFault>
    ensures { Gives (seen result) (create_array_row args.now) }
{
    let size = args.size().inside();
    within(size.depth, size.weight)?;
    Ok(Val::List(args.copy(alloc)?))
}

/// `array`: a list is itself, and any other value a list of one.
#[tactic(auto, using(wf_val::proofs::ValueTreeLemmas::listed))]
pub fn f_array(alloc: Global, args: &Vals) -> Result<Val, EvalFault>
    requires { length args.now ≡ 1 }
    ensures { Gives (seen result) (array_row args.now) }
{
    match args.at(0) {
        Some(Val::List(items)) => bounded(Val::List(items.copy(alloc)?)),
        Some(value) => {
            let mut items = Vals::new(alloc);
            items.push(value.copy(alloc)?)?;
            bounded(Val::List(items))
        }
        None => Err(wrong_type(Fun::Array, 0)),
    }
}
