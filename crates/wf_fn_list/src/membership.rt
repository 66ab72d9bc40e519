//! What a text, a list or an object has in it.
ghost use Rattle.std.specs.Prelude.{◌≡◌, length, map};
ghost use Rattle.wf_val.specs.Arguments.{seen};
ghost use Rattle.wf_val.specs.Seen.{tree};
ghost use Rattle.wf_fn_list.specs.Membership.{contains_row, empty_row, is_among, stands_in};

use wf_val::{EvalFault, Fun, Val, Vals, text_at, value_at, wrong_type};

/// `contains`: whether a text has another as a part, its case counted; a list the same value among its items; an object
/// a member of the name.
#[tactic(auto, using(wf_val::proofs::ValueTreeLemmas::listed))]
pub fn f_contains(args: &Vals) -> Result<Val, EvalFault>
    requires { length args.now ≡ 2 }
    ensures { seen result ≡ contains_row args.now }
{
    match args.at(0) {
        Some(Val::Text(text)) => {
            let part = text_at(Fun::Contains, args, 1)?;
            Ok(Val::Bool(stands_in(part.as_str(), text.as_str())))
        }
        Some(Val::List(items)) => {
            let value = value_at(Fun::Contains, args, 1)?;
            Ok(Val::Bool(is_among(items.as_slice(), value)))
        }
        Some(Val::Obj(fields)) => {
            let name = text_at(Fun::Contains, args, 1)?;
            Ok(Val::Bool(fields.get(name).is_some()))
        }
        _ => Err(wrong_type(Fun::Contains, 0)),
    }
}

/// `empty`: whether there is nothing in a text, a list or an object; null has nothing in it.
#[tactic(auto, using(wf_val::proofs::ValueTreeLemmas::listed))]
pub fn f_empty(args: &Vals) -> Result<Val, EvalFault>
    requires { length args.now ≡ 1 }
    ensures { seen result ≡ empty_row args.now }
{
    match args.at(0) {
        Some(Val::Null) => Ok(Val::Bool(true)),
        Some(Val::Text(text)) => Ok(Val::Bool(text.as_str().is_empty())),
        Some(Val::List(items)) => Ok(Val::Bool(items.len() == 0)),
        Some(Val::Obj(fields)) => Ok(Val::Bool(fields.len() == 0)),
        _ => Err(wrong_type(Fun::Empty, 0)),
    }
}

// Whether a text stands in another.
fn stands_in(part: &str, text: &str) -> bool
    ensures { result ≡ stands_in part.now text.now }
{
    text.contains(part)
}

// Whether a value is among others.
fn is_among(values: &[Val], value: &Val) -> bool
    ensures { result ≡ is_among (map tree values.now) (tree value.now) }
{
    values.iter().any(|other| value.order(other).is_eq())
}
