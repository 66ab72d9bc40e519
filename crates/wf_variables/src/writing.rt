//! The kinds that change a variable which has a value.
ghost use Rattle.std.specs.Prelude.{◌≡◌, ◌≢◌, ◌++◌, ◌+ℤ◌, ◌-ℤ◌, Ok, Err, IfOk, IfErr, option_map, string_bytes};
ghost use Rattle.wf_val.specs.Arguments.{Gives, seen};
ghost use Rattle.wf_val.specs.Seen.{tree};
ghost use Rattle.wf_val.specs.declared.fault.EvalFault.{EvalFault};
ghost use Rattle.wf_template.specs.DataSeen.{data_tree};
ghost use Rattle.wf_data.specs.Looked.{or_no_value};
ghost use Rattle.wf_data.specs.Made.{Comes};
ghost use Rattle.wf_data.specs.MadeSeen.{made_seen};
ghost use Rattle.wf_variables.specs.Writing.{amount, decremented, incremented, made_append_array, made_append_string};
ghost use Rattle.wf_variables.specs.Writing.{made_decrement, made_increment, made_set, moved, set_to, with_item};
ghost use Rattle.wf_variables.specs.Writing.{with_text, written};

use crate::initials::given_item;
use crate::sorts::are_alike;
use std::alloc::{AllocError, Global};
use wf_data::{Look, Made, eval_tree, fitting, one_member};
use wf_template::Tree;
use wf_val::{EvalFault, Fun, Text, Val, wrong_type};

// The value that was given is kept, and the new one is given out.
fn written(alloc: Global, name: &Text, value: Val, new: Val) -> Result<Made, EvalFault>
    ensures { Gives (made_seen result) (written name.now (tree value) (tree new)) }
{
    let inputs = given_item(alloc, name, value)?;
    let body = given_item(alloc, name, new)?;
    let outputs = one_member(alloc, "body", body)?;
    fitting(inputs, outputs)
}

// The value that the variable has.
fn value_of<'a, L: Look>(alloc: Global, name: &Text, look: &'a L) -> Result<&'a Val, EvalFault>
    ensures ok { IfOk result (λ v. or_no_value name.now ((L.told look.now).variable name.now) ≡ Ok (tree v.now)) }
    ensures err { IfErr result (λ f. f ≢ EvalFault.Memory → or_no_value name.now ((L.told look.now).variable name.now) ≡ Err f) }
{
    match look.variable(name) {
        Some(value) => Ok(value),
        None => Err(EvalFault::NoValue {
            name: name.copy(alloc)?,
        }),
    }
}

// The value takes the place of the one that the variable has, where both are of one type.
fn set_to(alloc: Global, name: &Text, now: &Val, value: Val) -> Result<Made, EvalFault>
    ensures { Gives (made_seen result) (set_to name.now (tree now.now) (tree value)) }
{
    if are_alike(now, &value) {
        let value = value.shared(alloc)?;
        let new = value.copy(alloc)?;
        written(alloc, name, value, new)
    } else {
        Err(wrong_type(Fun::Variable, 0))
    }
}

// A number that grows, where the sum has 64 bits.
fn raised(alloc: Global, name: &Text, now: i64, by: i64) -> Result<Made, EvalFault>
    ensures { Gives (made_seen result) (moved name.now by (now +ℤ by)) }
{
    match now.checked_add(by) {
        Some(new) => written(alloc, name, Val::Int(by), Val::Int(new)),
        None => Err(EvalFault::Range {
            function: Fun::Variable,
        }),
    }
}

// A number that falls, where the difference has 64 bits.
fn lowered(alloc: Global, name: &Text, now: i64, by: i64) -> Result<Made, EvalFault>
    ensures { Gives (made_seen result) (moved name.now by (now -ℤ by)) }
{
    match now.checked_sub(by) {
        Some(new) => written(alloc, name, Val::Int(by), Val::Int(new)),
        None => Err(EvalFault::Range {
            function: Fun::Variable,
        }),
    }
}

// A number is added to the one that the variable has.
fn incremented(alloc: Global, name: &Text, now: &Val, value: Val) -> Result<Made, EvalFault>
    ensures { Gives (made_seen result) (incremented name.now (tree now.now) (tree value)) }
{
    match now {
        Val::Int(now) => match value {
            Val::Int(by) => raised(alloc, name, *now, by),
            _ => Err(wrong_type(Fun::Variable, 0)),
        },
        _ => Err(wrong_type(Fun::Variable, 0)),
    }
}

// A number is taken from the one that the variable has.
fn decremented(alloc: Global, name: &Text, now: &Val, value: Val) -> Result<Made, EvalFault>
    ensures { Gives (made_seen result) (decremented name.now (tree now.now) (tree value)) }
{
    match now {
        Val::Int(now) => match value {
            Val::Int(by) => lowered(alloc, name, *now, by),
            _ => Err(wrong_type(Fun::Variable, 0)),
        },
        _ => Err(wrong_type(Fun::Variable, 0)),
    }
}

// A value goes behind the items that the variable has.
#[tactic(auto, using(wf_val::proofs::ValueTreeLemmas::listed))]
fn with_item(alloc: Global, name: &Text, now: &Val, value: Val) -> Result<Made, EvalFault>
    ensures { Gives (made_seen result) (with_item name.now (tree now.now) (tree value)) }
{
    match now {
        Val::List(items) => {
            let new = items.copy_with(alloc, value.copy(alloc)?)?;
            written(alloc, name, value, Val::List(new))
        }
        _ => Err(wrong_type(Fun::Variable, 0)),
    }
}

// A value goes, as a text, behind the text that the variable has.
fn with_text(alloc: Global, name: &Text, now: &Val, value: Val) -> Result<Made, EvalFault>
    ensures { Gives (made_seen result) (with_text name.now (tree now.now) (tree value)) }
{
    match now {
        Val::Text(text) => {
            let more = wf_data::text(alloc, &value)?;
            let new = joined(alloc, text.as_str(), more.as_str())?;
            written(alloc, name, value, Val::Text(Text::from_string(new)))
        }
        _ => Err(wrong_type(Fun::Variable, 0)),
    }
}

// Two texts as one, with room for about a sixteenth more, so that what is given back serves for the next one of a text
// that grows.
fn joined(alloc: Global, front: &str, back: &str) -> Result<String, AllocError>
    ensures { IfOk result (λ s. string_bytes s ≡ front.now ++ back.now) }
{
    let len = front.len().saturating_add(back.len());
    let mut both = String::with_capacity(alloc, len.saturating_add(len / 16))?;
    both.push_str(front)?;
    both.push_str(back)?;
    Ok(both)
}

// The amount, 1 where none is given.
fn amount<L: Look>(alloc: Global, value: &Option<Tree>, look: &mut L) -> Result<Val, EvalFault>
    ensures value { Comes (seen result) (amount (L.told look.old) (option_map data_tree value.now) (L.drawn look.old)) (L.drawn look.new) }
    ensures same { L.told look.new ≡ L.told look.old }
    ensures held { L.held look.new ≡ L.held look.old }
{
    match value {
        None => Ok(Val::Int(1)),
        Some(tree) => eval_tree(alloc, tree, look),
    }
}

/// SetVariable gives a variable another value, of the type that its value has.
pub fn set<L: Look>(
    alloc: Global,
    name: &Text,
    value: &Tree,
    look: &mut L,
) -> Result<Made, EvalFault>
    ensures made { Comes (made_seen result)
        (made_set (L.told look.old) name.now (data_tree value.now) (L.drawn look.old)) (L.drawn look.new) }
    ensures same { L.told look.new ≡ L.told look.old }
    ensures held { L.held look.new ≡ L.held look.old }
{
    let value = eval_tree(alloc, value, look)?;
    let now = value_of(alloc, name, look)?;
    set_to(alloc, name, now, value)
}

/// IncrementVariable adds a number, 1 where none is given, to the one that a variable has.
pub fn increment<L: Look>(
    alloc: Global,
    name: &Text,
    value: &Option<Tree>,
    look: &mut L,
) -> Result<Made, EvalFault>
    ensures made { Comes (made_seen result)
        (made_increment (L.told look.old) name.now (option_map data_tree value.now) (L.drawn look.old)) (L.drawn look.new) }
    ensures same { L.told look.new ≡ L.told look.old }
    ensures held { L.held look.new ≡ L.held look.old }
{
    let value = amount(alloc, value, look)?;
    let now = value_of(alloc, name, look)?;
    incremented(alloc, name, now, value)
}

/// DecrementVariable takes a number, 1 where none is given, from the one that a variable has.
pub fn decrement<L: Look>(
    alloc: Global,
    name: &Text,
    value: &Option<Tree>,
    look: &mut L,
) -> Result<Made, EvalFault>
    ensures made { Comes (made_seen result)
        (made_decrement (L.told look.old) name.now (option_map data_tree value.now) (L.drawn look.old)) (L.drawn look.new) }
    ensures same { L.told look.new ≡ L.told look.old }
    ensures held { L.held look.new ≡ L.held look.old }
{
    let value = amount(alloc, value, look)?;
    let now = value_of(alloc, name, look)?;
    decremented(alloc, name, now, value)
}

/// AppendToArrayVariable adds an item behind those of the list that a variable has.
pub fn append_array<L: Look>(
    alloc: Global,
    name: &Text,
    value: &Tree,
    look: &mut L,
) -> Result<Made, EvalFault>
    ensures made { Comes (made_seen result)
        (made_append_array (L.told look.old) name.now (data_tree value.now) (L.drawn look.old)) (L.drawn look.new) }
    ensures same { L.told look.new ≡ L.told look.old }
    ensures held { L.held look.new ≡ L.held look.old }
{
    let value = eval_tree(alloc, value, look)?;
    let now = value_of(alloc, name, look)?;
    with_item(alloc, name, now, value)
}

/// AppendToStringVariable adds a value, as a text, behind the text that a variable has.
pub fn append_string<L: Look>(
    alloc: Global,
    name: &Text,
    value: &Tree,
    look: &mut L,
) -> Result<Made, EvalFault>
    ensures made { Comes (made_seen result)
        (made_append_string (L.told look.old) name.now (data_tree value.now) (L.drawn look.old)) (L.drawn look.new) }
    ensures same { L.told look.new ≡ L.told look.old }
    ensures held { L.held look.new ≡ L.held look.old }
{
    let value = eval_tree(alloc, value, look)?;
    let now = value_of(alloc, name, look)?;
    with_text(alloc, name, now, value)
}
