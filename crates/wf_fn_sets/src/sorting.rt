//! A stable sort.
ghost use Rattle.std.specs.Prelude.{◌≡◌, ◌≤◌, IfOk, IsTrue, length, map, option_map};
ghost use Rattle.std.specs.List.{list_all};
ghost use Rattle.wf_val.specs.Arguments.{seen, Gives};
ghost use Rattle.wf_val.specs.Seen.{tree};
ghost use Rattle.wf_fn_sets.specs.SortKeys.{key_tree, number_or_text, keyed_trees};
ghost use Rattle.wf_fn_sets.specs.Sorting.{sort_row, sorted, judged_by, sort_key, is_number, is_text, can_be_sorted};

use std::alloc::{AllocError, Global};
use wf_val::{EvalFault, Fun, Text, Val, Vals, bounded, list_at, optional_text_at, wrong_type};

/// `sort`: the items in ascending order, and those that tie as they stood. The items are all numbers or all texts, or,
/// where a name is given, objects whose members of the name are; else `WrongType`.
pub fn f_sort(alloc: Global, args: &Vals) -> Result<Val, EvalFault>
    requires at_least { 1 ≤ length args.now }
    requires at_most { length args.now ≤ 2 }
    ensures { Gives (seen result) (sort_row args.now) }
{
    let items = list_at(Fun::Sort, args, 0)?;
    let name = optional_text_at(Fun::Sort, args, 1)?;
    if !can_be_sorted(items.as_slice(), name) {
        return Err(wrong_type(Fun::Sort, 0));
    }
    let sorted = sorted(alloc, items.as_slice(), name)?;
    bounded(Val::List(sorted))
}

// Whether the items are judged by numbers alone, or by texts alone.
fn can_be_sorted(values: &[Val], name: Option<&Text>) -> bool
    ensures { result ≡ can_be_sorted (option_map (λ t. t.now) name.entry) (map tree values.now) }
{
    all_numbers(values, name) || all_texts(values, name)
}

fn all_numbers(values: &[Val], name: Option<&Text>) -> bool
    ensures { result ≡ list_all (λ x. is_number (judged_by (option_map (λ t. t.now) name.entry) x)) (map tree values.now) }
{
    values.iter().all(|value| is_number(judged_by(value, name)))
}

fn all_texts(values: &[Val], name: Option<&Text>) -> bool
    ensures { result ≡ list_all (λ x. is_text (judged_by (option_map (λ t. t.now) name.entry) x)) (map tree values.now) }
{
    values.iter().all(|value| is_text(judged_by(value, name)))
}

// What an item is judged by: its member of the name, or itself where no name is given.
fn judged_by<'a>(value: &'a Val, name: Option<&Text>) -> Option<&'a Val>
    ensures { option_map (λ v. tree v.now) result ≡ judged_by (option_map (λ t. t.now) name.entry) (tree value.now) }
{
    match name {
        Some(name) => value.get(name),
        None => Some(value),
    }
}

fn is_number(value: Option<&Val>) -> bool
    ensures { result ≡ is_number (option_map (λ v. tree v.now) value.entry) }
{
    matches!(value, Some(Val::Int(_)))
}

fn is_text(value: Option<&Val>) -> bool
    ensures { result ≡ is_text (option_map (λ v. tree v.now) value.entry) }
{
    matches!(value, Some(Val::Text(_)))
}

/// What an item is sorted by. A number stands in it itself, and of a text where its bytes are, so that as little as can be
/// is looked up while two are compared.
#[derive(Clone, Copy, PartialEq, Eq, PartialOrd, Ord)]
pub(crate) enum SortKey<'a> {
    Number(i64),
    Text(&'a str),
}

// What an item is sorted by; what is neither a number nor a text isn't sorted.
fn sort_key<'a>(value: &'a Val, name: Option<&Text>) -> SortKey<'a>
    ensures { key_tree result ≡ number_or_text (sort_key (option_map (λ t. t.now) name.entry) (tree value.now)) }
{
    match judged_by(value, name).unwrap_or(value) {
        Val::Int(number) => SortKey::Number(*number),
        Val::Text(text) => SortKey::Text(text.as_str()),
        _ => SortKey::Number(0),
    }
}

/// An item, and what it is sorted by.
#[derive(Clone, Copy)]
pub(crate) struct Keyed<'a> {
    pub(crate) key: SortKey<'a>,
    pub(crate) item: &'a Val,
}

// The items in order; those that tie stay as they stood.
fn sorted(alloc: Global, values: &[Val], name: Option<&Text>) -> Result<Vals, AllocError>
    requires { IsTrue (can_be_sorted (option_map (λ t. t.now) name) (map tree values.now)) }
    ensures { IfOk result (λ v. v ≡ sorted (sort_key (option_map (λ t. t.now) name.entry)) (map tree values.now)) }
{
    let mut items = with_keys(alloc, values, name)?;
    items.sort_by_key(|item| item.key)?;
    items_of_keyed(alloc, items.as_slice())
}

// Each item with what it is sorted by.
fn with_keys<'a>(
    alloc: Global,
    values: &'a [Val],
    name: Option<&Text>,
) -> Result<Vec<Keyed<'a>>, AllocError>
    ensures { IfOk result (λ v. map keyed_trees v.items
        ≡ map (λ x. (number_or_text (sort_key (option_map (λ t. t.now) name.entry) x), x)) (map tree values.now)) }
{
    let mut keyed = Vec::new(alloc);
    for item in values {
        let key = sort_key(item, name);
        keyed.push(Keyed { key, item })?;
    }
    Ok(keyed)
}

// A copy of each item.
fn items_of_keyed(alloc: Global, keyed: &[Keyed<'_>]) -> Result<Vals, AllocError>
    ensures { IfOk result (λ v. v ≡ map (λ e. tree e.item.now) keyed.now) }
{
    let mut items = Vals::new(alloc);
    for entry in keyed {
        items.push(entry.item.copy(alloc)?)?;
    }
    Ok(items)
}
