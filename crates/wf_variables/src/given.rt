//! The value that outputs give a variable.
ghost use Rattle.std.specs.Prelude.{◌≡◌, map, option_map};
ghost use Rattle.wf_val.specs.Seen.{tree};
ghost use Rattle.wf_variables.specs.Given.{gives, item_value, items_value};

use wf_val::{Text, Val};

// The value of an item, where it has the name.
fn item_value<'a>(name: &Text, item: &'a Val) -> Option<&'a Val>
    ensures { option_map (λ v. tree v.now) result ≡ item_value name.now (tree item.now) }
{
    match item.member("name") {
        Some(Val::Text(its)) if its.as_str() == name.as_str() => item.member("value"),
        _ => None,
    }
}

// The value of the first item that has the name.
fn items_value<'a>(name: &Text, items: &'a [Val]) -> Option<&'a Val>
    ensures { option_map (λ v. tree v.now) result ≡ items_value name.now (map tree items.now) }
{
    for item in items {
        if let Some(value) = item_value(name, item) {
            return Some(value);
        }
    }
    None
}

/// The value that outputs of an action on variables give a variable, none where they don't name it.
#[tactic(auto, using(wf_val::proofs::ValueTreeLemmas::listed))]
pub fn value_given<'a>(name: &Text, outputs: &'a Val) -> Option<&'a Val>
    ensures { option_map (λ v. tree v.now) result ≡ gives name.now (tree outputs.now) }
{
    match outputs.member("body") {
        None => None,
        Some(Val::List(items)) => items_value(name, items.as_slice()),
        Some(item) => item_value(name, item),
    }
}
