//! Select, Query and Join: what they make of a list.
ghost use Rattle.std.specs.Prelude.{◌≡◌, [], Ok, Err, IfOk, IfErr, OnOk, map};
ghost use Rattle.wf_val.specs.Arguments.{Gives, seen};
ghost use Rattle.wf_val.specs.Seen.{tree};
ghost use Rattle.wf_eval.specs.Outcomes.{all_after};
ghost use Rattle.wf_eval.specs.Told.{over};
ghost use Rattle.wf_template.specs.DataSeen.{data_tree};
ghost use Rattle.wf_template.specs.TemplateSeen.{template_tree};
ghost use Rattle.wf_eval.specs.TreeValue.{tree_value};
ghost use Rattle.wf_data.specs.Lists.{items_from, join_inputs, join_of, joined, keeps, kept_after, made_of_list};
ghost use Rattle.wf_data.specs.Lists.{made_join, made_query, made_select, over_each, query_truth, with_kept};
ghost use Rattle.wf_data.specs.Made.{Comes};
ghost use Rattle.wf_data.specs.MadeSeen.{made_seen};

use crate::made::{Made, fitting, one_member};
use std::alloc::{AllocError, Global};
use wf_eval::{Look, Over, eval, eval_tree, strict_row};
use wf_template::{Template, Tree};
use wf_val::{EvalFault, Fields, Fun, Text, Val, Vals, wrong_type};

// The items of the list that is gone over.
#[tactic(auto, using(wf_val::proofs::ValueTreeLemmas::listed))]
fn items_from(list: &Val) -> Result<&Vals, EvalFault>
    ensures ok { IfOk result (λ v. items_from (tree list.now) ≡ Ok v.now) }
    ensures err { IfErr result (λ f. items_from (tree list.now) ≡ Err f) }
{
    match list {
        Val::List(items) => Ok(items),
        _ => Err(wrong_type(Fun::From, 0)),
    }
}

// The value of a tree whose nearest item is this.
fn at_item<L: Look>(
    alloc: Global,
    item: &Val,
    select: &Tree,
    look: &mut L,
) -> Result<Val, EvalFault>
    ensures value { Comes (seen result)
        (tree_value (over (tree item.now) (L.told look.old)) (data_tree select.now) (L.drawn look.old)) (L.drawn look.new) }
    ensures same { L.told look.new ≡ L.told look.old }
    ensures held { L.held look.new ≡ L.held look.old }
{
    let mut above = Over::new(look, item);
    eval_tree(alloc, select, &mut above)
}

// The value of a tree for each item, in their order.
fn over_each<L: Look>(
    alloc: Global,
    items: &[Val],
    select: &Tree,
    look: &mut L,
) -> Result<Vals, EvalFault>
    ensures values { Comes result
        (all_after (over_each (L.told look.old) (data_tree select.now) (map tree items.now)) [] (L.drawn look.old)) (L.drawn look.new) }
    ensures same { L.told look.new ≡ L.told look.old }
    ensures held { L.held look.new ≡ L.held look.old }
{
    let mut values = Vals::new(alloc);
    for item in items {
        values.push(at_item(alloc, item, select, look)?)?;
    }
    Ok(values)
}

/// Select makes a list of as many items, each by the same tree.
pub fn select<L: Look>(
    alloc: Global,
    from: &Tree,
    select: &Tree,
    look: &mut L,
) -> Result<Made, EvalFault>
    ensures made { Comes (made_seen result)
        (made_select (L.told look.old) (data_tree from.now) (data_tree select.now) (L.drawn look.old)) (L.drawn look.new) }
    ensures same { L.told look.new ≡ L.told look.old }
    ensures held { L.held look.new ≡ L.held look.old }
{
    let list = eval_tree(alloc, from, look)?;
    let items = items_from(&list)?;
    let body = over_each(alloc, items.as_slice(), select, look)?;
    made_of_list(alloc, list, body)
}

// The list that was gone over, and what was made of it.
fn made_of_list(alloc: Global, list: Val, body: Vals) -> Result<Made, EvalFault>
    ensures { Gives (made_seen result) (made_of_list (tree list) body) }
{
    let inputs = one_member(alloc, "from", list)?;
    let outputs = one_member(alloc, "body", Val::List(body))?;
    fitting(inputs, outputs)
}

// A value of `where` has to be a Boolean.
fn query_truth(value: Val) -> Result<bool, EvalFault>
    ensures { result ≡ query_truth (tree value) }
{
    match value {
        Val::Bool(truth) => Ok(truth),
        _ => Err(wrong_type(Fun::Query, 0)),
    }
}

// Whether `where` holds of an item.
fn keeps<L: Look>(
    alloc: Global,
    item: &Val,
    filter: &Template,
    look: &mut L,
) -> Result<bool, EvalFault>
    ensures truth { Comes result
        (keeps (L.told look.old) (template_tree filter.now) (tree item.now) (L.drawn look.old)) (L.drawn look.new) }
    ensures same { L.told look.new ≡ L.told look.old }
    ensures held { L.held look.new ≡ L.held look.old }
{
    let mut above = Over::new(look, item);
    let value = eval(alloc, filter, &mut above)?;
    query_truth(value)
}

// An item goes behind those that are kept.
fn push_kept(alloc: Global, values: &mut Vals, keep: bool, item: &Val) -> Result<(), AllocError>
    ensures { OnOk result (values.new ≡ with_kept keep (tree item.now) values.old) }
{
    if keep {
        values.push(item.copy(alloc)?)?;
    }
    Ok(())
}

// The items that are kept.
fn kept<L: Look>(
    alloc: Global,
    items: &[Val],
    filter: &Template,
    look: &mut L,
) -> Result<Vals, EvalFault>
    ensures values { Comes result
        (kept_after (keeps (L.told look.old) (template_tree filter.now)) (map tree items.now) [] (L.drawn look.old)) (L.drawn look.new) }
    ensures same { L.told look.new ≡ L.told look.old }
    ensures held { L.held look.new ≡ L.held look.old }
{
    let mut values = Vals::new(alloc);
    for item in items {
        let keep = keeps(alloc, item, filter, look)?;
        push_kept(alloc, &mut values, keep, item)?;
    }
    Ok(values)
}

/// Query keeps the items of which `where` is true.
pub fn query<L: Look>(
    alloc: Global,
    from: &Tree,
    filter: &Template,
    look: &mut L,
) -> Result<Made, EvalFault>
    ensures made { Comes (made_seen result)
        (made_query (L.told look.old) (data_tree from.now) (template_tree filter.now) (L.drawn look.old)) (L.drawn look.new) }
    ensures same { L.told look.new ≡ L.told look.old }
    ensures held { L.held look.new ≡ L.held look.old }
{
    let list = eval_tree(alloc, from, look)?;
    let items = items_from(&list)?;
    let body = kept(alloc, items.as_slice(), filter, look)?;
    made_of_list(alloc, list, body)
}

// What a Join keeps as inputs.
fn join_inputs(alloc: Global, list: Val, with: Val) -> Result<Val, AllocError>
    ensures { IfOk result (λ v. tree v ≡ join_inputs (tree list) (tree with)) }
{
    let mut fields = Fields::new(alloc);
    fields.put(Text::of(alloc, "from")?, list)?;
    fields.put(Text::of(alloc, "joinWith")?, with)?;
    Ok(Val::Obj(fields))
}

// The text that the function `join` makes.
fn join_of(alloc: Global, list: &Val, with: &Val) -> Result<Val, EvalFault>
    ensures { Gives (seen result) (join_of (tree list.now) (tree with.now)) }
{
    let mut values = Vals::new(alloc);
    values.push(list.copy(alloc)?)?;
    values.push(with.copy(alloc)?)?;
    strict_row(alloc, Fun::Join, &values)
}

// A list and what stands between its items; that is judged first.
fn joined(alloc: Global, list: Val, with: Val) -> Result<Made, EvalFault>
    ensures { Gives (made_seen result) (joined (tree list) (tree with)) }
{
    match with {
        Val::Text(_) => {
            let body = join_of(alloc, &list, &with)?;
            let inputs = join_inputs(alloc, list, with)?;
            let outputs = one_member(alloc, "body", body)?;
            fitting(inputs, outputs)
        }
        _ => Err(wrong_type(Fun::JoinWith, 0)),
    }
}

/// Join makes one text of the items, with another between each two.
pub fn join<L: Look>(
    alloc: Global,
    from: &Tree,
    with: &Tree,
    look: &mut L,
) -> Result<Made, EvalFault>
    ensures made { Comes (made_seen result)
        (made_join (L.told look.old) (data_tree from.now) (data_tree with.now) (L.drawn look.old)) (L.drawn look.new) }
    ensures same { L.told look.new ≡ L.told look.old }
    ensures held { L.held look.new ≡ L.held look.old }
{
    let list = eval_tree(alloc, from, look)?;
    let _items = items_from(&list)?;
    let with = eval_tree(alloc, with, look)?;
    joined(alloc, list, with)
}
