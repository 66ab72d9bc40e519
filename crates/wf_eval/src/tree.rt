//! The value of a tree whose texts are templates.
ghost use Rattle.std.specs.Prelude.{◌≡◌, [], map};
ghost use Rattle.wf_val.specs.Arguments.{seen};
ghost use Rattle.wf_template.specs.DataSeen.{data_tree, data_member};
ghost use Rattle.wf_template.specs.DataTree.{data_trees, data_members};
ghost use Rattle.wf_eval_expr.specs.Meets.{Meets};
ghost use Rattle.wf_eval_expr.specs.Outcomes.{all_after};
ghost use Rattle.wf_eval.specs.TreeValue.{tree_value, tree_runs, member_runs, members_after};

use crate::template::eval;
use std::alloc::Global;
use wf_eval_expr::Look;
use wf_template::Tree;
use wf_val::{EvalFault, Fields, Text, Val, Vals, bounded};

/// The value of a tree in a look: members of objects in the byte order of their names, items in their order. Each list
/// and object is tested for its size once its parts have values, so inner ones come first.
#[cycle(eval_tree)]
pub fn eval_tree<L: Look>(alloc: Global, t: &Tree, look: &mut L) -> Result<Val, EvalFault>
    ensures value { Meets (seen result) (tree_value (L.told look.old) (data_tree t.now) (L.drawn look.old)) (L.drawn look.new) }
    ensures same { L.told look.new ≡ L.told look.old }
    ensures held { L.held look.new ≡ L.held look.old }
{
    match t {
        Tree::Null => Ok(Val::Null),
        Tree::Bool(truth) => Ok(Val::Bool(*truth)),
        Tree::Int(number) => Ok(Val::Int(*number)),
        Tree::Text(template) => eval(alloc, template, look),
        Tree::List(items) => {
            let values = eval_items(alloc, items.as_slice(), look)?;
            bounded(Val::List(values))
        }
        Tree::Obj(fields) => {
            let members = eval_members(alloc, fields.as_slice(), look)?;
            bounded(Val::Obj(members))
        }
    }
}

#[cycle(eval_tree)]
fn eval_items<L: Look>(alloc: Global, items: &[Tree], look: &mut L) -> Result<Vals, EvalFault>
    ensures values { Meets result
        (all_after (tree_runs (L.told look.old) (data_trees (map data_tree items.now))) [] (L.drawn look.old))
        (L.drawn look.new) }
    ensures same { L.told look.new ≡ L.told look.old }
    ensures held { L.held look.new ≡ L.held look.old }
{
    let mut values = Vals::new(alloc);
    for item in items {
        values.push(eval_tree(alloc, item, look)?)?;
    }
    Ok(values)
}

#[cycle(eval_tree)]
fn eval_members<L: Look>(
    alloc: Global,
    members: &[(Text, Tree)],
    look: &mut L,
) -> Result<Fields, EvalFault>
    ensures members { Meets result
        (members_after (member_runs (L.told look.old) (data_members (map data_member members.now))) [] (L.drawn look.old))
        (L.drawn look.new) }
    ensures same { L.told look.new ≡ L.told look.old }
    ensures held { L.held look.new ≡ L.held look.old }
{
    let mut values = Fields::new(alloc);
    for member in members {
        let value = eval_tree(alloc, &member.1, look)?;
        let name = member.0.copy(alloc)?;
        values.put(name, value)?;
    }
    Ok(values)
}
