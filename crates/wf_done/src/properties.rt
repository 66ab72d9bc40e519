//! Tracked properties: what an action has recorded of itself as it ends.
ghost use Rattle.std.specs.Prelude.{◌≡◌, [], IfOk, map};
ghost use Rattle.wf_val.specs.Seen.{tree};
ghost use Rattle.wf_template.specs.DataSeen.{data_member};
ghost use Rattle.wf_template.specs.DataTree.{data_members};
ghost use Rattle.wf_variables.specs.Made.{Comes};
ghost use Rattle.wf_variables.specs.TreeValue.{member_runs, members_after};
ghost use Rattle.wf_done.specs.Tracked.{tracked_from};

use std::alloc::{AllocError, Global};
use wf_template::Tree;
use wf_val::{EvalFault, Fields, Text, Val};
use wf_variables::{Look, eval_tree};

// The values of members, or the first fault in the order of their names.
fn members_of<L: Look>(
    alloc: Global,
    members: &[(Text, Tree)],
    look: &mut L,
) -> Result<Fields, EvalFault>
    ensures members { Comes result
        (members_after (member_runs (L.told look.old) (data_members (map data_member members.now))) [] (L.drawn look.old))
        (L.drawn look.new) }
    ensures same { L.told look.new ≡ L.told look.old }
    ensures held { L.held look.new ≡ L.held look.old }
{
    let mut values = Fields::new(alloc);
    for member in members {
        let value = eval_tree(alloc, &member.1, look)?;
        values.put(member.0.copy(alloc)?, value)?;
    }
    Ok(values)
}

/// The tracked properties of an action whose view the look tells as its own: an object, or null where one has no value.
pub fn tracked<L: Look>(
    alloc: Global,
    members: &[(Text, Tree)],
    look: &mut L,
) -> Result<Val, AllocError>
    ensures value { IfOk result (λ v. tree v ≡ tracked_from (L.told look.old) (map data_member members.now) (L.drawn look.old)) }
    ensures same { L.told look.new ≡ L.told look.old }
    ensures held { L.held look.new ≡ L.held look.old }
{
    match members_of(alloc, members, look) {
        Ok(values) => Ok(Val::Obj(values)),
        Err(EvalFault::Memory) => Err(AllocError),
        Err(_) => Ok(Val::Null),
    }
}
