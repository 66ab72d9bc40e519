//! What the section `outputs` comes to.
ghost use Rattle.std.specs.Prelude.{◌≡◌, [], IfOk, map};
ghost use Rattle.wf_def.specs.DefSeen.{output_tree};
ghost use Rattle.wf_eval.specs.TreeValue.{members_after, tree_value};
ghost use Rattle.wf_catalog.specs.Ending.{output_runs, section};
ghost use Rattle.wf_template.specs.DataSeen.{data_tree};
ghost use Rattle.wf_val.specs.Arguments.{seen};

use std::alloc::{AllocError, Global};
use wf_def::Output;
use wf_eval::eval_tree;
use wf_look::Look;
use wf_template::Tree;
use wf_val::{EvalFault, Fields, Val};

// The value of a tree, or its fault. That memory runs out is no fault of the tree.
fn value_in<L: Look>(
    alloc: Global,
    tree: &Tree,
    look: &mut L,
) -> Result<Result<Val, EvalFault>, AllocError>
    ensures value { IfOk result (λ r. seen r ≡ (tree_value (L.told look.old) (data_tree tree.now) (L.drawn look.old)).0) }
    ensures words { IfOk result (λ r. IfOk r (λ v. L.drawn look.new ≡ (tree_value (L.told look.old) (data_tree tree.now)
        (L.drawn look.old)).1)) }
    ensures same { L.told look.new ≡ L.told look.old }
{
    match eval_tree(alloc, tree, look) {
        Ok(value) => Ok(Ok(value)),
        Err(EvalFault::Memory) => Err(AllocError),
        Err(fault) => Ok(Err(fault)),
    }
}

/// The values of outputs in a look, each under its name, or the first fault in their order.
pub(crate) fn values_in<L: Look>(
    alloc: Global,
    outputs: &[Output],
    look: &mut L,
) -> Result<Result<Fields, EvalFault>, AllocError>
    ensures { IfOk result (λ s. s ≡ (members_after (output_runs (L.told look.old) (map output_tree outputs.now)) [] (L.drawn look.old)).0) }
{
    let mut values = Fields::new(alloc);
    for output in outputs {
        match value_in(alloc, &output.value, look)? {
            Ok(value) => values.put(output.name.copy(alloc)?, value)?,
            Err(fault) => return Ok(Err(fault)),
        }
    }
    Ok(Ok(values))
}
