//! What holds of all decisions and tests. Each call tells a caller so, and does nothing.
ghost use Rattle.std.specs.Prelude.{◌≡◌, ℕ, List};
ghost use Rattle.wf_val.specs.ValueTree.{Fits, ValueTree, list, trees};
ghost use Rattle.wf_template.specs.CondTree.{CondTree};
ghost use Rattle.wf_def.specs.ActionTree.{CaseTree, KindTree, case_trees};
ghost use Rattle.wf_eval.specs.Told.{Told};
ghost use Rattle.wf_eval.specs.EvalExprUses.{AgreeAt};
ghost use Rattle.wf_eval.specs.Uses.{cond_uses};
ghost use Rattle.wf_opening.specs.Branches.{IsBranchOf};
ghost use Rattle.wf_opening.specs.Decisions.{branch_from, chosen, decided, decided_from, each};
ghost use Rattle.wf_opening.specs.Uses.{opening_uses};
ghost use Rattle.wf_opening.specs.Verdicts.{tested_from};

use wf_eval::{values_are_local, what_is_given_fits};
use wf_val::order_is_total;

/// The branch of a Switch is that of the first case which is its value, or the one behind all cases where none is.
pub fn the_branch_is_the_first_of_its_value()
    ensures { (cases : List CaseTree) → (value : ValueTree) → IsBranchOf cases value (branch_from 1 (case_trees cases) value) }
{
    order_is_total();
}

/// Two looks that tell the same where a container asks have it decide the same; and where an expression asks, test the same.
pub fn what_a_container_decides_is_local()
    ensures decided { (l m : Told) → (kind : KindTree) → AgreeAt l m (opening_uses kind) → decided l kind ≡ decided m kind }
    ensures tested { (l m : Told) → (c : CondTree) → AgreeAt l m (cond_uses c) → tested_from l c ≡ tested_from m c }
{
    values_are_local();
}

/// The value that a Switch has fits, and so does the list that a Foreach has.
pub fn what_a_container_keeps_fits()
    ensures chosen { (l : Told) → (kind : KindTree) → (n : ℕ) → (value : ValueTree) → (branch : ℕ)
        → decided_from l kind n ≡ chosen value branch → Fits value }
    ensures each { (l : Told) → (kind : KindTree) → (n : ℕ) → (items : List ValueTree)
        → decided_from l kind n ≡ each items → Fits (list (trees items)) }
{
    what_is_given_fits();
}
