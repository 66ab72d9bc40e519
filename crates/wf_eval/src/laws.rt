//! What holds of every value that is given.
ghost use Rattle.std.specs.Prelude.{◌≡◌, ℕ, Ok};
ghost use Rattle.wf_val.specs.ValueTree.{ValueTree, Fits};
ghost use Rattle.wf_template.specs.TemplateTree.{TemplateTree};
ghost use Rattle.wf_template.specs.DataTree.{DataTree};
ghost use Rattle.wf_template.specs.CondTree.{CondTree};
ghost use Rattle.wf_eval_expr.specs.Told.{Told};
ghost use Rattle.wf_eval_expr.specs.Uses.{AgreeAt};
ghost use Rattle.wf_eval.specs.TemplateValue.{template_value};
ghost use Rattle.wf_eval.specs.TreeValue.{tree_value};
ghost use Rattle.wf_eval.specs.Truth.{truth_of};
ghost use Rattle.wf_eval.specs.Uses.{template_uses, tree_uses, cond_uses};

use wf_eval_expr::{expressions_are_local, what_an_expression_gives_fits};

/// Two looks that tell the same where a template, a tree or a condition asks give it one value, and have it draw the
/// same words. Tells a caller so, and does nothing.
pub fn values_are_local()
    ensures template { (l m : Told) (t : TemplateTree) → AgreeAt l m (template_uses t) → template_value l t ≡ template_value m t }
    ensures tree { (l m : Told) (t : DataTree) → AgreeAt l m (tree_uses t) → tree_value l t ≡ tree_value m t }
    ensures condition { (l m : Told) (c : CondTree) → AgreeAt l m (cond_uses c) → truth_of l c ≡ truth_of m c }
{
    expressions_are_local();
}

/// Every value that a template or a tree is given fits, also where it is a part that an access found. Tells a caller
/// so, and does nothing.
pub fn what_is_given_fits()
    ensures template { (l : Told) (t : TemplateTree) (n : ℕ) (v : ValueTree) → (template_value l t n).0 ≡ Ok v → Fits v }
    ensures tree { (l : Told) (t : DataTree) (n : ℕ) (v : ValueTree) → (tree_value l t n).0 ≡ Ok v → Fits v }
{
    what_an_expression_gives_fits();
}
