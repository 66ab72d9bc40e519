//! What holds of every expression's value.
ghost use Rattle.std.specs.Prelude.{◌≡◌, ℕ, Ok};
ghost use Rattle.wf_val.specs.ValueTree.{ValueTree, Fits};
ghost use Rattle.wf_template.specs.ExprTree.{ExprTree};
ghost use Rattle.wf_look.specs.Told.{Told};
ghost use Rattle.wf_eval_expr.specs.Uses.{uses, AgreeAt};
ghost use Rattle.wf_eval_expr.specs.Value.{value};

/// Two looks that tell the same where an expression asks give it one value, and have it draw the same words. Tells a
/// caller so, and does nothing.
pub fn expressions_are_local()
    ensures { (l m : Told) (e : ExprTree) → AgreeAt l m (uses e) → value l e ≡ value m e }
{}

/// Every value that an expression gives fits, also where it is a part that an access found. Tells a caller so, and does
/// nothing.
pub fn what_an_expression_gives_fits()
    ensures { (l : Told) (e : ExprTree) (n : ℕ) (v : ValueTree) → (value l e n).0 ≡ Ok v → Fits v }
{}
